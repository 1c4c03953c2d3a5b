//! Equal values, and what fits.

use super::{DATE, L, LARGEST_PART, M, ONE, STAR};
use vpf_triplet::{Count, Kind, Order, Triplet};
use vpf_value::{Cell, cell_at, fits, same};

fn coords_of(order: Order, kind: Kind, count: u32, bytes: &[u8]) -> Cell<'_> {
    match cell_at(order, kind, Count::Fixed(count), bytes, 0) {
        Ok((cell, _)) => cell,
        Err(_) => Cell::Null,
    }
}

fn id_of(id: Option<u32>, tile: Option<u32>, ext: Option<u32>) -> Cell<'static> {
    Cell::Triplet(Triplet { id, tile, ext })
}

const SIX_WORDS: &[u8] = b"\x01\0\0\0\x02\0\0\0\x03\0\0\0\x04\0\0\0\x05\0\0\0\x06\0\0\0";

#[test]
fn compares_values(rt: HostRuntime) {
    let pairs = coords_of(L, Kind::C, 3, SIX_WORDS);
    let cases: [(Cell, Cell, bool); 20] = [
        (Cell::Short(5), Cell::Long(5), true),
        (Cell::Long(-5), Cell::Short(-5), true),
        (Cell::Long(65541), Cell::Short(5), false),
        (Cell::Short(5), Cell::Short(6), false),
        (Cell::Text(b"ab"), Cell::Text(b"ab"), true),
        (Cell::Text(b"ab"), Cell::Text(b"ab "), false),
        (Cell::Text(DATE), Cell::Date(DATE), false),
        (Cell::Date(DATE), Cell::Date(DATE), true),
        (Cell::Word4(5), Cell::Word4(5), true),
        (Cell::Word4(5), Cell::Word8(5), false),
        (Cell::Word8(5), Cell::Word8(6), false),
        (Cell::Word4(5), Cell::Long(5), false),
        (Cell::Null, Cell::Null, true),
        (Cell::Null, Cell::Text(b""), false),
        (id_of(Some(1), None, None), id_of(Some(1), None, None), true),
        (
            id_of(Some(1), None, None),
            id_of(Some(1), Some(0), None),
            false,
        ),
        (pairs, coords_of(L, Kind::Z, 2, SIX_WORDS), true),
        (pairs, coords_of(L, Kind::C, 2, SIX_WORDS), false),
        (pairs, coords_of(M, Kind::C, 3, SIX_WORDS), false),
        (
            coords_of(L, Kind::C, 0, b""),
            coords_of(L, Kind::B, 0, b""),
            false,
        ),
    ];
    for (i, (a, b, want)) in cases.iter().enumerate() {
        assert_eq!(rt; same(a, b), *want, "case {i}");
        assert_eq!(rt; same(b, a), *want, "case {i} turned");
    }
    let turned = coords_of(M, Kind::C, 1, b"\0\0\0\x01\0\0\0\x02");
    assert!(rt; same(&turned, &coords_of(L, Kind::C, 1, SIX_WORDS)));
    assert!(rt; !same(&turned, &coords_of(M, Kind::C, 1, b"\0\0\0\x01\0\0\0\x03")));
}

/// Fields, cells of texts, numbers, dates and nothing, and whether they fit.
const FITTING: [(Kind, Count, Cell<'static>, bool); 22] = [
    (Kind::T, Count::Fixed(2), Cell::Text(b"ab"), true),
    (Kind::L, Count::Fixed(3), Cell::Text(b"ab"), false),
    (Kind::M, STAR, Cell::Text(b""), true),
    (Kind::N, Count::Fixed(20), Cell::Date(DATE), false),
    (Kind::F, ONE, Cell::Word4(u32::MAX), true),
    (Kind::F, ONE, Cell::Word8(1), false),
    (Kind::F, Count::Fixed(2), Cell::Word4(1), false),
    (Kind::F, STAR, Cell::Word4(1), false),
    (Kind::R, ONE, Cell::Word8(u64::MAX), true),
    (Kind::S, ONE, Cell::Short(-1), true),
    (Kind::S, ONE, Cell::Long(5), true),
    (Kind::S, ONE, Cell::Long(32767), true),
    (Kind::S, ONE, Cell::Long(32768), false),
    (Kind::S, ONE, Cell::Long(-32768), true),
    (Kind::S, ONE, Cell::Long(-32769), false),
    (Kind::I, ONE, Cell::Short(-1), true),
    (Kind::I, ONE, Cell::Long(i32::MIN), true),
    (Kind::I, ONE, Cell::Null, false),
    (Kind::D, ONE, Cell::Date(DATE), true),
    (Kind::D, ONE, Cell::Date(b"2026"), false),
    (Kind::X, ONE, Cell::Null, true),
    (Kind::X, STAR, Cell::Null, false),
];

#[test]
fn knows_what_fits(rt: HostRuntime) {
    for (i, (kind, count, cell, want)) in FITTING.iter().enumerate() {
        assert_eq!(rt; fits(*kind, *count, cell), *want, "case {i}");
    }
}

#[test]
fn knows_which_ids_and_coordinates_fit(rt: HostRuntime) {
    let pairs = coords_of(L, Kind::C, 3, SIX_WORDS);
    let triples = coords_of(L, Kind::Z, 2, SIX_WORDS);
    let pair = coords_of(L, Kind::C, 1, SIX_WORDS);
    let cases: [(Kind, Count, Cell, bool); 12] = [
        (Kind::K, ONE, id_of(None, None, None), true),
        (Kind::K, ONE, id_of(Some(LARGEST_PART), None, Some(1)), true),
        (
            Kind::K,
            ONE,
            id_of(Some(1), Some(LARGEST_PART + 1), None),
            false,
        ),
        (Kind::C, Count::Fixed(3), pairs, true),
        (Kind::C, Count::Fixed(3), triples, true),
        (Kind::C, Count::Fixed(2), pairs, false),
        (Kind::B, Count::Fixed(3), pairs, false),
        (Kind::Z, Count::Fixed(2), pairs, true),
        (Kind::Z, STAR, pairs, true),
        (Kind::Z, STAR, pair, false),
        (Kind::C, STAR, coords_of(L, Kind::C, 0, b""), true),
        (Kind::Y, STAR, triples, false),
    ];
    for (i, (kind, count, cell, want)) in cases.iter().enumerate() {
        assert_eq!(rt; fits(*kind, *count, cell), *want, "case {i}");
    }
}
