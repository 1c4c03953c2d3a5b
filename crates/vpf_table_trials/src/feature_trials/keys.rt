//! The rows of keys, by hand.

use crate::feature_trials::same::same;
use std::alloc::Global;
use std::test::Fail;
use vpf_joins::keys::{KeyIndex, put_keys};
use vpf_table::TableView;
use vpf_triplet::Triplet;
use vpf_value::Cell;

/// Numbers of 2 bytes: 5, 7 and 5.
const SHORT: &[u8] = b"\x18\0\0\0L;T;-;k=S,1,N,d,-,-,-,:;\x05\0\x07\0\x05\0";

/// Numbers of 4 bytes: 7, 5 and -1.
const LONG: &[u8] = b"\x18\0\0\0L;T;-;k=I,1,N,d,-,-,-,:;\x07\0\0\0\x05\0\0\0\xff\xff\xff\xff";

/// Texts of 2 bytes: "a", filled with a space, "ab", and "a" again.
const WIDE: &[u8] = b"\x18\0\0\0L;T;-;k=T,2,N,d,-,-,-,:;a aba ";

/// Texts of 1 byte: "b" and "a".
const NARROW: &[u8] = b"\x18\0\0\0L;T;-;k=T,1,N,d,-,-,-,:;ba";

/// Triplet ids: 5 alone, twice.
const IDS: &[u8] = b"\x18\0\0\0L;T;-;k=K,1,N,d,-,-,-,:;\x40\x05\x40\x05";

const ID: Cell<'static> = Cell::Triplet(Triplet {
    id: Some(5),
    tile: None,
    ext: None,
});

/// The index of the first columns of the tables of tiles 1, 2 and so on.
fn indexed<'a>(alloc: Global, tiles: &[&'a [u8]]) -> Result<KeyIndex<'a>, Fail> {
    let mut keys = Vec::new(alloc);
    let mut tile = 0;
    for file in tiles {
        if tile == u32::MAX {
            return Err(Fail::new("more tiles than numbers"));
        }
        tile += 1;
        let table = TableView::open(alloc, file, None)?;
        if table.header().len() == 0 {
            return Err(Fail::new("no column"));
        }
        put_keys(&mut keys, tile, &table, 0)?;
    }
    Ok(KeyIndex::of(keys)?)
}

#[test]
fn keys_join_rows_over_all_tiles(rt: HostRuntime) -> Result<(), Fail> {
    let alloc = rt.alloc();
    let index = indexed(alloc, &[SHORT, LONG, WIDE, NARROW, IDS])?;
    for (key, want) in [
        (Cell::Long(5), [(1, 1), (1, 3), (2, 2)].as_slice()),
        (Cell::Short(7), [(1, 2), (2, 1)].as_slice()),
        (Cell::Short(-1), [(2, 3)].as_slice()),
        (Cell::Long(6), [].as_slice()),
        (Cell::Text(b"a "), [(3, 1), (3, 3)].as_slice()),
        (Cell::Text(b"a"), [(4, 2)].as_slice()),
        (Cell::Text(b""), [].as_slice()),
        (Cell::Date(b"ab"), [].as_slice()),
        (Cell::Word4(5), [].as_slice()),
        (ID, [].as_slice()),
    ] {
        let rows = index.rows(&key).iter();
        let found: Vec<(u32, u32)> = rows.map(|row| (row.at.tile, row.at.row)).collect(alloc)?;
        same(&rt, found.as_slice(), want, key);
    }
    Ok(())
}
