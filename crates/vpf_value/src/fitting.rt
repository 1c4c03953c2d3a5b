//! Whether a cell may stand in a field.

ghost use Rattle.std.specs.Prelude.{◌≡◌, ◌↔◌, IsTrue};
ghost use Rattle.vpf_value.specs.Values.{WordsOf, view};
ghost use Rattle.vpf_value.specs.Inner.Coordinates.{words, words_width};
ghost use Rattle.vpf_triplet.specs.Reading.{is_small};
ghost use Rattle.vpf_value.specs.Inner.Fitting.{HoldsMany, HoldsTuples, FitsWord4, FitsWord8, FitsTuples, FitsKind, FitsCell, HasSpelling};

use crate::cells::Cell;
use crate::coords::{Coords, Tuple, WordWidth};
use crate::widths::DATE_BYTES;
use vpf_triplet::{Count, Kind, Triplet};

/// The first number that is no part of a triplet id.
const PART_LIMIT: u32 = 0x8000_0000;

fn holds(count: Count, n: usize) -> bool
    ensures { IsTrue result ↔ HoldsMany count n }
{
    match count {
        Count::Fixed(m) => n == m as usize,
        Count::Star => n <= u32::MAX as usize,
    }
}

fn holds_tuples(tuple: Tuple, count: Count, words: usize) -> bool
    ensures { IsTrue result ↔ HoldsTuples tuple count words }
{
    let len = tuple.len();
    words % len == 0 && holds(count, words / len)
}

fn is_word4(cell: &Cell<'_>) -> bool
    ensures { IsTrue result ↔ FitsWord4 (view cell.now) }
{
    matches!(*cell, Cell::Word4(_word))
}

fn is_word8(cell: &Cell<'_>) -> bool
    ensures { IsTrue result ↔ FitsWord8 (view cell.now) }
{
    matches!(*cell, Cell::Word8(_word))
}

fn is_small(part: Option<u32>) -> bool
    ensures { result ≡ is_small part }
{
    match part {
        None => true,
        Some(n) => n < PART_LIMIT,
    }
}

fn has_small_parts(id: &Triplet) -> bool
    ensures { IsTrue result ↔ (IsTrue (is_small id.now.id) × IsTrue (is_small id.now.tile) × IsTrue (is_small id.now.ext)) }
{
    is_small(id.id) && is_small(id.tile) && is_small(id.ext)
}

fn are_tuples(width: WordWidth, tuple: Tuple, count: Count, coords: &Coords<'_>) -> bool
    ensures { IsTrue result ↔ FitsTuples width tuple count (WordsOf (words_width coords.now) (words coords.now)) }
{
    coords.word_width() == width && holds_tuples(tuple, count, coords.len())
}

fn fits_kind(kind: Kind, count: Count, cell: &Cell<'_>) -> bool
    ensures { IsTrue result ↔ FitsKind kind count (view cell.now) }
{
    match (kind, *cell) {
        (Kind::T | Kind::L | Kind::M | Kind::N, Cell::Text(text)) => holds(count, text.len()),
        (Kind::F, _) => is_word4(cell),
        (Kind::R, _) => is_word8(cell),
        (Kind::S | Kind::I, Cell::Short(_number)) => true,
        (Kind::S, Cell::Long(number)) => i16::try_from(number).is_ok(),
        (Kind::I, Cell::Long(_number)) => true,
        (Kind::D, Cell::Date(text)) => text.len() == DATE_BYTES,
        (Kind::X, Cell::Null) => true,
        (Kind::K, Cell::Triplet(id)) => has_small_parts(&id),
        (Kind::C, Cell::Coords(c)) => are_tuples(WordWidth::Four, Tuple::Pair, count, &c),
        (Kind::B, Cell::Coords(c)) => are_tuples(WordWidth::Eight, Tuple::Pair, count, &c),
        (Kind::Z, Cell::Coords(c)) => are_tuples(WordWidth::Four, Tuple::Triple, count, &c),
        (Kind::Y, Cell::Coords(c)) => are_tuples(WordWidth::Eight, Tuple::Triple, count, &c),
        _ => false,
    }
}

/// Whether the cell may stand in a field of this kind and count: the kind allows the count, and some bytes that
/// `cell_at` reads spell the cell's value. So a number of 4 bytes fits kind S where it is small enough, words fit each
/// kind with their width that has tuples of as many words, and each part of a triplet id is below 2^31.
pub fn fits(kind: Kind, count: Count, cell: &Cell<'_>) -> bool
    ensures fitting { IsTrue result ↔ FitsCell kind count (view cell.now) }
    // In each order some bytes spell the cell's value.
    ensures spelled { IsTrue result ↔ HasSpelling kind count (view cell.now) }
{
    kind.allows(count) && fits_kind(kind, count, cell)
}
