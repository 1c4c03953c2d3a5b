//! How many bytes cells take.

ghost use Rattle.std.specs.Prelude.{◌≡◌, ◌*◌};
ghost use Rattle.vpf_value.specs.Words.{word_bytes, tuple_len};
ghost use Rattle.vpf_value.specs.Widths.{many_width, cell_width};

use crate::coords::{Tuple, WordWidth, tuples_bytes};
use vpf_triplet::{Count, Kind};

pub(crate) const WORD4_BYTES: usize = 4;

pub(crate) const WORD8_BYTES: usize = 8;

pub(crate) const SHORT_BYTES: usize = 2;

pub(crate) const LONG_BYTES: usize = 4;

pub(crate) const DATE_BYTES: usize = 20;

fn text_width(count: Count) -> Option<usize>
    ensures { result ≡ many_width 1 count }
{
    match count {
        Count::Fixed(n) => Some(n as usize),
        Count::Star => None,
    }
}

fn coords_width(width: WordWidth, tuple: Tuple, count: Count) -> Option<usize>
    ensures { result ≡ many_width (word_bytes width * tuple_len tuple) count }
{
    match count {
        Count::Fixed(n) => Some(tuples_bytes(width, tuple, n)),
        Count::Star => None,
    }
}

/// The number of bytes of each cell of this kind and count. None where cells vary: triplet ids, and cells that begin
/// with a count of their own.
pub fn cell_width(kind: Kind, count: Count) -> Option<usize>
    ensures { result ≡ cell_width kind count }
{
    match kind {
        Kind::T | Kind::L | Kind::M | Kind::N => text_width(count),
        Kind::F => Some(WORD4_BYTES),
        Kind::R => Some(WORD8_BYTES),
        Kind::S => Some(SHORT_BYTES),
        Kind::I => Some(LONG_BYTES),
        Kind::D => Some(DATE_BYTES),
        Kind::X => Some(0),
        Kind::K => None,
        Kind::C => coords_width(WordWidth::Four, Tuple::Pair, count),
        Kind::B => coords_width(WordWidth::Eight, Tuple::Pair, count),
        Kind::Z => coords_width(WordWidth::Four, Tuple::Triple, count),
        Kind::Y => coords_width(WordWidth::Eight, Tuple::Triple, count),
    }
}
