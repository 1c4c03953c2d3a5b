//! The words whose bytes a byte order turns round.

ghost use Rattle.std.specs.Prelude.{◌≡◌};
ghost use Rattle.vpf_value.specs.Inner.Turning.{word_size};

use vpf_triplet::Kind;

/// How many bytes a word has: a number that stands in the byte order of its file.
#[derive(Clone, Copy, Debug, PartialEq, Eq)]
pub enum WordSize {
    /// One, which no order changes: texts and dates.
    One,
    /// Two: kind S.
    Two,
    /// Four: kinds F, I, C and Z.
    Four,
    /// Eight: kinds R, B and Y.
    Eight,
}

/// The words that make up each cell of this kind, where cells have one width.
pub fn word_size(kind: Kind) -> WordSize
    ensures { result ≡ word_size kind }
{
    match kind {
        Kind::S => WordSize::Two,
        Kind::F | Kind::I | Kind::C | Kind::Z => WordSize::Four,
        Kind::R | Kind::B | Kind::Y => WordSize::Eight,
        Kind::T | Kind::L | Kind::M | Kind::N | Kind::D | Kind::X | Kind::K => WordSize::One,
    }
}
