//! Whether two cells have the same value.

ghost use Rattle.std.specs.Prelude.{◌≡◌, ◌↔◌, IsTrue, length};
ghost use Rattle.vpf_value.specs.Values.{WordsOf, view};
ghost use Rattle.vpf_value.specs.Inner.Coordinates.{words, words_width};

use crate::cells::Cell;
use crate::coords::Coords;

fn same_words(a: &Coords<'_>, b: &Coords<'_>) -> bool
    requires { length (words a.now) ≡ length (words b.now) }
    ensures { IsTrue result ↔ (words a.now ≡ words b.now) }
{
    for i in 0..a.len() {
        if a.word(i) != b.word(i) {
            return false;
        }
    }
    true
}

fn same_coords(a: &Coords<'_>, b: &Coords<'_>) -> bool
    ensures { IsTrue result ↔ (WordsOf (words_width a.now) (words a.now) ≡ WordsOf (words_width b.now) (words b.now)) }
{
    a.word_width() == b.word_width() && a.len() == b.len() && same_words(a, b)
}

/// Whether the two cells have the same value: the same text, date or word, the same number also where one takes 2 bytes
/// and the other 4, the same parts of triplet ids, or the same words of one width, whatever tuples they make.
pub fn same(a: &Cell<'_>, b: &Cell<'_>) -> bool
    ensures { IsTrue result ↔ (view a.now ≡ view b.now) }
{
    match (*a, *b) {
        (Cell::Text(x), Cell::Text(y)) | (Cell::Date(x), Cell::Date(y)) => x == y,
        (Cell::Word4(x), Cell::Word4(y)) => x == y,
        (Cell::Word8(x), Cell::Word8(y)) => x == y,
        (Cell::Short(x), Cell::Short(y)) => x == y,
        (Cell::Long(x), Cell::Long(y)) => x == y,
        (Cell::Short(x), Cell::Long(y)) | (Cell::Long(y), Cell::Short(x)) => i32::from(x) == y,
        (Cell::Null, Cell::Null) => true,
        (Cell::Triplet(x), Cell::Triplet(y)) => x == y,
        (Cell::Coords(x), Cell::Coords(y)) => same_coords(&x, &y),
        _ => false,
    }
}
