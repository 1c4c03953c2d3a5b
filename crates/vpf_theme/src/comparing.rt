//! The order of the values of one field.

ghost use Rattle.std.specs.Prelude.{◌≡◌};
ghost use Rattle.vpf_value.specs.Values.{view};
ghost use Rattle.vpf_theme.specs.Ordering.{sort_rank, value_cmp};

use std::cmp::Ordering;
use vpf_value::Cell;

/// Where the values of a sort stand among those of others.
fn rank(cell: &Cell<'_>) -> u8
    ensures { result ≡ sort_rank (view cell.now) }
{
    match *cell {
        Cell::Text(_) => 0,
        Cell::Date(_) => 1,
        Cell::Word4(_) => 2,
        Cell::Word8(_) => 3,
        Cell::Short(_) | Cell::Long(_) => 4,
        _ => 5,
    }
}

/// How the values of two cells are ordered: texts and dates by their bytes, words as unsigned numbers, and numbers as
/// signed ones. The cells of one field are of one sort; those of different sorts stand as their sorts do.
pub fn compare(a: &Cell<'_>, b: &Cell<'_>) -> Ordering
    ensures { result ≡ value_cmp (view a.now) (view b.now) }
{
    match (*a, *b) {
        (Cell::Text(x), Cell::Text(y)) | (Cell::Date(x), Cell::Date(y)) => x.cmp(y),
        (Cell::Word4(x), Cell::Word4(y)) => x.cmp(&y),
        (Cell::Word8(x), Cell::Word8(y)) => x.cmp(&y),
        (Cell::Short(x), Cell::Short(y)) => x.cmp(&y),
        (Cell::Long(x), Cell::Long(y)) => x.cmp(&y),
        (Cell::Short(x), Cell::Long(y)) => i32::from(x).cmp(&y),
        (Cell::Long(x), Cell::Short(y)) => x.cmp(&i32::from(y)),
        _ => rank(a).cmp(&rank(b)),
    }
}
