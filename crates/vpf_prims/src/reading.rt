//! What cells refer to.

ghost use Rattle.std.specs.Prelude.{◌≡◌, length};
ghost use Rattle.vpf_value.specs.Values.{NumberOf, view};
ghost use Rattle.vpf_prims.specs.Columns.{IsWithin, role_at};
ghost use Rattle.vpf_prims.specs.Reading.{natural_in};
ghost use Rattle.vpf_prims.specs.References.{cell_at, is_from, is_line, is_same, reference_in, signed_in, stays};

use crate::placing::RoleColumn;
use vpf_table::{RowView, RowWalk};
use vpf_triplet::Triplet;
use vpf_value::Cell;

/// A number as a reference: the id alone, absent where the number is negative.
fn reference_of(number: i32) -> Triplet
    ensures { result ≡ reference_in (NumberOf number) }
{
    Triplet {
        id: u32::try_from(number).ok(),
        tile: None,
        ext: None,
    }
}

/// A cell as a reference: a triplet id, or a number as its id alone. A negative number is an absent id, and a cell of another kind
/// refers to nothing.
pub fn reference_in(cell: Cell<'_>) -> Triplet
    ensures { result ≡ reference_in (view cell.entry) }
{
    match cell {
        Cell::Short(number) => reference_of(i32::from(number)),
        Cell::Long(number) => reference_of(number),
        Cell::Triplet(triplet) => triplet,
        _ => Triplet {
            id: None,
            tile: None,
            ext: None,
        },
    }
}

/// The number of a cell, 0 where it holds none.
pub fn signed_in(cell: Cell<'_>) -> i32
    ensures { result ≡ signed_in (view cell.entry) }
{
    match cell {
        Cell::Short(number) => i32::from(number),
        Cell::Long(number) => number,
        _ => 0,
    }
}

/// The number of a cell, from 0 up.
pub fn number_in(cell: Cell<'_>) -> Option<u32>
    ensures { result ≡ natural_in (view cell.entry) }
{
    match cell {
        Cell::Short(number) => u32::try_from(i32::from(number)).ok(),
        Cell::Long(number) => u32::try_from(number).ok(),
        _ => None,
    }
}

/// Whether a reference stays within its tile.
pub fn stays(reference: Triplet) -> bool
    ensures { result ≡ stays reference }
{
    reference.tile.is_none() && reference.ext.is_none()
}

/// Whether a mark says that an edge is a line between tiles.
pub fn is_line(cell: Cell<'_>) -> bool
    ensures { result ≡ is_line (view cell.entry) }
{
    match cell {
        Cell::Short(number) => number == 1,
        Cell::Long(number) => number == 1,
        _ => false,
    }
}

/// The cell of a row in a column, nothing where the column is absent.
pub fn cell_at<'a>(row: &RowView<'_, 'a>, column: &RoleColumn<'_>) -> Cell<'a>
    requires { IsWithin (length row.now) (role_at column.now) }
    ensures { view result ≡ cell_at row.now (role_at column.now).place }
{
    match column.place {
        Some(place) => row.cell(place),
        None => Cell::Null,
    }
}

/// The same of a row that is walked: columns in their order are passed once.
pub fn next_cell<'a>(walk: &mut RowWalk<'_, 'a>, column: &RoleColumn<'_>) -> Cell<'a>
    requires { IsWithin (length walk.old) (role_at column.now) }
    ensures cell { view result ≡ cell_at walk.old (role_at column.now).place }
    ensures same { walk.new ≡ walk.old }
{
    match column.place {
        Some(place) => walk.cell(place),
        None => Cell::Null,
    }
}

/// The reference of a row that is walked.
pub(crate) fn next_reference(walk: &mut RowWalk<'_, '_>, column: &RoleColumn<'_>) -> Triplet
    requires { IsWithin (length walk.old) (role_at column.now) }
    ensures reference { result ≡ reference_in (cell_at walk.old (role_at column.now).place) }
    ensures same { walk.new ≡ walk.old }
{
    reference_in(next_cell(walk, column))
}

/// Whether a number is that of a row.
pub fn is_same(number: i32, k: u32) -> bool
    ensures { result ≡ is_same number k }
{
    number >= 0 && number as u32 == k
}

/// Whether there is a number, one of `low` to `last`.
pub fn is_from(low: u32, last: u32, number: Option<u32>) -> bool
    ensures { result ≡ is_from low last number }
{
    match number {
        Some(n) => low <= n && n <= last,
        None => false,
    }
}
