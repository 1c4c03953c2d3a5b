//! The cells of a row in a list that is used again.

ghost use Rattle.std.specs.Prelude.{◌≡◌, ◌<◌, All, length, map};
ghost use Rattle.vpf_value.specs.Values.{view};
ghost use Rattle.vpf_write.specs.Revise.Revising.{new_value, revised};

use crate::revise::changes::NewCell;
use vpf_table::Cells;
use vpf_value::Cell;

/// Puts the cells of a row in the places of those that stand there.
pub fn fill<'a>(cells: &mut [Cell<'a>], row: Cells<'_, 'a>)
    requires { length row ≡ length cells.old }
    ensures { map view cells.new ≡ row.entry }
{
    for (c, cell) in row.enumerate() {
        cells[c] = cell;
    }
}

/// Puts the new cells in their places.
pub fn revise<'a>(cells: &mut [Cell<'a>], changes: &[NewCell<'a>])
    requires { All (λ new. new.column < length cells.old) changes.now }
    ensures { map view cells.new ≡ revised (map new_value changes.now) (map view cells.old) }
{
    for new in changes.iter().rev() {
        cells[new.column] = new.cell;
    }
}
