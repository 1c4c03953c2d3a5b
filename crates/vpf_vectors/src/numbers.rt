//! Numbers of a grid, as cells hold them.

ghost use Rattle.std.specs.Prelude.{◌≡◌, if◌then◌else◌};
ghost use Rattle.vpf_value.specs.Values.{view};
ghost use Rattle.vpf_vectors.specs.Tables.{cell_of_number};
ghost use Rattle.vpf_vectors.specs.Inner.Writing.{IsGridNumber};

use vpf_value::Cell;

/// A bound of the numbers of a grid of at most 200 by 200 cells, which has 80,400 edges, and fewer faces, nodes and tiles.
pub const MOST_NUMBER: u32 = 100_000;

/// The cell of a number.
pub fn number(k: u32) -> Cell<'static>
    requires { IsGridNumber k }
    ensures { view result ≡ cell_of_number k }
{
    Cell::Long(k as i32)
}

/// The cell of a mark: 1 where it is set, and else 0.
pub fn mark(on: bool) -> Cell<'static>
    ensures { view result ≡ cell_of_number (if on then 1 else 0) }
{
    Cell::Short(i16::from(on))
}
