//! What is so of the library of the grid.

ghost use Rattle.vpf_vectors.specs.Library.{GridIsRead, TablesSayGrid};

use crate::cells::laws as grids;
use vpf_head::laws::read_headers_are_sound;
use vpf_write::laws::written_is_read;

/// The bytes of each file of the grid of n by n cells, n an even number from 2 to 200, are read as the table that the file holds.
pub fn grid_is_read()
    ensures { GridIsRead }
{
    grids::darts_are_in_range();
    grids::nexts_are_a_map();
    grids::least_darts();
    grids::tiles_of_the_grid();
    read_headers_are_sound();
    written_is_read();
}

/// The rows of the tables of its coverage say the primitives of the grid.
pub fn tables_say_grid()
    ensures { TablesSayGrid }
{}
