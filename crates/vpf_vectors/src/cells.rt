//! The grid of n by n cells, a coverage of any size whose every number is known.
//!
//! Nodes stand at the corners (x, y), x and y from 0 to n; an edge leads one step to the east or to the north, and each cell is a face.
//! Face 1 is all outside. The edges are winged (MIL-STD-2407, section 5.2.2): round a face, a dart is followed at its head by the first
//! that there is of a turn to the right, straight on, and a turn to the left. Two by two cells make a tile.

mod grids;
pub mod laws;
mod rows;

pub use grids::{GridRows, grid_rows, plan_rows};
pub use rows::{EdgeRow, RingRow};
