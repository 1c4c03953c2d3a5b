//! The tables of tiles, written like those of the coverage that is cut into them: the same headers with other kinds for ids and references,
//! and the same rows with new ones (MIL-STD-2407, 5.2.2, primitives, and 5.2.3, tiled coverages and cross-tile topology).

mod edges;
mod forms;
mod pairs;
mod rings;
mod tiles;

pub use forms::Forms;
pub use tiles::write_tiles;
