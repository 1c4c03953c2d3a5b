//! The table of tiles of a library, `tileref.aft`: what disagrees in it first, and the paths of its tiles (MIL-STD-2407, 5.3, tile
//! reference coverage).

mod bounds;
mod columns;
mod errors;
pub mod laws;
mod naming;
mod paths;
mod reading;
mod rows;

pub use errors::TilerefError;
pub use paths::TilePaths;
pub use reading::read_tileref;
