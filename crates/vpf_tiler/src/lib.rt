//! An untiled coverage cut into tiles: the files of its tiled library, or why there are none (MIL-STD-2407, 5.2.3, tiled coverages and
//! cross-tile topology).
#![tactic(auto)]

mod errors;
pub mod laws;
mod sources;
pub mod tile_files;
pub mod tiled_features;
pub mod tiled_files;
mod tiling;

pub use errors::TileError;
pub use tiling::tile;
