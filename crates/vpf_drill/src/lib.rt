//! `drill`: the grid of n by n cells, made in memory, cut into tiles, checked and traced, what comes of it in numbers, and the laws of the grid that
//! it stands on; and those of a small coverage that is cut with its features.
#![tactic(auto)]

mod counting;
mod digest;
mod drilling;
pub mod grid_agreement;
pub mod grid_cutting;
pub mod laws;
mod numbers;
mod request;
pub mod tiled_sizes;
mod trees;
pub mod worked;

pub use drilling::drill;
pub use request::DrillRequest;
pub use vpf_library_commands::tile_theorem;
