//! A coverage that is cut into tiles by a plan: what is in each tile, and what the rows of its edges, nodes and entity nodes say
//! (MIL-STD-2407, 5.2.3, tiled coverages and cross-tile topology).
#![tactic(auto)]

pub mod copies;
mod cut;
mod firsts;
mod placing;
mod rows;
mod walking;

pub use cut::Cut;
pub use rows::CutEdge;
pub use walking::TileWalk;
