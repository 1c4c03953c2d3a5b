//! Which edges, nodes, faces and entity nodes are in which tiles, and their numbers there (MIL-STD-2407, 5.2.3, tiled coverages).

mod copies;
mod edges;
pub mod laws;
mod lists;

pub use copies::Copies;
pub use edges::{EdgeNodes, EdgeTiles};
