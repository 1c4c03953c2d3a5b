//! The edges and nodes of the untiled coverage that a tiled one is glued to: their numbers, and what the rows of edges name (MIL-STD-2407,
//! 5.2.2, winged-edge topology, and 5.2.3, cross-tile topology).

mod counting;
mod edges;
mod faces;
mod firsts;
mod glued;
mod nodes;

pub use counting::edge_count;
pub use faces::TileFace;
pub use glued::{EdgeJoins, GluedEdges};
