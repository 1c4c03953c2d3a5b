//! The untiled coverage that the tiles of a checked coverage are glued to: its map, walked dart by dart, and the numbers of its edges, nodes,
//! faces, rings and entity nodes (MIL-STD-2407, 5.2.2, primitives, and 5.2.3, tiled coverages).
#![tactic(auto)]

pub mod glued_edges;
pub mod glued_faces;
pub mod whole;
