//! The wings of edges: the next dart round a face, what disagrees in them first, and the boundary cycles of an untiled edge table
//! (MIL-STD-2407, 5.2.2, winged-edge topology); and the cycles past edges that are left out (`kept`).
#![tactic(auto)]

mod boundaries;
mod checking;
mod edges;
mod errors;
mod firsts;
mod following;
pub mod kept;
pub mod laws;
mod leasts;
mod nodes;
mod places;
mod rings;
mod sides;
mod tile_edges;

pub use boundaries::boundary_cycles;
pub use checking::check_tile;
pub use edges::WingedEdges;
pub use errors::EdgeError;
pub use following::{next_dart, nexts};
pub use sides::check_loops;
pub use tile_edges::next_local;
