//! The rings of the tiles of a coverage that is cut by a plan, and the first ring of each face of a tile (MIL-STD-2407, 5.2.2, rings, and
//! 5.2.3, tiled coverages).
#![tactic(auto)]

mod firsts;
pub mod laws;
mod outer;
mod rings;
mod within;

pub use firsts::first_rings;
pub use rings::{CutRing, CutRings, rings_by_face};
