//! Darts of winged edges, combinatorial maps, removal of edges, listings of boundary cycles, and their
//! laws.
//!
//! A winged edge (MIL-STD-2407, section 5.2.2) names for each of its two sides the edge that follows round
//! the face there. Each edge gives two darts, one a direction, and `next` leads from a dart to the one
//! that follows it round its face: a combinatorial map, whose cycles of `next` are the boundaries of faces
//! and whose cycles of `turn` go round nodes.
#![tactic(auto)]

mod cycling;
mod darts;
pub mod laws;
mod listings;
mod maps;
mod removing;
mod repeats;
mod walking;

pub use cycling::{Ranked, cycles, cycles_of, list_cycles};
pub use darts::{Dart, TileDart, flip};
pub use listings::Listing;
pub use maps::{Map, MapError, NotPermutation};
pub use removing::without;
pub use walking::{Walk, next_kept};
