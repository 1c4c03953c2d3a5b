//! The faces, the rings and the entity nodes of the coverage that the tiles of a coverage are glued to: their numbers there, and where they
//! come from (MIL-STD-2407, 5.2.2, rings, and 5.2.3, tiled coverages).

mod counting;
mod entities;
mod faces;
mod joined;
pub mod laws;
mod rings;
mod starts;
mod universe;

pub use entities::entity_count;
pub use faces::{FacePlace, GluedFaces};
pub use rings::GluedRing;
