//! What follows a dart across the tiles of a coverage: the sides of edges, the dart that comes next by the external parts of references,
//! and home copies (MIL-STD-2407, 5.2.3, cross-tile topology).
#![tactic(auto)]

mod checking;
mod dart_places;
mod followed;
mod following;
mod homes;
pub mod laws;
mod links;
mod sides;

pub use followed::{Followed, check_follows};
pub use following::{follow, is_home, is_outside};
pub use sides::check_sides;
pub use vpf_coverage as coverage;
