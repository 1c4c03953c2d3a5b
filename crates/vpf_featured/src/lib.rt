//! A coverage with its features: the files of both, read once and kept, and what disagrees first in them (MIL-STD-2407, 5.2.2, primitives, and 5.2.3,
//! feature classes).
#![tactic(auto)]

mod checking;
pub mod load_replies;
mod loading;

pub use checking::{Featured, check_topology, open_agreeing, open_featured};
pub use loading::{FeaturedFiles, load_featured};
