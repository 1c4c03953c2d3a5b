//! The words that every layer of a Vector Product Format table shares: byte orders, field kinds and counts, the
//! places and codes of refusals, and triplet ids (MIL-STD-2407, 5.4, VPF encoding).
#![tactic(auto)]

mod kinds;
pub mod laws;
mod places;
mod sizes;
mod triplets;

pub use kinds::{Count, Kind};
pub use places::{Code, Part, Place, PlaceError};
pub use sizes::Size;
pub use triplets::Triplet;
pub use vpf_base::Order;
