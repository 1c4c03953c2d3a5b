//! The darts that a walk keeps, their places in their order, and the listing of their cycles: those of a combinatorial map without some of its
//! edges.

mod listing;

pub use listing::{list_kept, place_of};
