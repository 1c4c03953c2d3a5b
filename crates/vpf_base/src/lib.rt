//! What stands below every other crate: the bounds of files, byte orders and the numbers that bytes spell in them, and what specs and proofs say
//! of booleans, results, numbers and lists.
#![tactic(auto)]

pub mod limits;
mod orders;

pub use orders::Order;
