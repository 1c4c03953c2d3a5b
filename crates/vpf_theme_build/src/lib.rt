//! Building thematic indexes of columns (after MIL-STD-2407, 5.4, indexes: thematic index encoding).
#![tactic(auto)]

mod building;
mod errors;
mod grouping;
mod heading;
pub mod laws;
mod writing;

pub use building::build;
pub use errors::BuildError;
