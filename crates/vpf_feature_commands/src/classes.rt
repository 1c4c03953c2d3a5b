//! The features of a class: those that have a value in a column, with the primitives that a schema table joins to each (MIL-STD-2407, 5.2.3, feature
//! classes).

mod asking;
mod errors;
mod keys;
pub mod laws;
mod rows;
mod selecting;

pub use asking::features;
pub use errors::FeatureError;
