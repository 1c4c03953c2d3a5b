//! The primitives that a feature class schema table joins to the features of a table (MIL-STD-2407, 5.2.3, feature classes).
#![tactic(auto)]

mod features;
mod joining;
mod keying;
pub mod keys;
mod marking;

pub use features::{Feature, Primitive, features_of};
