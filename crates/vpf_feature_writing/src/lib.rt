//! The files of features that are written beside the tables of a coverage: the schema table and the feature tables as they are, and their thematic
//! indexes built anew; and whether features are joined to primitives by these' numbers (MIL-STD-2407, 5.2.3, feature classes).
#![tactic(auto)]

pub mod feature_reading;
mod features;
mod indexes;
mod keying;
mod tables;

pub use features::{feature_files, with_features};
pub use keying::numbered_row;
pub use vpf_features;
