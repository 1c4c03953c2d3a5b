//! The files of the features of a coverage: its schema table, the feature tables that it names, and the thematic indexes that their columns name,
//! read once and kept (MIL-STD-2407, 5.2.3, feature classes).
#![tactic(auto)]

mod files;
mod indexes;
pub mod laws;
mod schema;
pub mod schema_rows;
mod tables;

pub use files::{FeatureFiles, SchemaFile, TableFiles};
pub use schema::load_features;
