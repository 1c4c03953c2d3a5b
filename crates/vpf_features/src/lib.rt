//! The features of a coverage: its schema table and feature tables, opened, and the first place where they or their thematic indexes disagree
//! (MIL-STD-2407, 5.2.3, feature classes).
#![tactic(auto)]

mod faults;
pub mod feature_agreement;
mod opening;
mod rows;
mod schema;
mod themes;

pub use faults::FeatureFault;
pub use opening::open_features;
pub use schema::{FeatureView, IndexView, Schema};
pub use themes::check_themes;
