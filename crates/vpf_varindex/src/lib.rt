//! Variable-length indexes: where each row of a table lies in its file (MIL-STD-2407, 5.4, variable-length index file).
#![tactic(auto)]

pub mod laws;
mod making;
mod view;

pub use making::index_of;
pub use view::IndexView;
