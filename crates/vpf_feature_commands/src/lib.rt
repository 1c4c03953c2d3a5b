//! The commands over the features of a coverage: the words of each, and its answer over the files of a tree (MIL-STD-2407, 5.2.3, feature classes).
#![tactic(auto)]

pub mod classes;
mod lacks;
pub mod laws;
mod printing;
mod requesting;
mod selecting;

pub use requesting::SelectRequest;
pub use selecting::select;
