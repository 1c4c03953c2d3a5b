//! The boundary cycles of a library past its lines between tiles: the dart that comes next when these lines are passed over, and the
//! listing of all cycles (MIL-STD-2407, 5.2.2, winged-edge topology, and 5.2.3, cross-tile topology).
#![tactic(auto)]

mod gathering;
mod homes;
pub mod laws;
mod stepping;
mod tracing;

pub use homes::{home_copy, next};
pub use stepping::step;
pub use tracing::trace;
