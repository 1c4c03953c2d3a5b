//! The commands over libraries: the words of each, and its answer over the files of a tree.
#![tactic(auto)]

mod checking;
mod gluing;
mod keying;
pub mod laws;
mod making;
mod requesting;
pub mod tile_theorem;
mod tiling;
mod totals;
mod tracing;

pub use checking::{CheckRequest, check};
pub use gluing::glue;
pub use requesting::MakeRequest;
pub use tiling::tile;
pub use totals::{Totals, totals_of};
pub use tracing::trace;
pub use vpf_tiler as tiler;
pub use vpf_trace;
