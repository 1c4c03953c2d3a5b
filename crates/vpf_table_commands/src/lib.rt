//! The commands over tables: the words of each, and its answer over the files of a tree.
#![tactic(auto)]

mod accepting;
mod cycling;
mod feeding;
mod indexing;
pub mod laws;
mod selecting;
mod showing;
mod swapping;
mod words;

pub use accepting::{TableRequest, table};
pub use cycling::{CyclesRequest, cycles};
pub use indexing::{IndexRequest, index};
pub use selecting::{RowsRequest, rows};
pub use showing::{ShowRequest, show};
pub use swapping::{SwapRequest, swap};
pub use words::Word;
