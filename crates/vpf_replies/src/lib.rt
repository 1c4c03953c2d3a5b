//! What commands answer with: replies, the lines of what isn't done, listings of cycles, the files that are made, and the files of a tree
//! or the replies in their place.
#![tactic(auto)]

mod columns;
mod disagreeing;
mod halting;
mod listings;
mod loading;
mod making;
mod refusing;
mod reply;
mod selecting;
mod texts;
mod verdict;

pub use columns::place_of;
pub use disagreeing::{disagreement, kept_disagreement};
pub use halting::{Halt, Stop, settle};
pub use listings::listed;
pub use loading::{optional_file, required_file, required_size};
pub use making::{file_of, makes};
pub use refusing::{Refusal, refuse};
pub use reply::Reply;
pub use selecting::wrong_row;
pub use texts::{fault, limit};
pub use verdict::Verdict;
