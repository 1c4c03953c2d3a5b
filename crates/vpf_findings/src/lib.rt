//! What disagrees in the tables of a library: the first place, what stands there and what ought to, and its printed line; and
//! cells and bytes of a file as they are printed (`text`).
#![tactic(auto)]

mod errors;
mod finding;
mod own;
mod places;
mod printing;
pub mod text;

pub use errors::FindError;
pub use finding::{ColumnAt, Finding, Seen, SeenWord, TableName};
pub use own::OwnFinding;
pub use places::FirstPlaces;
pub use printing::put_line;
pub use vpf_source as source;
pub use vpf_value as value;
