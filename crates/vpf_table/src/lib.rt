//! Tables of a Vector Product Format library: the header and the rows of a file, read where they lie.
#![tactic(auto)]

mod counted;
mod counting;
mod fixed_rows;
mod indexing;
mod iteration;
pub mod laws;
mod limit;
mod placed_header;
mod places_of_rows;
mod row;
mod table_file;
mod view;
mod walking;

pub use counted::Counted;
pub use fixed_rows::FixedRows;
pub use iteration::Rows;
pub use limit::{Bound, Limit};
pub use row::{Cells, RowView, RowWalk};
pub use table_file::TableFile;
pub use view::TableView;
pub use vpf_findings as findings;
pub use vpf_findings::{ColumnAt, FindError, Finding, OwnFinding, Seen, SeenWord, TableName};
pub use vpf_head as head;
