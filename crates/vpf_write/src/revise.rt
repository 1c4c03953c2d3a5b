//! Tables that are written like other tables: the same headers with new kinds in some columns, and rows with new cells in some
//! columns, as where a tile takes the rows of a coverage with numbers of its own.

mod changes;
mod filling;
mod headers;
pub mod laws;
mod revising;

pub use changes::{NewCell, NewKind};
pub use headers::with_kinds;
pub use revising::RevisedTable;
