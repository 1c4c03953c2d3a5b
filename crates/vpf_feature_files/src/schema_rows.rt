//! The schema table of a coverage, `fcs`: which tables its rows join to which, by which columns, and the feature tables that they name
//! (MIL-STD-2407, 5.2.3, feature classes).

mod columns;
mod items;
mod rows;
mod tables;

pub use columns::SchemaColumns;
pub use items::ItemName;
pub use rows::{SchemaRow, schema_rows};
pub use tables::feature_items;
