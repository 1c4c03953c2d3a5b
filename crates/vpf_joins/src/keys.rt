//! The rows of tables, over all tiles, that a key joins (MIL-STD-2407, feature class schema table).

mod index;
mod keyed;
mod ordering;

pub use index::KeyIndex;
pub use keyed::{KeyedRow, RowAt, put_keys};
