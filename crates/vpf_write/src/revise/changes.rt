//! What is new in the columns of a table: kinds, and cells of a row.

use vpf_triplet::Kind;
use vpf_value::Cell;

/// A new kind for a column.
#[derive(Clone, Copy)]
pub struct NewKind {
    /// The position of the column, from 0.
    pub column: usize,
    /// What its cells hold.
    pub kind: Kind,
}

/// A new cell for a column of a row.
#[derive(Clone, Copy)]
pub struct NewCell<'a> {
    /// The position of the column, from 0.
    pub column: usize,
    /// What stands there.
    pub cell: Cell<'a>,
}
