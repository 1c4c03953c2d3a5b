//! What a table comes to.

use vpf_triplet::Order;

/// What a table comes to that is read to its end.
#[derive(Clone, Copy, Debug, PartialEq, Eq)]
pub struct Summary {
    /// The order of its numbers.
    pub order: Order,
    /// How many rows it has.
    pub rows: u32,
    /// How many columns it has, those that hold nothing among them.
    pub columns: u32,
}
