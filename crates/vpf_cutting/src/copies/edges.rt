//! What stands beside an edge and at its ends.

/// The tiles on the two sides of an edge, which are those of its faces; 0 where there is none, as at the universe.
#[derive(Clone, Copy, Debug, PartialEq, Eq)]
pub struct EdgeTiles {
    /// The tile on its left.
    pub left: u32,
    /// The tile on its right.
    pub right: u32,
}

/// The nodes of an edge, by their numbers.
#[derive(Clone, Copy, Debug, PartialEq, Eq)]
pub struct EdgeNodes {
    /// The node where it begins.
    pub start: u32,
    /// The node where it ends.
    pub end: u32,
}
