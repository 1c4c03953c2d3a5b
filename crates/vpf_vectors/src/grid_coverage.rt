//! The grid of n by n cells as a coverage: what its rows say, and that it is well formed.

pub mod laws;
