//! The law that the coverage of the grid of n by n cells agrees: its tables have the columns of a coverage, and their rows agree.

pub mod laws;
