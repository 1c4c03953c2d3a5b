//! The tables of tiles, as they are made of an untiled coverage, can be written: each value fits its column (MIL-STD-2407, 5.4, VPF table
//! encoding).

pub mod laws;
