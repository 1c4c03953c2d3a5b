//! A checked coverage as one map of its home darts, whatever its tiles, walked dart by dart; these darts in their order, and the listings of
//! its cycles, which are the boundaries of faces, and of its turns, which go round nodes (MIL-STD-2407, 5.2.2, winged-edge topology, and
//! 5.2.3, cross-tile topology).

mod gathering;
mod listing;
mod walking;

pub use gathering::{edges_of, home_darts};
pub use listing::{cycles, turns};
pub use walking::WholeMap;
