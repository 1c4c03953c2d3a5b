//! What cutting a coverage into tiles reads of the coverage itself: its files, which are untiled, and its plan, which names a tile for each
//! face (MIL-STD-2407, 5.2.2, primitives, and 5.2.3, tiled coverages).

mod columns;
pub mod laws;
mod loading;
mod naming;
mod untiled;

pub use loading::{load_plan, open_plan};
pub use naming::{NamedTiles, named_tiles};
pub use untiled::load_untiled;
