//! The tables of the coverage that the tiles of a library are joined into: the same headers as those of the first tile, with numbers for ids
//! and references, and rows of the tiles' tables with new ones (MIL-STD-2407, 5.2.2, primitives, and 5.2.3, tiled coverages and cross-tile
//! topology).

mod forms;
pub mod laws;
mod limits;
mod numbers;
mod plan;

pub use forms::GluedForms;
pub use limits::overfull;
pub use numbers::EdgeNumbers;
pub use plan::write_plan;
