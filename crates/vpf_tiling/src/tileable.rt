//! Whether an untiled coverage may be cut into tiles by a plan, and the tile of each face by it (MIL-STD-2407, 5.2.3, tiled coverages).

mod checking;
pub mod laws;
mod planning;
mod refusals;

pub use checking::check_tileable;
pub use planning::planned_tiles;
pub use refusals::Refusal;
