//! References across the tiles of a coverage: the cells that differ in what tiles share, the copies of a dart in them, and what disagrees first
//! in the topology of a coverage (MIL-STD-2407, 5.2.3, cross-tile topology).
#![tactic(auto)]

mod carried;
mod carrying;
mod checking;
mod homes;
mod inhabited;
pub mod laws;
mod numbered;
mod rounds;
mod tables;
mod tiles;

pub use carried::{check_carried, first_tile};
pub use carrying::{Difference, first_difference};
pub use checking::{Checked, check_coverage};
pub use homes::check_homes;
pub use inhabited::check_inhabited;
pub use rounds::check_rounds;
pub use vpf_follow as follow;
