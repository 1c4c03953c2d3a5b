//! Why a coverage isn't cut into tiles by a plan.

use thiserror::Error;

/// Why a coverage isn't cut into tiles by a plan. Faces, edges, entity nodes and tiles are numbered from 1; face 1 is the universe, which has
/// no tile.
#[derive(Clone, Copy, Debug, PartialEq, Eq, Error)]
pub enum Refusal {
    /// The plan has no row for this face.
    #[error("the plan has no tile for face {face}")]
    NoPlan {
        /// The face.
        face: u32,
    },
    /// The plan names no tile for this face, but another number.
    #[error("the plan puts face {face} into tile {tile}, which is none")]
    UnknownTile {
        /// The face.
        face: u32,
        /// The number, as it stands in the plan.
        tile: i32,
    },
    /// This edge has the universe on both sides.
    #[error("edge {edge} has the universe on both sides")]
    EdgeOutside {
        /// The edge.
        edge: u32,
    },
    /// This entity node lies in the universe.
    #[error("entity node {node} lies in the universe")]
    EntityOutside {
        /// The entity node.
        node: u32,
    },
}
