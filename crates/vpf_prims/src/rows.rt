//! What a row of edges says.

ghost use Rattle.std.specs.Prelude.{◌≡◌};
ghost use Rattle.vpf_prims.specs.References.{id_of};

use vpf_triplet::Triplet;

/// A row of edges: its nodes, its faces, its wings, and whether it is a line between tiles.
#[derive(Clone, Copy, Debug, PartialEq, Eq)]
pub struct EdgeRow {
    /// The node where it begins.
    pub start_node: Triplet,
    /// The node where it ends.
    pub end_node: Triplet,
    /// The face on its right.
    pub right_face: Triplet,
    /// The face on its left.
    pub left_face: Triplet,
    /// The wing about its end node: the edge that follows it round its right face.
    pub right_edge: Triplet,
    /// The wing about its start node: the edge that follows it, run back, round its left face.
    pub left_edge: Triplet,
    /// Whether it is a line between tiles.
    pub line: bool,
}

/// An edge by the numbers of its nodes, its faces and its wings in its own tile.
#[derive(Clone, Copy, Debug, PartialEq, Eq)]
pub struct Edge {
    /// The node where it begins.
    pub start_node: u32,
    /// The node where it ends.
    pub end_node: u32,
    /// The face on its right.
    pub right_face: u32,
    /// The face on its left.
    pub left_face: u32,
    /// The edge that follows it round its right face.
    pub right_edge: u32,
    /// The edge that follows it, run back, round its left face.
    pub left_edge: u32,
}

/// The number of a reference in its own tile, 0 where it is absent.
pub fn id_of(reference: Triplet) -> u32
    ensures { result ≡ id_of reference }
{
    reference.id.unwrap_or(0)
}

impl From<EdgeRow> for Edge {
    ghost use Rattle.std.specs.Prelude.{◌≡◌};
    ghost use Rattle.vpf_prims.specs.Edges.{own_numbers};

    ghost from_gives = { λ row edge. edge ≡ own_numbers row };

    /// The numbers of a row in its own tile, 0 where a reference is absent.
    fn from(row: EdgeRow) -> Edge {
        Edge {
            start_node: id_of(row.start_node),
            end_node: id_of(row.end_node),
            right_face: id_of(row.right_face),
            left_face: id_of(row.left_face),
            right_edge: id_of(row.right_edge),
            left_edge: id_of(row.left_edge),
        }
    }
}
