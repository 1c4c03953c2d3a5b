//! The columns that refer to primitives, in which later rules find what disagrees.

use vpf_table::findings::TableName;

/// A column of the primitive tables that refers to primitives, or marks them.
#[derive(Clone, Copy, Debug, PartialEq, Eq)]
pub enum Citation {
    /// The node where an edge begins, in `edg`.
    StartNode,
    /// The node where an edge ends, in `edg`.
    EndNode,
    /// The face on an edge's right, in `edg`.
    RightFace,
    /// The face on an edge's left, in `edg`.
    LeftFace,
    /// The wing about an edge's end node, in `edg`.
    RightEdge,
    /// The wing about an edge's start node, in `edg`.
    LeftEdge,
    /// The mark of lines between tiles, in `edg`.
    TileLine,
    /// The first ring of a face, in `fac`.
    RingPtr,
    /// The face of a ring, in `rng`.
    FaceId,
    /// The edge where a ring's walk starts, in `rng`.
    StartEdge,
    /// An edge at a node, in `cnd`.
    FirstEdge,
}

impl Citation {
    ghost use Rattle.std.specs.Prelude.{◌≡◌};
    ghost use Rattle.vpf_prims.specs.Tables.{cited_table};

    /// The table that has the column.
    pub(crate) fn table(self) -> TableName
        ensures { result ≡ cited_table self }
    {
        match self {
            Citation::RingPtr => TableName::Fac,
            Citation::FaceId | Citation::StartEdge => TableName::Rng,
            Citation::FirstEdge => TableName::Cnd,
            _ => TableName::Edg,
        }
    }
}
