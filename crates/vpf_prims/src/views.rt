//! The tables of a tile, opened, and the columns that are known in them.

use crate::edges::EdgeColumns;
use crate::placing::RoleColumn;
use crate::rows::EdgeRow;
use vpf_table::TableView;

/// The primitive tables of a tile, or of an untiled coverage, whatever their rows say (MIL-STD-2407, 5.2.2, primitives).
#[derive(Drop)]
pub struct PrimitiveViews<'a> {
    /// Edges.
    pub edg: TableView<'a>,
    /// Faces.
    pub fac: TableView<'a>,
    /// Rings.
    pub rng: TableView<'a>,
    /// Connected nodes.
    pub cnd: TableView<'a>,
    /// Entity nodes, where they have a table.
    pub end: Option<TableView<'a>>,
}

/// The columns of those tables that refer to primitives, and what rows say where that is kept.
#[derive(Drop)]
pub struct TileColumns<'a> {
    /// Those of edges.
    pub edges: EdgeColumns<'a>,
    /// What the rows of edges say, in their order, where that is kept: 148 bytes an edge.
    pub edge_rows: Option<Vec<EdgeRow>>,
    /// The first rings of faces.
    pub ring_ptr: RoleColumn<'a>,
    /// The faces of rings.
    pub face_id: RoleColumn<'a>,
    /// The edges where the walks of rings start.
    pub start_edge: RoleColumn<'a>,
    /// An edge at each connected node.
    pub first_edge: RoleColumn<'a>,
    /// The faces that entity nodes lie in, where these have a table.
    pub containing_face: Option<RoleColumn<'a>>,
}
