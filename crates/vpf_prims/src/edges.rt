//! The columns and the rows of an edge table.

ghost use Rattle.std.specs.Prelude.{◌≡◌, ◌<◌, ◌^◌, IfOk, length, map};
ghost use Rattle.vpf_table.specs.Firsts.{Finds, Tells};
ghost use Rattle.vpf_prims.specs.Roles.{edge_roles};
ghost use Rattle.vpf_prims.specs.Columns.{columns_finding, role_at};
ghost use Rattle.vpf_prims.specs.Edges.{AreWithin, moved_to, edge_columns, edge_lines, edge_of, edge_row, edges_finding, HaveWings};

use crate::laws::rows_have_wings;
use crate::lines::{check_id, number_from};
use crate::placing::{RoleColumn, TableAt, place_roles};
use crate::reading::{is_line, next_cell, next_reference};
use crate::roles::edge_roles;
use crate::rows::{Edge, EdgeRow};
use std::alloc::Global;
use std::marker::Model;
use vpf_table::findings::{FindError, Finding};
use vpf_table::head::Header;
use vpf_table::{RowView, TableView};

/// The columns of an edge table that have a role.
#[derive(Drop)]
pub struct EdgeColumns<'a> {
    at: TableAt,
    id: RoleColumn<'a>,
    start_node: RoleColumn<'a>,
    end_node: RoleColumn<'a>,
    right_face: RoleColumn<'a>,
    left_face: RoleColumn<'a>,
    right_edge: RoleColumn<'a>,
    left_edge: RoleColumn<'a>,
    tile_line: RoleColumn<'a>,
}

impl<'a> Model for EdgeColumns<'a> {
    ghost use Rattle.vpf_prims.specs.Columns.{role_at};
    ghost use Rattle.vpf_prims.specs.Edges.{EdgesAt};

    ghost Value = { EdgesAt };

    ghost view = { λ c. record {
      at = c.at;
      id = role_at c.id;
      start_node = role_at c.start_node;
      end_node = role_at c.end_node;
      right_face = role_at c.right_face;
      left_face = role_at c.left_face;
      right_edge = role_at c.right_edge;
      left_edge = role_at c.left_edge;
      tile_line = role_at c.tile_line;
    } };
}

/// The largest numbers of nodes, faces and edges that rows may name.
#[derive(Clone, Copy, Debug, PartialEq, Eq)]
pub struct Ranges {
    /// The last node.
    pub nodes: u32,
    /// The last face.
    pub faces: u32,
    /// The last edge.
    pub edges: u32,
}

impl<'a> EdgeColumns<'a> {
    /// The columns in a header, or the first finding on them.
    pub fn place(
        alloc: Global,
        at: TableAt,
        header: &Header<'a>,
    ) -> Result<EdgeColumns<'a>, FindError<'a>>
        ensures first { Tells result (columns_finding at header.now.columns edge_roles) }
        ensures columns { IfOk result (λ columns. columns ≡ edge_columns at header.now.columns) }
        ensures within { IfOk result (AreWithin (length header.now.columns)) }
    {
        let columns = place_roles(alloc, at, header, edge_roles())?;
        let [
            id,
            start_node,
            end_node,
            right_face,
            left_face,
            right_edge,
            left_edge,
            tile_line,
        ] = columns.as_slice()
        else {
            unreachable!()
        };
        Ok(EdgeColumns {
            at,
            id: *id,
            start_node: *start_node,
            end_node: *end_node,
            right_face: *right_face,
            left_face: *left_face,
            right_edge: *right_edge,
            left_edge: *left_edge,
            tile_line: *tile_line,
        })
    }

    /// The table.
    pub fn at(&self) -> TableAt
        ensures { result ≡ self.now.at }
    {
        self.at
    }

    /// The column of ids.
    pub fn id(&self) -> RoleColumn<'a>
        ensures { role_at result ≡ self.now.id }
    {
        self.id
    }

    /// The same columns, whose findings are in another table.
    pub(crate) fn in_table(&self, at: TableAt) -> EdgeColumns<'a>
        ensures { result ≡ moved_to at self.now }
    {
        EdgeColumns { at, ..*self }
    }

    /// The column of the nodes where edges begin.
    pub fn start_node(&self) -> RoleColumn<'a>
        ensures { role_at result ≡ self.now.start_node }
    {
        self.start_node
    }

    /// The column of the nodes where edges end.
    pub fn end_node(&self) -> RoleColumn<'a>
        ensures { role_at result ≡ self.now.end_node }
    {
        self.end_node
    }

    /// The column of the faces on the right.
    pub fn right_face(&self) -> RoleColumn<'a>
        ensures { role_at result ≡ self.now.right_face }
    {
        self.right_face
    }

    /// The column of the faces on the left.
    pub fn left_face(&self) -> RoleColumn<'a>
        ensures { role_at result ≡ self.now.left_face }
    {
        self.left_face
    }

    /// The column of marks of lines between tiles.
    pub fn tile_line(&self) -> RoleColumn<'a>
        ensures { role_at result ≡ self.now.tile_line }
    {
        self.tile_line
    }

    /// The column of the wings about end nodes.
    pub fn right_edge(&self) -> RoleColumn<'a>
        ensures { role_at result ≡ self.now.right_edge }
    {
        self.right_edge
    }

    /// The column of the wings about start nodes.
    pub fn left_edge(&self) -> RoleColumn<'a>
        ensures { role_at result ≡ self.now.left_edge }
    {
        self.left_edge
    }

    /// What a row says.
    pub fn row(&self, row: &RowView<'_, '_>) -> EdgeRow
        requires { AreWithin (length row.now) self.now }
        ensures { result ≡ edge_row self.now row.now }
    {
        let mut walk = row.walk();
        EdgeRow {
            start_node: next_reference(&mut walk, &self.start_node),
            end_node: next_reference(&mut walk, &self.end_node),
            right_face: next_reference(&mut walk, &self.right_face),
            left_face: next_reference(&mut walk, &self.left_face),
            right_edge: next_reference(&mut walk, &self.right_edge),
            left_edge: next_reference(&mut walk, &self.left_edge),
            line: is_line(next_cell(&mut walk, &self.tile_line)),
        }
    }

    /// The numbers of a row in its own tile, 0 where one is absent.
    pub(crate) fn numbers(&self, row: &RowView<'_, '_>) -> Edge
        requires { AreWithin (length row.now) self.now }
        ensures { result ≡ edge_of self.now row.now }
    {
        Edge::from(self.row(row))
    }

    /// The numbers of row `k`, where its id is `k` and they are in range, or the first finding.
    fn edge(&self, most: Ranges, k: u32, row: &RowView<'_, 'a>) -> Result<Edge, Finding<'a>>
        requires { AreWithin (length row.now) self.now }
        ensures first { Finds result (edge_lines self.now most k row.now) }
        ensures edge { IfOk result (λ edge. edge ≡ edge_of self.now row.now) }
    {
        let at = self.at;
        check_id(at, k, &self.id, row)?;
        Ok(Edge {
            start_node: number_from(at, 1, most.nodes, k, &self.start_node, row)?,
            end_node: number_from(at, 1, most.nodes, k, &self.end_node, row)?,
            right_face: number_from(at, 1, most.faces, k, &self.right_face, row)?,
            left_face: number_from(at, 1, most.faces, k, &self.left_face, row)?,
            right_edge: number_from(at, 1, most.edges, k, &self.right_edge, row)?,
            left_edge: number_from(at, 1, most.edges, k, &self.left_edge, row)?,
        })
    }
}

/// The edges of a table, in the order of their rows, or the first row whose id isn't its number, or that names what is out of range.
pub fn edges_of<'a>(
    alloc: Global,
    columns: &EdgeColumns<'a>,
    most: Ranges,
    table: &TableView<'a>,
) -> Result<Vec<Edge>, FindError<'a>>
    requires { AreWithin (length table.now.head.columns) columns.now }
    ensures first { Tells result (edges_finding columns.now most table.now.rows) }
    ensures edges { IfOk result (λ edges. edges.items ≡ map (edge_of columns.now) table.now.rows) }
    ensures wings { IfOk result (λ edges. HaveWings most.edges edges.items) }
    ensures few { IfOk result (λ edges. length edges.items < 2 ^ 24) }
{
    let mut edges = Vec::with_capacity(alloc, table.len() as usize)?;
    let mut k = 0;
    for row in table.rows() {
        k += 1;
        edges.push(columns.edge(most, k, &row)?)?;
    }
    rows_have_wings();
    Ok(edges)
}
