//! A tile of a coverage, or an untiled coverage, seen in its files.

ghost use Rattle.std.specs.Prelude.{◌≡◌, ◌≤◌, Some};
ghost use Rattle.vpf_prims.specs.Tables.{files_of_grid};

use crate::citing::Citation;
use crate::edge_lists::{numbers_in, numbers_of, rows_of};
use crate::edges::EdgeColumns;
use crate::placing::{RoleColumn, TableAt};
use crate::rows::{Edge, EdgeRow};
use crate::seeking::{cell_in_row, number_in_row, row_of};
use crate::views::{PrimitiveViews, TileColumns};
use std::alloc::{AllocError, Global};
use std::marker::Model;
use vpf_table::TableView;
use vpf_table::findings::{Finding, Seen, TableName};

/// The primitive tables of a tile, or of an untiled coverage, whose columns are there, and whose rows name rows of the tile (MIL-STD-2407,
/// 5.2.2, primitives). Rows stay in their files, but for what those of edges say, which a tile can keep. Numbers of primitives count from 1.
/// Contracts see it as the tables, and where the first of their files stands among those that were read.
#[derive(Drop)]
pub struct Tile<'a> {
    first: u32,
    columns: TileColumns<'a>,
    views: PrimitiveViews<'a>,
}

impl<'a> Model for Tile<'a> {
    ghost use Rattle.vpf_prims.specs.Tables.{TileTables};

    ghost Value = { TileTables };

    ghost use Rattle.vpf_prims.specs.Inner.Tiles.{tables_of, IsTile};

    ghost view = { tables_of };

    ghost invariant = { IsTile };
}

/// How many files a table is: its own, and its index where its rows vary.
pub fn files_of(table: &TableView<'_>) -> u32
    ensures value { result ≡ files_of_grid table.now }
    ensures few { result ≤ 2 }
{
    if table.header().varies() { 2 } else { 1 }
}

/// The same columns, where what the rows of edges say is kept.
fn with_rows<'a>(columns: TileColumns<'a>, rows: Vec<EdgeRow>) -> TileColumns<'a>
    ensures { result ≡ record {
      edges = columns.entry.edges;
      edge_rows = Some rows;
      ring_ptr = columns.entry.ring_ptr;
      face_id = columns.entry.face_id;
      start_edge = columns.entry.start_edge;
      first_edge = columns.entry.first_edge;
      containing_face = columns.entry.containing_face;
    } }
{
    TileColumns {
        edges: columns.edges,
        edge_rows: Some(rows),
        ring_ptr: columns.ring_ptr,
        face_id: columns.face_id,
        start_edge: columns.start_edge,
        first_edge: columns.first_edge,
        containing_face: columns.containing_face,
    }
}

impl<'a> Tile<'a> {
    ghost use Rattle.std.specs.Prelude.{◌≡◌, ◌<◌, ◌≤◌, ◌+◌, ◌^◌, [], IfOk, None, Some, length, option_map};
    ghost use Rattle.vpf_value.specs.Values.{view};
    ghost use Rattle.vpf_table.specs.Findings.{disagreement_of, sight_of};
    ghost use Rattle.vpf_prims.specs.Columns.{IsWithin, role_at};
    ghost use Rattle.vpf_prims.specs.Lists.{kth};
    ghost use Rattle.vpf_prims.specs.Numbering.{IsRowOf};
    ghost use Rattle.vpf_prims.specs.Primitives.{absent_edge, absent_entity, absent_face, absent_node, absent_ring, edge_row_of, entities_in, own_edges};
    ghost use Rattle.vpf_prims.specs.References.{cell_at, id_of};
    ghost use Rattle.vpf_prims.specs.Edges.{edge_columns};
    ghost use Rattle.vpf_prims.specs.Reading.{primitives_of};
    ghost use Rattle.vpf_prims.specs.Tables.{at_citation, cited_cell, cited_column, cited_grid, edg_at, fac_file, rng_file};
    ghost use Rattle.vpf_prims.specs.Tables.{cnd_file, end_file, file_named, file_where, table_at, table_named};
    ghost use Rattle.vpf_prims.specs.Inner.Owning.{NamesItsOwn};
    ghost use Rattle.vpf_prims.specs.Inner.Views.{AreColumnsOf, tables_in_view};

    /// The tile of these tables and their columns, the first of whose files stands at this place among those that were read. It keeps what
    /// the rows of edges say where the columns do.
    pub fn new(first: u32, views: PrimitiveViews<'a>, columns: TileColumns<'a>) -> Tile<'a>
        requires columns { AreColumnsOf (tables_in_view views) columns }
        requires owns { NamesItsOwn (primitives_of (tables_in_view views)) }
        requires few { first < 2 ^ 31 }
        ensures { result ≡ record { first = first; tables = tables_in_view views.entry } }
    {
        let at = TableAt {
            tile: 0,
            table: TableName::Edg,
            file: first,
        };
        let columns = TileColumns {
            edges: columns.edges.in_table(at),
            ..columns
        };
        Tile {
            first,
            columns,
            views,
        }
    }

    /// The same tile, which keeps what its rows of edges say, where they are asked for again and again: they are passed once. Takes memory
    /// for each.
    pub fn keeping_edges(self, alloc: Global) -> Result<Tile<'a>, AllocError>
        ensures { IfOk result (λ tile. tile ≡ self.entry) }
    {
        let rows = rows_of(alloc, &self.columns.edges, &self.views.edg)?;
        Ok(Tile {
            first: self.first,
            columns: with_rows(self.columns, rows),
            views: self.views,
        })
    }

    /// The number of edges.
    pub fn edges(&self) -> u32
        ensures value { result ≡ length (primitives_of self.now.tables).edges }
        ensures few { result < 2 ^ 24 }
    {
        self.views.edg.len()
    }

    /// The number of faces, face 1, the universe, included.
    pub fn faces(&self) -> u32
        ensures value { result ≡ length (primitives_of self.now.tables).faces }
        ensures few { result < 2 ^ 24 }
    {
        self.views.fac.len()
    }

    /// The number of rings.
    pub fn rings(&self) -> u32
        ensures value { result ≡ length (primitives_of self.now.tables).rings }
        ensures few { result < 2 ^ 24 }
    {
        self.views.rng.len()
    }

    /// The number of connected nodes.
    pub fn nodes(&self) -> u32
        ensures value { result ≡ length (primitives_of self.now.tables).nodes }
        ensures few { result < 2 ^ 24 }
    {
        self.views.cnd.len()
    }

    /// The number of entity nodes: 0 where they have no table.
    pub fn entities(&self) -> u32
        ensures value { result ≡ length (entities_in (Some (primitives_of self.now.tables))) }
        ensures few { result < 2 ^ 24 }
    {
        match &self.views.end {
            Some(end) => end.len(),
            None => 0,
        }
    }

    /// What is so of the rows of each tile: what they name in it is there.
    pub fn names_its_own(&self)
        ensures { NamesItsOwn (primitives_of self.now.tables) }
    {
        let _first = self.first;
    }

    /// The row of an edge.
    pub fn edge(&self, e: u32) -> EdgeRow
        requires { IsRowOf (length (primitives_of self.now.tables).edges) e }
        ensures { result ≡ edge_row_of (kth (primitives_of self.now.tables).edges e absent_edge) }
    {
        match &self.columns.edge_rows {
            Some(rows) => rows[(e - 1) as usize],
            None => self.columns.edges.row(&row_of(&self.views.edg, e)),
        }
    }

    /// The first ring of a face, 0 where face 1 has none.
    pub fn ring_ptr(&self, f: u32) -> u32
        requires { IsRowOf (length (primitives_of self.now.tables).faces) f }
        ensures { result ≡ id_of (kth (primitives_of self.now.tables).faces f absent_face).ring_ptr }
    {
        number_in_row(&self.views.fac, &self.columns.ring_ptr, f)
    }

    /// The face of a ring, and the edge where its walk starts.
    pub fn ring(&self, r: u32) -> (u32, u32)
        requires { IsRowOf (length (primitives_of self.now.tables).rings) r }
        ensures face { result.0 ≡ id_of (kth (primitives_of self.now.tables).rings r absent_ring).face }
        ensures edge { result.1 ≡ id_of (kth (primitives_of self.now.tables).rings r absent_ring).start_edge }
    {
        let face = number_in_row(&self.views.rng, &self.columns.face_id, r);
        let edge = number_in_row(&self.views.rng, &self.columns.start_edge, r);
        (face, edge)
    }

    /// An edge at a node.
    pub fn first_edge(&self, n: u32) -> u32
        requires { IsRowOf (length (primitives_of self.now.tables).nodes) n }
        ensures { result ≡ id_of (kth (primitives_of self.now.tables).nodes n absent_node).first_edge }
    {
        number_in_row(&self.views.cnd, &self.columns.first_edge, n)
    }

    /// The face that an entity node lies in.
    pub fn containing_face(&self, n: u32) -> u32
        requires { IsRowOf (length (entities_in (Some (primitives_of self.now.tables)))) n }
        ensures { result ≡ id_of (kth (entities_in (Some (primitives_of self.now.tables))) n absent_entity).containing_face }
    {
        match (&self.views.end, &self.columns.containing_face) {
            (Some(end), Some(column)) => number_in_row(end, column, n),
            _ => 0,
        }
    }

    /// The edges by the numbers of their nodes, faces and wings in the tile. The rows are passed once, and not where the tile keeps what
    /// they say.
    pub fn own_edges(&self, alloc: Global) -> Result<Vec<Edge>, AllocError>
        ensures { IfOk result (λ edges. edges.items ≡ own_edges (primitives_of self.now.tables)) }
    {
        match &self.columns.edge_rows {
            Some(rows) => numbers_in(alloc, rows),
            None => numbers_of(alloc, &self.columns.edges, &self.views.edg),
        }
    }

    /// The columns of edges, whose findings are in the tile of this number.
    pub fn edge_columns(&self, number: u32) -> EdgeColumns<'a>
        ensures { result ≡ edge_columns (edg_at number self.now) self.now.tables.edg.head.columns }
    {
        self.columns
            .edges
            .in_table(self.table_at(number, TableName::Edg))
    }

    /// The table of this name, or nothing where the tile has no such table.
    pub fn table(&self, name: TableName) -> Option<&TableView<'a>>
        ensures { option_map (λ t. t.now) result ≡ table_named self.now name }
    {
        match name {
            TableName::Edg => Some(&self.views.edg),
            TableName::Fac => Some(&self.views.fac),
            TableName::Rng => Some(&self.views.rng),
            TableName::Cnd => Some(&self.views.cnd),
            TableName::End => self.views.end.as_ref(),
            _ => None,
        }
    }

    /// Where the file of faces stands.
    fn fac_file(&self) -> u32
        ensures value { result ≡ fac_file self.now }
        ensures few { result < 2 ^ 31 + 2 }
    {
        self.first + files_of(&self.views.edg)
    }

    /// Where the file of rings stands.
    fn rng_file(&self) -> u32
        ensures value { result ≡ rng_file self.now }
        ensures few { result < 2 ^ 31 + 4 }
    {
        self.fac_file() + files_of(&self.views.fac)
    }

    /// Where the file of connected nodes stands.
    fn cnd_file(&self) -> u32
        ensures value { result ≡ cnd_file self.now }
        ensures few { result < 2 ^ 31 + 6 }
    {
        self.rng_file() + files_of(&self.views.rng)
    }

    /// Where the file of entity nodes stands, or would.
    fn end_file(&self) -> u32
        ensures { result ≡ end_file self.now }
    {
        self.cnd_file() + files_of(&self.views.cnd)
    }

    /// Where the file of the table of this name stands, whether the tile has it or not: 0 for a name that no tile has.
    fn file_named(&self, name: TableName) -> u32
        ensures { result ≡ file_named self.now name }
    {
        match name {
            TableName::Edg => self.first,
            TableName::Fac => self.fac_file(),
            TableName::Rng => self.rng_file(),
            TableName::Cnd => self.cnd_file(),
            TableName::End => self.end_file(),
            _ => 0,
        }
    }

    /// Where the file of the table of this name stands among those that were read, from 0. Nothing where the tile has no such table.
    pub fn file(&self, name: TableName) -> Option<u32>
        ensures { result ≡ file_where (table_named self.now name) (file_named self.now name) }
    {
        match self.table(name) {
            Some(_) => Some(self.file_named(name)),
            None => None,
        }
    }

    /// The table of this name, where its findings are in the tile of this number.
    fn table_at(&self, number: u32, name: TableName) -> TableAt
        ensures { result ≡ table_at number self.now name }
    {
        TableAt {
            tile: number,
            table: name,
            file: self.file_named(name),
        }
    }

    /// The table that has a column of references.
    fn cited_table(&self, citation: Citation) -> &TableView<'a>
        ensures { result.now ≡ cited_grid self.now.tables citation }
    {
        match citation {
            Citation::RingPtr => &self.views.fac,
            Citation::FaceId | Citation::StartEdge => &self.views.rng,
            Citation::FirstEdge => &self.views.cnd,
            _ => &self.views.edg,
        }
    }

    /// A column of references.
    fn cited_column(&self, citation: Citation) -> RoleColumn<'a>
        ensures column { role_at result ≡ cited_column self.now.tables citation }
        ensures within { IsWithin (length (cited_grid self.now.tables citation).head.columns) (role_at result) }
    {
        match citation {
            Citation::StartNode => self.columns.edges.start_node(),
            Citation::EndNode => self.columns.edges.end_node(),
            Citation::RightFace => self.columns.edges.right_face(),
            Citation::LeftFace => self.columns.edges.left_face(),
            Citation::RightEdge => self.columns.edges.right_edge(),
            Citation::LeftEdge => self.columns.edges.left_edge(),
            Citation::TileLine => self.columns.edges.tile_line(),
            Citation::RingPtr => self.columns.ring_ptr,
            Citation::FaceId => self.columns.face_id,
            Citation::StartEdge => self.columns.start_edge,
            Citation::FirstEdge => self.columns.first_edge,
        }
    }

    /// The cell of row `k` in a column, as it is shown.
    pub fn seen(&self, citation: Citation, k: u32) -> Seen<'a>
        requires { IsRowOf (length (cited_grid self.now.tables citation).rows) k }
        ensures { sight_of result ≡ cited_cell self.now.tables citation k }
    {
        let column = self.cited_column(citation);
        let cell = cell_in_row(self.cited_table(citation), &column, k);
        Seen::Cell(column.kind, cell)
    }

    /// A finding in a column, in a row or, at row 0, in the table as a whole, for the tile of this number.
    pub fn finding(
        &self,
        number: u32,
        citation: Citation,
        rule: u8,
        row: u32,
        found: Seen<'a>,
        wanted: Seen<'a>,
    ) -> Finding<'a>
        ensures { disagreement_of result ≡ at_citation number self.now citation rule row (sight_of found.entry) (sight_of wanted.entry) }
    {
        let at = self.table_at(number, citation.table());
        at.finding(rule, row, self.cited_column(citation).name, found, wanted)
    }
}
