//! The edges of a tile.

ghost use Rattle.std.specs.Prelude.{◌≡◌, length};
ghost use Rattle.vpf_value.specs.Values.{view};
ghost use Rattle.vpf_prims.specs.Lists.{kth};
ghost use Rattle.vpf_prims.specs.Numbering.{IsRowOf};
ghost use Rattle.vpf_prims.specs.Primitives.{absent_edge, own_edge, own_edges};
ghost use Rattle.vpf_prims.specs.Reading.{primitives_of};
ghost use Rattle.vpf_wing.specs.CycleLines.{wing_cell};
ghost use Rattle.vpf_wing.specs.Nexts.{next_dart};

use crate::edges::WingedEdges;
use crate::following::next_dart;
use std::marker::Model;
use vpf_darts::Dart;
use vpf_findings::Seen;
use vpf_prims::{Citation, Edge, Tile};
use vpf_value::Cell;

/// An edge of a tile by its own numbers.
#[tactic(auto)]
pub fn own_edge(tile: &Tile<'_>, e: u32) -> Edge
    requires { IsRowOf (length (primitives_of tile.now.tables).edges) e }
    ensures { result ≡ own_edge (kth (primitives_of tile.now.tables).edges e absent_edge) }
{
    Edge::from(tile.edge(e))
}

/// The cell of a dart's wing.
fn wing_cell<'a>(tile: &Tile<'a>, dart: Dart) -> Cell<'a>
    requires { IsRowOf (length tile.now.tables.edg.rows) dart.edge }
    ensures { view result ≡ wing_cell tile.now.tables dart }
{
    let citation = if dart.minus {
        Citation::LeftEdge
    } else {
        Citation::RightEdge
    };
    match tile.seen(citation, dart.edge) {
        Seen::Cell(_, cell) => cell,
        _ => unreachable!(),
    }
}

/// The edges of a tile, of which each is read from its row when it is asked for.
#[derive(Drop)]
struct RowEdges<'t, 'a> {
    tile: &'t Tile<'a>,
}

impl<'t, 'a> WingedEdges<'a> for RowEdges<'t, 'a> {
    ghost use Rattle.vpf_prims.specs.Primitives.{own_edges};
    ghost use Rattle.vpf_prims.specs.Reading.{primitives_of};
    ghost use Rattle.vpf_wing.specs.CycleLines.{wing_cell};

    ghost edges = { λ r. own_edges (primitives_of r.tile.now.tables) };

    ghost wing_value = { λ r. wing_cell r.tile.now.tables };

    fn len(&self) -> u32 {
        self.tile.edges()
    }

    #[tactic(auto, using(crate::proofs::RangeLemmas::edge_of_row))]
    fn edge(&self, e: u32) -> Edge {
        own_edge(self.tile, e)
    }

    fn wing_cell(&self, dart: Dart) -> Cell<'a> {
        wing_cell(self.tile, dart)
    }
}

/// The next of a dart in its tile: the one dart of its wing edge that begins where it ends and has its face. It reads the rows of the
/// two edges, and takes no memory.
pub fn next_local(tile: &Tile<'_>, dart: Dart) -> Option<Dart>
    requires { IsRowOf (length (primitives_of tile.now.tables).edges) dart.edge }
    ensures { result ≡ next_dart (own_edges (primitives_of tile.now.tables)) dart }
{
    tile.names_its_own();
    next_dart(&RowEdges { tile }, dart)
}

/// A tile, and its edges in one list.
#[derive(Drop)]
pub struct TileEdges<'t, 'a> {
    tile: &'t Tile<'a>,
    edges: &'t [Edge],
}

impl<'t, 'a> Model for TileEdges<'t, 'a> {
    ghost use Rattle.std.specs.Prelude.{◌≡◌};
    ghost use Rattle.vpf_prims.specs.Primitives.{own_edges};
    ghost use Rattle.vpf_prims.specs.Reading.{primitives_of};
    ghost use Rattle.vpf_prims.specs.Tables.{TileTables};

    ghost Value = { TileTables };

    ghost view = { λ t. t.tile.now };

    ghost invariant = { λ t. t.edges.now ≡ own_edges (primitives_of t.tile.now.tables) };
}

impl<'t, 'a> TileEdges<'t, 'a> {
    ghost use Rattle.std.specs.Prelude.{◌≡◌};
    ghost use Rattle.vpf_prims.specs.Primitives.{own_edges};
    ghost use Rattle.vpf_prims.specs.Reading.{primitives_of};

    /// A tile with its edges.
    pub fn new(tile: &'t Tile<'a>, edges: &'t [Edge]) -> TileEdges<'t, 'a>
        requires { edges.now ≡ own_edges (primitives_of tile.now.tables) }
        ensures { result ≡ tile.now }
    {
        TileEdges { tile, edges }
    }
}

impl<'t, 'a> WingedEdges<'a> for TileEdges<'t, 'a> {
    ghost use Rattle.vpf_prims.specs.Primitives.{own_edges};
    ghost use Rattle.vpf_prims.specs.Reading.{primitives_of};
    ghost use Rattle.vpf_wing.specs.CycleLines.{wing_cell};

    ghost edges = { λ t. own_edges (primitives_of t.tables) };

    ghost wing_value = { λ t. wing_cell t.tables };

    fn len(&self) -> u32 {
        self.edges.len() as u32
    }

    fn edge(&self, e: u32) -> Edge {
        self.edges[e as usize - 1]
    }

    fn wing_cell(&self, dart: Dart) -> Cell<'a> {
        wing_cell(self.tile, dart)
    }
}
