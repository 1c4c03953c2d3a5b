//! The wings, cycles, rings and nodes of a tile.

ghost use Rattle.std.specs.Prelude.{◌≡◌, IfOk};
ghost use Rattle.vpf_findings.specs.Firsts.{Tells};
ghost use Rattle.vpf_prims.specs.Primitives.{own_edges};
ghost use Rattle.vpf_prims.specs.Reading.{primitives_of};
ghost use Rattle.vpf_wing.specs.CycleLines.{cycles_finding, tile_columns, wing_cell};
ghost use Rattle.vpf_wing.specs.Wings.{wings_finding};

use crate::following::nexts;
use crate::laws::no_finding_where_a_map_is_made;
use crate::nodes::check_nodes;
use crate::places::{Cycles, Darts};
use crate::rings::check_rings;
use crate::sides::check_sides;
use crate::tile_edges::TileEdges;
use std::alloc::Global;
use vpf_findings::FindError;
use vpf_prims::Tile;

/// The darts of a tile, where each has a next of its own. The first wing by which one has none is the finding.
fn darts_of<'a>(alloc: Global, tile: &Tile<'a>, number: u32) -> Result<Darts, FindError<'a>>
    ensures first { Tells result (wings_finding (tile_columns number tile.now) (wing_cell tile.now.tables) (own_edges (primitives_of tile.now.tables))) }
    ensures darts { IfOk result (λ darts. darts ≡ own_edges (primitives_of tile.now.tables)) }
{
    // It has few edges, and what its rows name is there.
    let _count = tile.edges();
    tile.names_its_own();
    no_finding_where_a_map_is_made();
    let edges = tile.own_edges(alloc)?;
    let columns = tile.edge_columns(number);
    let nexts = nexts(alloc, &columns, &TileEdges::new(tile, &edges))?;
    Ok(Darts::new(alloc, edges, nexts)?)
}

/// The wings, cycles, rings and nodes of the tile of this number hold (MIL-STD-2407, 5.2.2, winged-edge topology): each dart has one next dart and no
/// two the same; an edge with one face on both sides has both darts on one cycle; each face names its first ring, each cycle has exactly one
/// ring, of its face, and the rings of a face stand together; each node names an edge at it, and its darts are one turn about it. The first place
/// that disagrees is the finding, in this order. Takes memory for so many numbers a dart, and none for each.
pub fn check_tile<'a>(alloc: Global, tile: &Tile<'a>, number: u32) -> Result<(), FindError<'a>>
    ensures { Tells result (cycles_finding number tile.now) }
{
    let darts = darts_of(alloc, tile, number)?;
    let cycles = Cycles::new(alloc, darts)?;
    check_sides(tile, number, &cycles)?;
    check_rings(alloc, tile, number, &cycles)?;
    check_nodes(alloc, tile, number, &cycles.into_darts())
}
