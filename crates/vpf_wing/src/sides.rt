//! Loops, and edges with one face on both sides.

ghost use Rattle.std.specs.Prelude.{◌≡◌, length};
ghost use Rattle.vpf_findings.specs.Firsts.{Finds, first_of_rows};
ghost use Rattle.vpf_prims.specs.Edges.{IsEdge};
ghost use Rattle.vpf_prims.specs.Lists.{kth};
ghost use Rattle.vpf_prims.specs.Numbering.{IsRowOf};
ghost use Rattle.vpf_prims.specs.Primitives.{absent_edge, own_edge, own_edges};
ghost use Rattle.vpf_prims.specs.Reading.{primitives_of};
ghost use Rattle.vpf_wing.specs.Nexts.{edge_at};
ghost use Rattle.vpf_wing.specs.CycleLines.{loop_line, loops_finding, sides_line};

use crate::places::{Cycles, place_seen};
use crate::tile_edges::own_edge;
use vpf_findings::{Finding, Seen, SeenWord};
use vpf_prims::{Citation, Tile};

/// The loop `e` has two different faces, where it is a loop.
fn check_loop<'a>(tile: &Tile<'a>, number: u32, e: u32) -> Result<(), Finding<'a>>
    requires { IsRowOf (length (primitives_of tile.now.tables).edges) e }
    ensures { Finds result (loop_line number tile.now e (own_edge (kth (primitives_of tile.now.tables).edges e absent_edge))) }
{
    let edge = own_edge(tile, e);
    if edge.start_node != edge.end_node || edge.right_face != edge.left_face {
        return Ok(());
    }
    let found = tile.seen(Citation::LeftFace, e);
    let wanted = Seen::Word(SeenWord::Other);
    Err(tile.finding(number, Citation::LeftFace, 2, e, found, wanted))
}

/// Each loop of the tile of this number has two different faces: an edge that begins and ends at one node. The first that hasn't is the
/// finding. The rows of edges are passed once, and no memory is taken.
#[tactic(auto, using(crate::proofs::RowLemmas::end_row))]
pub fn check_loops<'a>(tile: &Tile<'a>, number: u32) -> Result<(), Finding<'a>>
    ensures { Finds result (loops_finding number tile.now) }
{
    for k in 0..tile.edges() {
        check_loop(tile, number, k + 1)?;
    }
    Ok(())
}

/// Both darts of edge `e` are on one cycle, where they have one face.
fn check_sides_of<'a>(
    tile: &Tile<'a>,
    number: u32,
    cycles: &Cycles,
    e: u32,
) -> Result<(), Finding<'a>>
    requires { IsEdge (length cycles.now) e }
    ensures { Finds result (sides_line number tile.now cycles.now e (edge_at cycles.now e)) }
{
    let edge = cycles.edges()[e as usize - 1];
    let plus = cycles.least(2 * (e - 1));
    let minus = cycles.least(2 * (e - 1) + 1);
    if edge.right_face != edge.left_face || plus == minus {
        return Ok(());
    }
    let found = place_seen(number, minus);
    let wanted = place_seen(number, plus);
    Err(tile.finding(number, Citation::LeftFace, 3, e, found, wanted))
}

/// Both darts of each edge that has one face on both sides are on one cycle.
#[tactic(auto, using(crate::proofs::RowLemmas::pass_row, crate::proofs::RowLemmas::stop_row, crate::proofs::RowLemmas::end_row))]
pub fn check_sides<'a>(tile: &Tile<'a>, number: u32, cycles: &Cycles) -> Result<(), Finding<'a>>
    ensures { Finds result (first_of_rows (sides_line number tile.now cycles.now) 1 cycles.now) }
{
    let edges = cycles.edges().len() as u32;
    for k in 0..edges {
        check_sides_of(tile, number, cycles, k + 1)?;
    }
    Ok(())
}
