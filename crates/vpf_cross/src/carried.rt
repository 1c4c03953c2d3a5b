//! What nodes that tiles share carry, and what the universe does.

ghost use Rattle.std.specs.Prelude.{◌≡◌, Some, length, option_map};
ghost use Rattle.vpf_findings.specs.Firsts.{Finds};
ghost use Rattle.vpf_prims.specs.Coverages.{tile_at};
ghost use Rattle.vpf_prims.specs.Numbering.{IsRowOf};
ghost use Rattle.vpf_prims.specs.Reading.{primitives_of};
ghost use Rattle.vpf_prims.specs.Roles.{face_roles, node_roles};
ghost use Rattle.vpf_prims.specs.Suiting.{carried_columns};
ghost use Rattle.vpf_prims.specs.Libraries.{library_of};
ghost use Rattle.vpf_follow.specs.Libraries.{over_edges};
ghost use Rattle.vpf_cross.specs.CarriedLines.{carried_finding, first_tile, head_node_line, nodes_lines, universe_line};
ghost use Rattle.vpf_cross.specs.Carrying.{carried_at, difference_of, first_difference};

use crate::carrying::{Difference, first_difference};
use crate::tables::{external_part, head_node, node_citation, table, table_at};
use vpf_findings::{Finding, TableName};
use vpf_follow::coverage::Coverage;
use vpf_prims::{Tile, face_roles, id_of, node_roles};

/// The first difference of node `n` of a tile and node `m` of another in what they carry.
fn node_difference<'a>(here: &Tile<'a>, n: u32, there: &Tile<'a>, m: u32) -> Option<Difference<'a>>
    ensures { option_map difference_of result ≡ first_difference (carried_columns node_roles here.now.tables.cnd.head.columns)
        (carried_at node_roles here.now.tables.cnd n) (carried_at node_roles there.now.tables.cnd m) }
{
    let nodes = table(here, TableName::Cnd);
    let others = table(there, TableName::Cnd);
    first_difference(node_roles(), nodes, n, others, m)
}

/// The first difference of the universes of two tiles in what they carry.
fn universe_difference<'a>(here: &Tile<'a>, there: &Tile<'a>) -> Option<Difference<'a>>
    ensures { option_map difference_of result ≡ first_difference (carried_columns face_roles here.now.tables.fac.head.columns)
        (carried_at face_roles here.now.tables.fac 1) (carried_at face_roles there.now.tables.fac 1) }
{
    let faces = table(here, TableName::Fac);
    let others = table(there, TableName::Fac);
    first_difference(face_roles(), faces, 1, others, 1)
}

/// The head node of the `+` or `-` dart of edge `k` carries what the node does that it names in another tile.
fn check_head_node<'a>(
    coverage: &Coverage<'a>,
    number: u32,
    tile: &Tile<'a>,
    k: u32,
    minus: bool,
) -> Result<(), Finding<'a>>
    requires tile { tile_at coverage.now number ≡ Some tile.now }
    requires row { IsRowOf (length (primitives_of tile.now.tables).edges) k }
    ensures { Finds result (head_node_line (library_of coverage.now) number tile.now k minus) }
{
    let node = head_node(tile, k, minus);
    let Some(other) = external_part(node) else {
        return Ok(());
    };
    let Some(there) = coverage.tile(other.tile) else {
        return Ok(());
    };
    match node_difference(tile, id_of(node), there, other.id) {
        None => Ok(()),
        Some(found) => Err(tile.finding(
            number,
            node_citation(minus),
            7,
            k,
            found.here,
            found.there,
        )),
    }
}

/// The nodes of edge `k` carry what those do that they name in other tiles.
fn check_nodes_of<'a>(
    coverage: &Coverage<'a>,
    number: u32,
    tile: &Tile<'a>,
    k: u32,
) -> Result<(), Finding<'a>>
    requires tile { tile_at coverage.now number ≡ Some tile.now }
    requires row { IsRowOf (length (primitives_of tile.now.tables).edges) k }
    ensures { Finds result (nodes_lines (library_of coverage.now) number tile.now k) }
{
    check_head_node(coverage, number, tile, k, true)?;
    check_head_node(coverage, number, tile, k, false)
}

/// The nodes of all edges do.
#[tactic(auto, using(crate::proofs::LoopLemmas::edge_rules))]
fn check_nodes<'a>(coverage: &Coverage<'a>, number: u32, tile: &Tile<'a>) -> Result<(), Finding<'a>>
    requires { tile_at coverage.now number ≡ Some tile.now }
    ensures { Finds result (over_edges (nodes_lines (library_of coverage.now) number tile.now) tile.now) }
{
    for k in 0..tile.edges() {
        check_nodes_of(coverage, number, tile, k + 1)?;
    }
    Ok(())
}

/// The universe carries what it does in the first tile that has tables, which has this number.
fn check_universe<'a>(
    coverage: &Coverage<'a>,
    first: u32,
    number: u32,
    tile: &Tile<'a>,
) -> Result<(), Finding<'a>>
    requires tile { tile_at coverage.now number ≡ Some tile.now }
    requires first { first ≡ first_tile (library_of coverage.now) }
    ensures { Finds result (universe_line (library_of coverage.now) number tile.now) }
{
    let Some(there) = coverage.tile(first) else {
        return Ok(());
    };
    match universe_difference(tile, there) {
        None => Ok(()),
        Some(found) => {
            let at = table_at(tile, number, TableName::Fac);
            Err(at.finding(7, 1, found.column, found.here, found.there))
        }
    }
}

/// What the tile of this number shares with others carries the same cells there: a node that an edge names in another tile, in the columns
/// without a role, and the universe, as in the first tile that has tables (MIL-STD-2407, 5.2.3, cross-tile topology). The first cell that
/// differs is the finding: edge by edge, the start node before the end node, and then the universe. It takes no memory.
pub fn check_carried<'a>(
    coverage: &Coverage<'a>,
    first: u32,
    number: u32,
    tile: &Tile<'a>,
) -> Result<(), Finding<'a>>
    requires tile { tile_at coverage.now number ≡ Some tile.now }
    requires first { first ≡ first_tile (library_of coverage.now) }
    ensures { Finds result (carried_finding (library_of coverage.now) number tile.now) }
{
    check_nodes(coverage, number, tile)?;
    check_universe(coverage, first, number, tile)
}

/// The number of the first tile that has tables, 0 where none has. The tiles are passed up to that.
pub fn first_tile(coverage: &Coverage<'_>) -> u32
    ensures { result ≡ first_tile (library_of coverage.now) }
{
    for t in 0..=coverage.tiles() {
        if coverage.tile(t).is_some() {
            return t;
        }
    }
    0
}
