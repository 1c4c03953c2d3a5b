//! Which primitives of a coverage are in which tiles of a plan.

ghost use Rattle.std.specs.Prelude.{◌≡◌, IfOk, Some, length, map};
ghost use Rattle.vpf_cutting.specs.Inner.Copies.Placing.{has_end};
ghost use Rattle.vpf_cutting.specs.Inner.Cuts.{AreCutEdges, AreCutEntities, AreCutFaces, ArePresent, IsPlanned, cutting_of, plan_by};
ghost use Rattle.vpf_cutting.specs.Inner.Sides.{nodes_at, tile_round, tiles_beside};
ghost use Rattle.vpf_prims.specs.Lists.{kth};
ghost use Rattle.vpf_prims.specs.Numbering.{IsRowOf};
ghost use Rattle.vpf_prims.specs.Primitives.{absent_edge, absent_entity, entities_in};
ghost use Rattle.vpf_prims.specs.Reading.{primitives_of};

use crate::copies::{Copies, EdgeNodes, EdgeTiles};
use std::alloc::{AllocError, Global};
use vpf_prims::{Tile, id_of};

/// The tile of a face by a plan.
pub(crate) fn tile_of_face(plan: &[u32], face: u32) -> u32
    requires { IsRowOf (length plan.now) face }
    ensures { result ≡ plan_by plan.now face }
{
    plan[face as usize - 1]
}

/// The tiles of the two faces of an edge.
fn tiles_beside(tile: &Tile<'_>, plan: &[u32], edge: u32) -> EdgeTiles
    requires edge { IsRowOf (length (primitives_of tile.now.tables).edges) edge }
    requires faces { length plan.now ≡ length (primitives_of tile.now.tables).faces }
    ensures { result ≡ tiles_beside (plan_by plan.now) (kth (primitives_of tile.now.tables).edges edge absent_edge) }
{
    tile.names_its_own();
    let row = tile.edge(edge);
    EdgeTiles {
        left: tile_of_face(plan, id_of(row.left_face)),
        right: tile_of_face(plan, id_of(row.right_face)),
    }
}

/// The same of each edge.
fn all_tiles_beside(
    alloc: Global,
    tile: &Tile<'_>,
    plan: &[u32],
) -> Result<Vec<EdgeTiles>, AllocError>
    requires { length plan.now ≡ length (primitives_of tile.now.tables).faces }
    ensures { IfOk result (λ sides. sides.items ≡ map (tiles_beside (plan_by plan.now)) (primitives_of tile.now.tables).edges) }
{
    let mut sides = Vec::with_capacity(alloc, tile.edges() as usize)?;
    for k in 0..tile.edges() {
        sides.push(tiles_beside(tile, plan, k + 1))?;
    }
    Ok(sides)
}

/// The two nodes of an edge.
fn nodes_at(tile: &Tile<'_>, edge: u32) -> EdgeNodes
    requires { IsRowOf (length (primitives_of tile.now.tables).edges) edge }
    ensures { result ≡ nodes_at (kth (primitives_of tile.now.tables).edges edge absent_edge) }
{
    let row = tile.edge(edge);
    EdgeNodes {
        start: id_of(row.start_node),
        end: id_of(row.end_node),
    }
}

/// The same of each edge.
fn all_nodes_at(alloc: Global, tile: &Tile<'_>) -> Result<Vec<EdgeNodes>, AllocError>
    ensures { IfOk result (λ ends. ends.items ≡ map nodes_at (primitives_of tile.now.tables).edges) }
{
    let mut ends = Vec::with_capacity(alloc, tile.edges() as usize)?;
    for k in 0..tile.edges() {
        ends.push(nodes_at(tile, k + 1))?;
    }
    Ok(ends)
}

/// The tile of the face that an entity node lies in.
fn tile_round(tile: &Tile<'_>, plan: &[u32], entity: u32) -> u32
    requires entity { IsRowOf (length (entities_in (Some (primitives_of tile.now.tables)))) entity }
    requires faces { length plan.now ≡ length (primitives_of tile.now.tables).faces }
    ensures { result ≡ tile_round (plan_by plan.now) (kth (entities_in (Some (primitives_of tile.now.tables))) entity absent_entity) }
{
    tile.names_its_own();
    tile_of_face(plan, tile.containing_face(entity))
}

/// The same of each entity node.
fn all_tiles_round(alloc: Global, tile: &Tile<'_>, plan: &[u32]) -> Result<Vec<u32>, AllocError>
    requires { length plan.now ≡ length (primitives_of tile.now.tables).faces }
    ensures { IfOk result (λ places. places.items ≡ map (tile_round (plan_by plan.now)) (entities_in (Some (primitives_of tile.now.tables)))) }
{
    let mut places = Vec::with_capacity(alloc, tile.entities() as usize)?;
    for k in 0..tile.entities() {
        places.push(tile_round(tile, plan, k + 1))?;
    }
    Ok(places)
}

/// Which edges are in which tiles: those that have a face there.
pub(crate) fn edges_in_tiles(
    alloc: Global,
    tile: &Tile<'_>,
    plan: &[u32],
    tiles: u32,
) -> Result<Copies, AllocError>
    requires { IsPlanned (cutting_of tile.now plan.now tiles) }
    ensures { IfOk result (AreCutEdges (cutting_of tile.now plan.now tiles)) }
{
    tile.names_its_own();
    let sides = all_tiles_beside(alloc, tile, plan)?;
    Copies::of_edges(alloc, tiles, &sides)
}

/// Which nodes are in which tiles: those with an edge there.
pub(crate) fn nodes_in_tiles(
    alloc: Global,
    tile: &Tile<'_>,
    edges: &Copies,
) -> Result<Copies, AllocError>
    requires { edges.now.items ≡ length (primitives_of tile.now.tables).edges }
    ensures { IfOk result (ArePresent (length (primitives_of tile.now.tables).nodes) edges.now.tiles
        (has_end edges.now (map nodes_at (primitives_of tile.now.tables).edges))) }
{
    tile.names_its_own();
    let ends = all_nodes_at(alloc, tile)?;
    let nodes = tile.nodes();
    Copies::of_nodes(alloc, edges, nodes, &ends)
}

/// Which faces are in which tiles: each but the universe is in the one of the plan.
pub(crate) fn faces_in_tiles(
    alloc: Global,
    tile: &Tile<'_>,
    plan: &[u32],
    tiles: u32,
) -> Result<Copies, AllocError>
    requires { IsPlanned (cutting_of tile.now plan.now tiles) }
    ensures { IfOk result (AreCutFaces (cutting_of tile.now plan.now tiles)) }
{
    // A table has few rows.
    let _faces = tile.faces();
    Copies::of_places(alloc, tiles, plan)
}

/// Which entity nodes are in which tiles: each is in that of its face.
pub(crate) fn entities_in_tiles(
    alloc: Global,
    tile: &Tile<'_>,
    plan: &[u32],
    tiles: u32,
) -> Result<Copies, AllocError>
    requires { IsPlanned (cutting_of tile.now plan.now tiles) }
    ensures { IfOk result (AreCutEntities (cutting_of tile.now plan.now tiles)) }
{
    tile.names_its_own();
    // A table has few rows.
    let _entities = tile.entities();
    let places = all_tiles_round(alloc, tile, plan)?;
    Copies::of_places(alloc, tiles, &places)
}
