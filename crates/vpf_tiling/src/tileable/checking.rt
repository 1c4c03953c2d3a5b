//! The first cause why a coverage isn't cut into tiles by a plan.

ghost use Rattle.std.specs.Prelude.{◌≡◌, ◌+◌, length};
ghost use Rattle.std.specs.Result.{result_err};
ghost use Rattle.vpf_prims.specs.Numbering.{IsRowOf};
ghost use Rattle.vpf_prims.specs.Primitives.{entities_in};
ghost use Rattle.vpf_prims.specs.Reading.{primitives_of};
ghost use Rattle.std.specs.Prelude.{Some};
ghost use Rattle.vpf_tiling.specs.Tileable.Refusals.{edge_outside, edges_outside, entities_outside, entity_outside};
ghost use Rattle.vpf_tiling.specs.Tileable.Refusals.{first_refusal, no_plan, no_plans, unknown_tile, unknown_tiles};

use crate::plan::NamedTiles;
use crate::tileable::planning::is_tile;
use crate::tileable::refusals::Refusal;
use vpf_prims::{Tile, id_of};

/// The face of the universe.
const UNIVERSE: u32 = 1;

/// The plan names something for the face.
fn check_named(named: &NamedTiles, face: u32) -> Result<(), Refusal>
    ensures { result_err result ≡ no_plan named.now face }
{
    match named.tile_of(face) {
        Some(_) => Ok(()),
        None => Err(Refusal::NoPlan { face }),
    }
}

/// The same of each face but the universe.
#[tactic(auto, using(vpf_findings::specs::Inner::FirstLaws::over_pass, vpf_findings::specs::Inner::FirstLaws::over_stop, vpf_findings::specs::Inner::FirstLaws::over_end))]
fn check_all_named(named: &NamedTiles, faces: u32) -> Result<(), Refusal>
    ensures { result_err result ≡ no_plans named.now faces }
{
    for below in 1..faces {
        check_named(named, below + 1)?;
    }
    Ok(())
}

/// What the plan names for the face is a tile.
fn check_tile(named: &NamedTiles, tiles: u32, face: u32) -> Result<(), Refusal>
    ensures { result_err result ≡ unknown_tile named.now tiles face }
{
    match named.tile_of(face) {
        Some(tile) if !is_tile(tile, tiles) => Err(Refusal::UnknownTile { face, tile }),
        _ => Ok(()),
    }
}

/// The same of each face but the universe.
#[tactic(auto, using(vpf_findings::specs::Inner::FirstLaws::over_pass, vpf_findings::specs::Inner::FirstLaws::over_stop, vpf_findings::specs::Inner::FirstLaws::over_end))]
fn check_all_tiles(named: &NamedTiles, tiles: u32, faces: u32) -> Result<(), Refusal>
    ensures { result_err result ≡ unknown_tiles named.now tiles faces }
{
    for below in 1..faces {
        check_tile(named, tiles, below + 1)?;
    }
    Ok(())
}

/// The edge has another face than the universe on a side.
fn check_edge(tile: &Tile<'_>, edge: u32) -> Result<(), Refusal>
    requires { IsRowOf (length (primitives_of tile.now.tables).edges) edge }
    ensures { result_err result ≡ edge_outside (primitives_of tile.now.tables) edge }
{
    let row = tile.edge(edge);
    if id_of(row.right_face) == UNIVERSE && id_of(row.left_face) == UNIVERSE {
        return Err(Refusal::EdgeOutside { edge });
    }
    Ok(())
}

/// The same of each edge.
#[tactic(auto, using(vpf_findings::specs::Inner::FirstLaws::over_pass, vpf_findings::specs::Inner::FirstLaws::over_stop, vpf_findings::specs::Inner::FirstLaws::over_end))]
fn check_edges(tile: &Tile<'_>) -> Result<(), Refusal>
    ensures { result_err result ≡ edges_outside (primitives_of tile.now.tables) }
{
    for below in 0..tile.edges() {
        check_edge(tile, below + 1)?;
    }
    Ok(())
}

/// The entity node lies in another face than the universe.
fn check_entity(tile: &Tile<'_>, node: u32) -> Result<(), Refusal>
    requires { IsRowOf (length (entities_in (Some (primitives_of tile.now.tables)))) node }
    ensures { result_err result ≡ entity_outside (primitives_of tile.now.tables) node }
{
    if tile.containing_face(node) == UNIVERSE {
        return Err(Refusal::EntityOutside { node });
    }
    Ok(())
}

/// The same of each entity node.
#[tactic(auto, using(vpf_findings::specs::Inner::FirstLaws::over_pass, vpf_findings::specs::Inner::FirstLaws::over_stop, vpf_findings::specs::Inner::FirstLaws::over_end))]
fn check_entities(tile: &Tile<'_>) -> Result<(), Refusal>
    ensures { result_err result ≡ entities_outside (primitives_of tile.now.tables) }
{
    for below in 0..tile.entities() {
        check_entity(tile, below + 1)?;
    }
    Ok(())
}

/// Whether an untiled coverage may be cut into so many tiles, where a plan names these numbers for its faces, in their order: nothing where the
/// plan has no row for a face.
///
/// The first cause why it may not is the refusal: kind by kind, that a face but the universe has no row, that its row names no tile, that an
/// edge has the universe on both sides, that an entity node lies in the universe; and in each kind the least number. It takes no memory
/// (MIL-STD-2407, 5.2.3, tiled coverages).
pub fn check_tileable(tile: &Tile<'_>, named: &NamedTiles, tiles: u32) -> Result<(), Refusal>
    ensures { result_err result ≡ first_refusal (primitives_of tile.now.tables) named.now tiles }
{
    check_all_named(named, tile.faces())?;
    check_all_tiles(named, tiles, tile.faces())?;
    check_edges(tile)?;
    check_entities(tile)
}
