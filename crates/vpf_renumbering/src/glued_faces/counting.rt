//! How many faces and entity nodes tiles have.

ghost use Rattle.std.specs.Prelude.{◌≡◌, ◌+◌, ◌<◌, ◌^◌, IfOk, length, map};
ghost use Rattle.std.specs.List.{range_with_len};
ghost use Rattle.vpf_tiling_laws.specs.Gluing.Whole.{whole_faces, whole_of};
ghost use Rattle.vpf_prims.specs.Coverages.{last_tile};
ghost use Rattle.vpf_prims.specs.Libraries.{library_of};
ghost use Rattle.vpf_prims.specs.Primitives.{tile_entities};
ghost use Rattle.vpf_renumbering.specs.Inner.GluedFaces.Faces.{faces_before};

use std::alloc::{AllocError, Global};
use vpf_coverage::Coverage;

/// How many faces other than the universe a tile has: none where it is empty.
pub(crate) fn own_faces(coverage: &Coverage<'_>, tile: u32) -> u32
    ensures { result ≡ length (whole_faces (library_of coverage.now) tile) }
{
    match coverage.tile(tile) {
        Some(tables) => tables.faces().saturating_sub(1),
        None => 0,
    }
}

/// For each tile, and for one after the last, how many faces other than the universe the tiles before it have. The tiles are passed once.
pub(crate) fn counts(alloc: Global, coverage: &Coverage<'_>) -> Result<Vec<u32>, AllocError>
    requires { length (whole_of (library_of coverage.now)).faces < 2 ^ 32 }
    ensures { IfOk result (λ counts. counts.items ≡ map (faces_before (library_of coverage.now)) (range_with_len 0 (last_tile coverage.now + 2))) }
{
    let mut counts = Vec::new(alloc);
    let mut count = 0;
    for tile in 0..=coverage.tiles() {
        counts.push(count)?;
        count += own_faces(coverage, tile);
    }
    counts.push(count)?;
    Ok(counts)
}

/// How many entity nodes a tile has: none where it is empty, or has no table of them.
pub(crate) fn own_entities(coverage: &Coverage<'_>, tile: u32) -> u32
    ensures value { result ≡ length (tile_entities (library_of coverage.now) tile) }
    ensures few { result < 2 ^ 24 }
{
    match coverage.tile(tile) {
        Some(tables) => tables.entities(),
        None => 0,
    }
}
