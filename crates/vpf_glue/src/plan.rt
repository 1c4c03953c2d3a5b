//! The tiles of the faces of a glued coverage, which its plan names.

ghost use Rattle.std.specs.Prelude.{◌≡◌, ◌<◌, ◌^◌, All, IfOk};
ghost use Rattle.vpf_renumbering.specs.Glued.{tiles_of_faces};
ghost use Rattle.vpf_glue.specs.GluedTables.Grids.{whole_in};

use std::alloc::{AllocError, Global};
use vpf_renumbering::glued_faces::GluedFaces;

/// A tile's number, where a cell of 4 bytes can name it. A coverage with more tiles is larger than memory.
fn nameable(tile: u32) -> Result<u32, AllocError>
    ensures same { IfOk result (λ same. same ≡ tile) }
    ensures small { IfOk result (λ same. same < 2 ^ 31) }
{
    if tile > i32::MAX as u32 {
        return Err(AllocError);
    }
    Ok(tile)
}

/// The tile of each face but the universe, in the order of the faces.
pub(crate) fn tiles_of_faces(
    alloc: Global,
    faces: &GluedFaces<'_, '_, '_>,
) -> Result<Vec<u32>, AllocError>
    ensures tiles { IfOk result (λ tiles. tiles.items ≡ tiles_of_faces (whole_in faces.now)) }
    ensures small { IfOk result (λ tiles. All (λ tile. tile < 2 ^ 31) tiles.items) }
{
    let mut tiles = Vec::new(alloc);
    for place in 0..faces.count() - 1 {
        let tile = nameable(faces.face_at(place).tile)?;
        tiles.push(tile)?;
    }
    Ok(tiles)
}
