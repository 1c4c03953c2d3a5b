//! The tile of each face by a plan.

ghost use Rattle.std.specs.Prelude.{◌≡◌, ℕ, IfOk, length, map};
ghost use Rattle.std.specs.List.{range_with_len};
ghost use Rattle.vpf_prims.specs.Lists.{kth};
ghost use Rattle.vpf_tiling.specs.Tileable.Planning.{is_tile, plan_of, planned_tile, tile_number};

use crate::plan::NamedTiles;
use std::alloc::{AllocError, Global};

/// Whether a number of the plan is that of one of so many tiles.
pub(crate) fn is_tile(number: i32, tiles: u32) -> bool
    ensures { result ≡ is_tile tiles number }
{
    match u32::try_from(number) {
        Ok(tile) => 1 <= tile && tile <= tiles,
        Err(_) => false,
    }
}

/// The number of the tile that the plan names, 0 for none.
fn tile_number(named: Option<i32>) -> u32
    ensures { result ≡ tile_number named }
{
    match named {
        Some(number) => u32::try_from(number).unwrap_or(0),
        None => 0,
    }
}

/// The same for a face: the universe has no tile.
fn planned_tile(face: u32, named: Option<i32>) -> u32
    ensures { result ≡ planned_tile face named }
{
    if face == 1 { 0 } else { tile_number(named) }
}

/// The tile of each face by what a plan names for so many, in the order of the faces: 0 for the universe, and for a face that the plan puts
/// into no tile.
pub fn planned_tiles(alloc: Global, named: &NamedTiles, faces: u32) -> Result<Vec<u32>, AllocError>
    requires { length named.now ≡ faces }
    ensures tiles { IfOk result (λ tiles. tiles.items ≡ map (plan_of named.now) (range_with_len 1 faces)) }
    ensures each { IfOk result (λ tiles. (f : ℕ) → kth tiles.items f 0 ≡ plan_of named.now f) }
{
    let mut tiles = Vec::with_capacity(alloc, faces as usize)?;
    for below in 0..faces {
        let face = below + 1;
        tiles.push(planned_tile(face, named.tile_of(face)))?;
    }
    Ok(tiles)
}
