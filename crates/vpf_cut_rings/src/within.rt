//! The darts of a tile, and whether their faces are of the tile.

ghost use Rattle.std.specs.Prelude.{◌≡◌, ◌<◌, ◌^◌, All, IfOk, filter, map, true};
ghost use Rattle.vpf_cutting.specs.Inner.Cuts.{plan_by};
ghost use Rattle.vpf_darts.specs.Darts.{dart_code, tile_dart_code};
ghost use Rattle.vpf_tiling.specs.Presence.{is_present, is_within, untiled_links};

use std::alloc::{AllocError, Global};
use vpf_cutting::Cut;
use vpf_darts::{Dart, TileDart};

/// The face of the universe.
const UNIVERSE: u32 = 1;

/// The darts of the edges of a tile, in their order.
pub(crate) fn darts_in(
    alloc: Global,
    cut: &Cut<'_, '_>,
    tile: u32,
) -> Result<Vec<TileDart>, AllocError>
    ensures numbers { IfOk result (λ darts. map tile_dart_code darts.items
        ≡ filter (is_present cut.now.source (plan_by cut.now.plan) tile) (untiled_links cut.now.source).darts) }
    ensures small { IfOk result (λ darts. All (λ dart. dart.edge < 2 ^ 32) darts.items) }
{
    let mut darts = Vec::new(alloc);
    for edge in cut.edges_in(tile) {
        let plus = TileDart {
            tile: 0,
            edge: *edge,
            minus: false,
        };
        darts.push(plus)?;
        darts.push(plus.flip())?;
    }
    Ok(darts)
}

/// Whether the face of a dart is one of a tile.
pub(crate) fn is_within(cut: &Cut<'_, '_>, tile: u32, dart: Dart) -> bool
    requires { is_present cut.now.source (plan_by cut.now.plan) tile (dart_code dart) ≡ true }
    ensures { result ≡ is_within cut.now.source (plan_by cut.now.plan) tile (dart_code dart) }
{
    let face = cut.face(dart);
    face != UNIVERSE && cut.tile_of_face(face) == tile
}
