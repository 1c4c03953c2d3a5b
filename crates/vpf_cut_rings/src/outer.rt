//! The outer rings of a tile: the walks round what it holds, along the faces of other tiles and the universe.

ghost use Rattle.std.specs.Prelude.{◌≡◌, ◌<◌, All, IfOk, [], length, map, slice_index_or, true};
ghost use Rattle.vpf_cut_rings.specs.Inner.Rings.{HasSmallNumbers, ring_of};
ghost use Rattle.vpf_cutting.specs.Inner.Cuts.{plan_by};
ghost use Rattle.vpf_darts.specs.Cycles.{IsListing, first_of};
ghost use Rattle.vpf_darts.specs.Darts.{dart_code};
ghost use Rattle.vpf_darts.specs.Listings.{numbers_of};
ghost use Rattle.vpf_tiling.specs.Presence.{is_present, tile_map};
ghost use Rattle.vpf_tiling.specs.Tiles.{outer_rings};

use crate::laws::outer_rings_begin_cycles;
use crate::rings::CutRing;
use crate::within::{darts_in, is_within};
use std::alloc::{AllocError, Global};
use vpf_cutting::{Cut, TileWalk};
use vpf_darts::{Dart, Listing};
use vpf_wing::kept::list_kept;
use vpf_wing::laws::well_formed_has_map;

/// The number in each tile of what is outside its faces.
const OUTSIDE: u32 = 1;

/// The listing of the cycles of a tile: of the coverage's map without the edges that aren't there.
fn cycles_in(alloc: Global, cut: &Cut<'_, '_>, tile: u32) -> Result<Listing, AllocError>
    ensures { IfOk result (λ listing. IsListing (tile_map cut.now.source (plan_by cut.now.plan) tile).next
        (tile_map cut.now.source (plan_by cut.now.plan) tile).live (numbers_of listing)) }
{
    cut.plan_holds();
    well_formed_has_map();
    let darts = darts_in(alloc, cut, tile)?;
    list_kept(alloc, &TileWalk { cut, tile }, &darts)
}

/// The dart that a cycle of a tile begins with.
fn begin_of(cut: &Cut<'_, '_>, tile: u32, cycles: &Listing, i: usize) -> Dart
    requires listing { IsListing (tile_map cut.now.source (plan_by cut.now.plan) tile).next
        (tile_map cut.now.source (plan_by cut.now.plan) tile).live (numbers_of cycles.now) }
    requires inside { i < length cycles.now }
    ensures first { dart_code result ≡ first_of (slice_index_or (numbers_of cycles.now) i []) }
    ensures there { is_present cut.now.source (plan_by cut.now.plan) tile (dart_code result) ≡ true }
{
    let first = cycles.at(i)[0];
    Dart {
        edge: first.edge,
        minus: first.minus,
    }
}

/// The outer rings by the cycles of a tile: one for each that begins with a dart that has no face of the tile.
fn rings_of_cycles(
    alloc: Global,
    cut: &Cut<'_, '_>,
    tile: u32,
    cycles: &Listing,
) -> Result<Vec<CutRing>, AllocError>
    requires { IsListing (tile_map cut.now.source (plan_by cut.now.plan) tile).next
        (tile_map cut.now.source (plan_by cut.now.plan) tile).live (numbers_of cycles.now) }
    ensures rings { IfOk result (λ rings. map ring_of rings.items ≡ outer_rings cut.now.source (plan_by cut.now.plan) tile) }
    ensures small { IfOk result (λ rings. All HasSmallNumbers rings.items) }
{
    cut.plan_holds();
    outer_rings_begin_cycles();
    let mut rings = Vec::new(alloc);
    for i in 0..cycles.len() {
        let first = begin_of(cut, tile, cycles, i);
        if !is_within(cut, tile, first) {
            rings.push(CutRing {
                face: OUTSIDE,
                edge: cut.local_edge(tile, first.edge),
            })?;
        }
    }
    Ok(rings)
}

/// The outer rings of a tile. Its darts are passed once.
pub(crate) fn outer_rings(
    alloc: Global,
    cut: &Cut<'_, '_>,
    tile: u32,
) -> Result<Vec<CutRing>, AllocError>
    ensures rings { IfOk result (λ rings. map ring_of rings.items ≡ outer_rings cut.now.source (plan_by cut.now.plan) tile) }
    ensures small { IfOk result (λ rings. All HasSmallNumbers rings.items) }
{
    let cycles = cycles_in(alloc, cut, tile)?;
    rings_of_cycles(alloc, cut, tile, &cycles)
}
