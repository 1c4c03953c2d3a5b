//! The rings of the universe: the walks round all that a coverage holds.

ghost use Rattle.std.specs.Prelude.{◌≡◌, ◌*◌, ◌<◌, ◌≤◌, All, IfOk, [], length, slice_index_or, true};
ghost use Rattle.vpf_darts.specs.Cycles.{IsListing, first_of};
ghost use Rattle.vpf_darts.specs.Darts.{tile_dart_code};
ghost use Rattle.vpf_darts.specs.Listings.{numbers_of};
ghost use Rattle.vpf_tiling_laws.specs.Gluing.Glued.{plus_darts, universe_rings};
ghost use Rattle.vpf_tiling_laws.specs.Gluing.Whole.{whole_of};
ghost use Rattle.vpf_prims.specs.Libraries.{library_of};
ghost use Rattle.vpf_wing.specs.Links.{links_of};
ghost use Rattle.vpf_follow.specs.Following.{is_home, library_map};
ghost use Rattle.vpf_renumbering.specs.Inner.GluedFaces.Rings.{HasHomeStart, rings_glued, rings_of_cycles};

use crate::glued_faces::joined::faces_are_joined;
use crate::glued_faces::rings::GluedRing;
use crate::glued_faces::starts::face_id;
use crate::whole::{WholeMap, cycles, home_darts};
use std::alloc::{AllocError, Global};
use vpf_cross::Checked;
use vpf_cut_rings::laws::leasts_begin_cycles;
use vpf_darts::{Listing, TileDart};

/// The face of the universe.
const UNIVERSE: u32 = 1;

/// The dart that a cycle begins with.
fn begin_of(checked: &Checked<'_, '_>, cycles: &Listing, i: usize) -> TileDart
    requires listing { IsListing (library_map (links_of (library_of checked.now))).next
        (library_map (links_of (library_of checked.now))).live (numbers_of cycles.now) }
    requires inside { i < length cycles.now }
    ensures first { tile_dart_code result ≡ first_of (slice_index_or (numbers_of cycles.now) i []) }
    ensures home { is_home (links_of (library_of checked.now)) (tile_dart_code result) ≡ true }
{
    let _coverage = checked.coverage();
    cycles.at(i)[0]
}

/// The rings by the cycles of the map: one for each that begins with a dart of the universe.
fn rings_of_cycles(
    alloc: Global,
    checked: &Checked<'_, '_>,
    cycles: &Listing,
) -> Result<Vec<GluedRing>, AllocError>
    requires { IsListing (library_map (links_of (library_of checked.now))).next
        (library_map (links_of (library_of checked.now))).live (numbers_of cycles.now) }
    ensures rings { IfOk result (λ rings. rings_glued (library_of checked.now) rings.items ≡ rings_of_cycles (library_of checked.now) (numbers_of cycles.now)) }
    ensures home { IfOk result (λ rings. All (HasHomeStart (library_of checked.now)) rings.items) }
{
    let mut rings = Vec::new(alloc);
    for i in 0..cycles.len() {
        let start = begin_of(checked, cycles, i);
        if face_id(checked.coverage(), start) == UNIVERSE {
            rings.push(GluedRing {
                face: UNIVERSE,
                start,
            })?;
        }
    }
    Ok(rings)
}

/// One ring for each cycle of the map that has the universe for a face, by its least dart. The map is walked once.
pub(crate) fn universe_rings(
    alloc: Global,
    checked: &Checked<'_, '_>,
) -> Result<Vec<GluedRing>, AllocError>
    ensures rings { IfOk result (λ rings. rings_glued (library_of checked.now) rings.items ≡ universe_rings (whole_of (library_of checked.now))) }
    ensures home { IfOk result (λ rings. All (HasHomeStart (library_of checked.now)) rings.items) }
    ensures few { IfOk result (λ rings. length rings.items ≤ 2 * length (plus_darts (whole_of (library_of checked.now)))) }
{
    faces_are_joined(checked);
    leasts_begin_cycles();
    let whole = WholeMap::new(checked);
    let darts = home_darts(alloc, checked)?;
    let listing = cycles(alloc, &whole, &darts)?;
    let rings = rings_of_cycles(alloc, checked, &listing)?;
    Ok(rings)
}
