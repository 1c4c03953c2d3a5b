//! The listings of the map of a coverage: its cycles, and its turns about nodes.

ghost use Rattle.std.specs.Prelude.{◌≡◌, IfOk};
ghost use Rattle.vpf_darts.specs.Cycles.{IsListing};
ghost use Rattle.vpf_darts.specs.Listings.{numbers_of};
ghost use Rattle.vpf_darts.specs.Maps.{turn};
ghost use Rattle.vpf_prims.specs.Libraries.{library_of};
ghost use Rattle.vpf_wing.specs.Links.{links_of};
ghost use Rattle.vpf_follow.specs.Following.{library_map};
ghost use Rattle.vpf_renumbering.specs.Inner.Whole.Gathering.{AreHomeDarts};

use crate::whole::walking::WholeMap;
use std::alloc::{AllocError, Global};
use vpf_darts::{Listing, TileDart, Walk};
use vpf_wing::kept::list_kept;

/// The boundary cycles of a coverage, its lines between tiles too: the listing of its map, in which each home dart stands once. Each cycle begins
/// with its least dart, and the first darts rise (MIL-STD-2407, 5.2.2, winged-edge topology). `darts` are the home darts, as `home_darts`
/// gives them. Room for all of them is taken first.
pub fn cycles(
    alloc: Global,
    whole: &WholeMap<'_, '_, '_>,
    darts: &[TileDart],
) -> Result<Listing, AllocError>
    requires { AreHomeDarts (library_of whole.now) darts.now }
    ensures { IfOk result (λ listing. IsListing (library_map (links_of (library_of whole.now))).next
        (library_map (links_of (library_of whole.now))).live (numbers_of listing)) }
{
    whole.makes_map();
    list_kept(alloc, whole, darts)
}

/// The walk round nodes: a dart goes on to the next one that begins at its node.
#[derive(Drop)]
struct Turning<'t, 'w, 'c, 'a> {
    whole: &'t WholeMap<'w, 'c, 'a>,
}

impl Walk for Turning<'_, '_, '_, '_> {
    ghost use Rattle.std.specs.Prelude.{[]};
    ghost use Rattle.vpf_prims.specs.Libraries.{library_of};
    ghost use Rattle.vpf_wing.specs.Links.{links_of};
    ghost use Rattle.vpf_follow.specs.Following.{library_map};
    ghost use Rattle.vpf_renumbering.specs.Inner.Whole.Turning.{turning_map};

    ghost map = { λ t. turning_map (library_map (links_of (library_of t.whole.now))) };

    ghost passed = { λ _. [] };

    fn next(&self, dart: TileDart) -> TileDart {
        self.whole.makes_map();
        self.whole.next(self.whole.flip(dart))
    }

    fn flip(&self, dart: TileDart) -> TileDart {
        self.whole.flip(dart)
    }

    fn is_passed(&self, _dart: TileDart) -> bool {
        false
    }
}

/// The turns of a coverage about its nodes: the listing of the cycles of `turn`, in which each home dart stands once, with the others that
/// begin at its node. Each cycle begins with its least dart, and the first darts rise (MIL-STD-2407, 5.2.2, winged-edge topology).
/// `darts` are the home darts, as `home_darts` gives them. Room for all of them is taken first.
pub fn turns(
    alloc: Global,
    whole: &WholeMap<'_, '_, '_>,
    darts: &[TileDart],
) -> Result<Listing, AllocError>
    requires { AreHomeDarts (library_of whole.now) darts.now }
    ensures { IfOk result (λ listing. IsListing (turn (library_map (links_of (library_of whole.now))))
        (library_map (links_of (library_of whole.now))).live (numbers_of listing)) }
{
    whole.makes_map();
    list_kept(alloc, &Turning { whole }, darts)
}
