//! The walk over the home darts of a checked coverage.

ghost use Rattle.std.specs.Prelude.{◌≡◌, ◌≢◌, ℕ, true};
ghost use Rattle.vpf_darts.specs.Darts.{sign_in};
ghost use Rattle.vpf_darts.specs.Maps.{IsMap};
ghost use Rattle.vpf_prims.specs.Libraries.{library_of};
ghost use Rattle.vpf_wing.specs.Links.{links_of};
ghost use Rattle.vpf_follow.specs.Following.{is_home, library_map};
ghost use Rattle.vpf_trace.specs.Tracing.{IsTraceable};

use std::marker::Model;
use vpf_cross::Checked;
use vpf_cross::laws::homes_flip_back;
use vpf_darts::{TileDart, Walk};
use vpf_follow::follow;
use vpf_follow::laws::{followers_decide, homes_exist};
use vpf_numbers::laws::numbers_decide;
use vpf_wing::laws::cycles_decide;

/// What is so of each checked coverage: its darts can be walked.
fn walk_goes_round(checked: &Checked<'_, '_>)
    ensures { IsTraceable (library_of checked.now) }
{
    let coverage = checked.coverage();
    coverage.tiles_make_library();
    coverage.numbers_hold();
    checked.topology_holds();
    numbers_decide();
    cycles_decide();
    followers_decide();
    homes_flip_back();
}

/// A checked coverage as one map, whatever its tiles: each home dart goes on to the home dart that follows it, from tile to tile, and no edge is
/// passed over, also not a line between tiles (MIL-STD-2407, 5.2.3, cross-tile topology). An untiled coverage is the map of its wings.
/// Contracts see it as the tables of the coverage.
#[derive(Drop)]
pub struct WholeMap<'w, 'c, 'a> {
    checked: &'w Checked<'c, 'a>,
}

impl<'w, 'c, 'a> Model for WholeMap<'w, 'c, 'a> {
    ghost use Rattle.vpf_prims.specs.Coverages.{CoverageTables};

    ghost Value = { CoverageTables };

    ghost use Rattle.vpf_prims.specs.Libraries.{library_of};
    ghost use Rattle.vpf_trace.specs.Tracing.{IsTraceable};

    ghost view = { λ w. w.checked.now };

    ghost invariant = { λ w. IsTraceable (library_of w.checked.now) };
}

impl<'w, 'c, 'a> WholeMap<'w, 'c, 'a> {
    /// The map of a checked coverage. It takes no memory.
    pub fn new(checked: &'w Checked<'c, 'a>) -> WholeMap<'w, 'c, 'a>
        ensures { result ≡ checked.now }
    {
        walk_goes_round(checked);
        WholeMap { checked }
    }

    /// The coverage.
    pub fn checked(&self) -> &'w Checked<'c, 'a>
        ensures { result.now ≡ self.now }
    {
        self.checked
    }

    /// What is so of each: its home darts are a combinatorial map, and an edge of it has a `+` dart and a `-` dart.
    pub fn makes_map(&self)
        ensures map { IsMap (library_map (links_of (library_of self.now))) }
        ensures signs { (d : ℕ) → is_home (links_of (library_of self.now)) d ≡ true
            → sign_in ((library_map (links_of (library_of self.now))).flip d) ≢ sign_in d }
    {
        let _checked = self.checked;
        homes_exist();
    }
}

impl Walk for WholeMap<'_, '_, '_> {
    ghost use Rattle.std.specs.Prelude.{[]};
    ghost use Rattle.vpf_prims.specs.Libraries.{library_of};
    ghost use Rattle.vpf_wing.specs.Links.{links_of};
    ghost use Rattle.vpf_follow.specs.Following.{library_map};

    ghost map = { λ w. library_map (links_of (library_of w)) };

    ghost passed = { λ _. [] };

    fn next(&self, dart: TileDart) -> TileDart {
        match follow(self.checked.coverage(), dart) {
            Some(next) => next,
            None => unreachable!(),
        }
    }

    fn flip(&self, dart: TileDart) -> TileDart {
        match self.checked.followed() {
            Some(followed) => followed.home_copy(dart.flip()),
            None => dart.flip(),
        }
    }

    fn is_passed(&self, _dart: TileDart) -> bool {
        false
    }
}
