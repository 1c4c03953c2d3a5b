//! The topology of a coverage, by all rules.

ghost use Rattle.std.specs.Prelude.{◌≡◌, false, true, IfOk};
ghost use Rattle.vpf_findings.specs.Firsts.{◌or◌, Finds, Tells};
ghost use Rattle.vpf_prims.specs.Libraries.{in_tiles, library_of};
ghost use Rattle.vpf_cross.specs.CarriedLines.{carried_finding, inhabited_finding};
ghost use Rattle.vpf_cross.specs.CrossFinding.{topology_finding};
ghost use Rattle.vpf_cross.specs.HomeLines.{coverage_links, homes_finding};
ghost use Rattle.vpf_cross.specs.RoundLines.{rounds_finding};

use crate::numbered::tiles_are_numbered;
use crate::tiles::{
    check_all_carried, check_all_cycles, check_all_homes, check_all_inhabited, check_all_loops,
    check_all_rounds, check_all_sides,
};
use std::alloc::Global;
use std::marker::Model;
use vpf_findings::{FindError, Finding};
use vpf_follow::coverage::Coverage;
use vpf_follow::{Followed, check_follows};

/// A coverage in whose topology nothing disagrees, with what follows its darts where it is tiled. Contracts see it as the coverage.
#[derive(Drop)]
pub struct Checked<'c, 'a> {
    coverage: &'c Coverage<'a>,
    followed: Option<Followed<'c, 'a>>,
}

impl<'c, 'a> Model for Checked<'c, 'a> {
    ghost use Rattle.vpf_prims.specs.Coverages.{CoverageTables};

    ghost Value = { CoverageTables };

    ghost use Rattle.vpf_cross.specs.Inner.Checked.{IsChecked, checked_coverage};

    ghost view = { checked_coverage };

    ghost invariant = { IsChecked };
}

/// Tiles agree in the home copies of their outside darts, in their turning, and in what they carry, and entity nodes lie in faces.
fn check_across<'a>(followed: &Followed<'_, 'a>) -> Result<(), Finding<'a>>
    ensures { Finds result (in_tiles (homes_finding followed.now) followed.now
        or in_tiles (rounds_finding (coverage_links followed.now)) followed.now
        or in_tiles (carried_finding (library_of followed.now)) followed.now
        or in_tiles inhabited_finding followed.now) }
{
    let coverage = followed.coverage();
    tiles_are_numbered(coverage);
    check_all_homes(followed)?;
    check_all_rounds(followed)?;
    check_all_carried(coverage)?;
    check_all_inhabited(coverage)
}

/// An untiled coverage, whose loops have two faces and whose cycles, rings and nodes hold.
fn check_untiled<'c, 'a>(
    alloc: Global,
    coverage: &'c Coverage<'a>,
) -> Result<Checked<'c, 'a>, FindError<'a>>
    requires { coverage.now.is_tiled ≡ false }
    ensures first { Tells result (topology_finding coverage.now) }
    ensures view { IfOk result (λ checked. checked ≡ coverage.now) }
{
    check_all_loops(coverage)?;
    check_all_cycles(alloc, coverage)?;
    Ok(Checked {
        coverage,
        followed: None,
    })
}

/// A tiled coverage, whose tiles hold and agree with each other.
fn check_tiled<'c, 'a>(
    alloc: Global,
    coverage: &'c Coverage<'a>,
) -> Result<Checked<'c, 'a>, FindError<'a>>
    requires { coverage.now.is_tiled ≡ true }
    ensures first { Tells result (topology_finding coverage.now) }
    ensures view { IfOk result (λ checked. checked ≡ coverage.now) }
{
    check_all_sides(coverage)?;
    check_all_cycles(alloc, coverage)?;
    let followed = check_follows(alloc, coverage)?;
    check_across(&followed)?;
    Ok(Checked {
        coverage,
        followed: Some(followed),
    })
}

/// The topology of a coverage holds, whose columns, ids and references are right (MIL-STD-2407, 5.2.2, winged-edge topology, and 5.2.3,
/// cross-tile topology). The first place that disagrees is the finding, rule by rule, and in each tile by tile.
///
/// In an untiled coverage loops have two faces, and then the wings, cycles, rings and nodes hold. In a tiled one the faces, wings and nodes of
/// edges name tiles as they should; the wings, cycles, rings and nodes of each tile hold; each dart is followed by a home dart, and no two
/// home darts by the same; outside darts are of one edge with their home copies; tiles turn about their nodes as the whole coverage does;
/// shared nodes and the universe carry the same cells; and entity nodes lie in faces. Takes memory for so many numbers a dart, and none
/// for each.
pub fn check_coverage<'c, 'a>(
    alloc: Global,
    coverage: &'c Coverage<'a>,
) -> Result<Checked<'c, 'a>, FindError<'a>>
    ensures first { Tells result (topology_finding coverage.now) }
    ensures view { IfOk result (λ checked. checked ≡ coverage.now) }
{
    if coverage.is_tiled() {
        check_tiled(alloc, coverage)
    } else {
        check_untiled(alloc, coverage)
    }
}

impl<'c, 'a> Checked<'c, 'a> {
    ghost use Rattle.std.specs.Prelude.{◌≡◌, None};
    ghost use Rattle.std.specs.Option.{option_map};
    ghost use Rattle.vpf_cross.specs.Inner.Checked.{KeepsFollowed};
    ghost use Rattle.vpf_cross.specs.CrossFinding.{topology_finding};

    /// The coverage.
    pub fn coverage(&self) -> &'c Coverage<'a>
        ensures { result.now ≡ self.now }
    {
        self.coverage
    }

    /// What is so of each: nothing disagrees in its topology.
    pub fn topology_holds(&self)
        ensures { topology_finding self.now ≡ None }
    {
        let _coverage = self.coverage;
    }

    /// What follows its darts, where it is tiled: with it `next` and `home_copy` are known for each dart. Nothing where it isn't tiled, since no
    /// dart goes on in another tile there.
    pub fn followed(&self) -> Option<&Followed<'c, 'a>>
        ensures { KeepsFollowed self.now (option_map (λ f. f.now) result) }
    {
        match &self.followed {
            Some(followed) => Some(followed),
            None => None,
        }
    }
}
