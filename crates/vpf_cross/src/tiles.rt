//! Rules that look at the tiles of a coverage one after another, by their numbers.

ghost use Rattle.std.specs.Prelude.{◌≡◌};
ghost use Rattle.vpf_findings.specs.Firsts.{Finds, Tells};
ghost use Rattle.vpf_wing.specs.CycleLines.{cycles_finding, loops_finding};
ghost use Rattle.vpf_prims.specs.Libraries.{in_tiles, library_of};
ghost use Rattle.vpf_follow.specs.SideLines.{sides_finding};
ghost use Rattle.vpf_cross.specs.CarriedLines.{carried_finding, inhabited_finding};
ghost use Rattle.vpf_cross.specs.Inner.Copies.{HomesAgree};
ghost use Rattle.vpf_cross.specs.HomeLines.{coverage_links, homes_finding};
ghost use Rattle.vpf_cross.specs.RoundLines.{rounds_finding};

use crate::carried::{check_carried, first_tile};
use crate::homes::check_homes;
use crate::inhabited::check_inhabited;
use crate::rounds::check_rounds;
use std::alloc::Global;
use vpf_findings::{FindError, Finding};
use vpf_follow::coverage::Coverage;
use vpf_follow::{Followed, check_sides};
use vpf_wing::{check_loops, check_tile};

/// Loops have two faces.
#[tactic(auto, using(crate::proofs::LoopLemmas::tile_rules))]
pub fn check_all_loops<'a>(coverage: &Coverage<'a>) -> Result<(), Finding<'a>>
    ensures { Finds result (in_tiles loops_finding coverage.now) }
{
    for t in 0..=coverage.tiles() {
        if let Some(tile) = coverage.tile(t) {
            check_loops(tile, t)?;
        }
    }
    Ok(())
}

/// The faces, wings and nodes of edges name tiles as they should.
#[tactic(auto, using(crate::proofs::LoopLemmas::tile_rules))]
pub fn check_all_sides<'a>(coverage: &Coverage<'a>) -> Result<(), Finding<'a>>
    ensures { Finds result (in_tiles sides_finding coverage.now) }
{
    for t in 0..=coverage.tiles() {
        if let Some(tile) = coverage.tile(t) {
            check_sides(tile, t)?;
        }
    }
    Ok(())
}

/// The wings, cycles, rings and nodes of each tile hold.
#[tactic(auto, using(crate::proofs::LoopLemmas::tile_rules))]
pub fn check_all_cycles<'a>(alloc: Global, coverage: &Coverage<'a>) -> Result<(), FindError<'a>>
    ensures { Tells result (in_tiles cycles_finding coverage.now) }
{
    for t in 0..=coverage.tiles() {
        if let Some(tile) = coverage.tile(t) {
            check_tile(alloc, tile, t)?;
        }
    }
    Ok(())
}

/// Outside darts are of one edge with their home copies.
#[tactic(auto, using(crate::proofs::LoopLemmas::tile_rules))]
pub fn check_all_homes<'a>(followed: &Followed<'_, 'a>) -> Result<(), Finding<'a>>
    ensures { Finds result (in_tiles (homes_finding followed.now) followed.now) }
{
    let coverage = followed.coverage();
    for t in 0..=coverage.tiles() {
        if let Some(tile) = coverage.tile(t) {
            check_homes(followed, t, tile)?;
        }
    }
    Ok(())
}

/// Tiles turn about their nodes as the whole coverage does.
#[tactic(auto, using(crate::proofs::LoopLemmas::tile_rules))]
pub fn check_all_rounds<'a>(followed: &Followed<'_, 'a>) -> Result<(), Finding<'a>>
    requires { HomesAgree followed.now }
    ensures { Finds result (in_tiles (rounds_finding (coverage_links followed.now)) followed.now) }
{
    let coverage = followed.coverage();
    for t in 0..=coverage.tiles() {
        if let Some(tile) = coverage.tile(t) {
            check_rounds(followed, t, tile)?;
        }
    }
    Ok(())
}

/// Nodes that tiles share carry the same cells, and so does the universe.
#[tactic(auto, using(crate::proofs::LoopLemmas::tile_rules))]
pub fn check_all_carried<'a>(coverage: &Coverage<'a>) -> Result<(), Finding<'a>>
    ensures { Finds result (in_tiles (carried_finding (library_of coverage.now)) coverage.now) }
{
    let first = first_tile(coverage);
    for t in 0..=coverage.tiles() {
        if let Some(tile) = coverage.tile(t) {
            check_carried(coverage, first, t, tile)?;
        }
    }
    Ok(())
}

/// Entity nodes lie in faces.
#[tactic(auto, using(crate::proofs::LoopLemmas::tile_rules))]
pub fn check_all_inhabited<'a>(coverage: &Coverage<'a>) -> Result<(), Finding<'a>>
    ensures { Finds result (in_tiles inhabited_finding coverage.now) }
{
    for t in 0..=coverage.tiles() {
        if let Some(tile) = coverage.tile(t) {
            check_inhabited(tile, t)?;
        }
    }
    Ok(())
}
