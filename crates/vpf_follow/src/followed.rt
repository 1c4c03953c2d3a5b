//! Coverages whose darts are followed as they should.

ghost use Rattle.std.specs.Prelude.{◌≡◌, ◌<◌, ◌^◌, IfOk, length};
ghost use Rattle.vpf_findings.specs.Firsts.{Tells};
ghost use Rattle.vpf_prims.specs.Primitives.{edge_count};
ghost use Rattle.vpf_wing.specs.Links.{links_of};
ghost use Rattle.vpf_follow.specs.FollowLines.{follows_finding};
ghost use Rattle.vpf_follow.specs.Inner.Homes.{HasFewEdges};
ghost use Rattle.vpf_prims.specs.Libraries.{in_tiles, library_of};

use crate::checking::check_tile;
use crate::following::{follow, is_home};
use crate::homes::Homes;
use std::alloc::Global;
use std::marker::Model;
use vpf_coverage::Coverage;
use vpf_darts::TileDart;
use vpf_findings::FindError;

/// A coverage in which a home dart follows each dart, and no dart follows two home darts, with its home darts. Contracts see it as the
/// coverage.
#[derive(Drop)]
pub struct Followed<'c, 'a> {
    coverage: &'c Coverage<'a>,
    homes: Homes,
    darts: u64,
}

impl<'c, 'a> Model for Followed<'c, 'a> {
    ghost use Rattle.vpf_prims.specs.Coverages.{CoverageTables};

    ghost Value = { CoverageTables };

    ghost use Rattle.vpf_follow.specs.Inner.Followed.{followed_coverage, IsFollowed};

    ghost view = { followed_coverage };

    ghost invariant = { IsFollowed };
}

/// How many edges a tile of the coverage has: none where it is empty.
fn edge_count(coverage: &Coverage<'_>, t: u32) -> u32
    ensures value { result ≡ edge_count (library_of coverage.now) t }
    ensures few { result < 2 ^ 24 }
{
    match coverage.tile(t) {
        Some(tile) => tile.edges(),
        None => 0,
    }
}

/// How many darts there are in the tiles of a coverage.
fn count_darts(coverage: &Coverage<'_>) -> u64
    ensures count { result ≡ length (links_of (library_of coverage.now)).darts }
    ensures few { HasFewEdges (library_of coverage.now) }
{
    let mut darts: u64 = 0;
    for t in 0..=coverage.tiles() {
        darts += 2 * u64::from(edge_count(coverage, t));
    }
    darts
}

/// A home dart follows each dart of the coverage, and no dart follows two home darts (MIL-STD-2407, 5.2.3, cross-tile topology). The first
/// dart that none follows, or home dart whose next follows an earlier home dart too, is the finding: tile by tile, edge by edge, `+`
/// before `-`. It reads the rows of each dart's edge and of its wing. Takes memory for each dart, and nothing else.
pub fn check_follows<'c, 'a>(
    alloc: Global,
    coverage: &'c Coverage<'a>,
) -> Result<Followed<'c, 'a>, FindError<'a>>
    ensures first { Tells result (in_tiles (follows_finding (links_of (library_of coverage.now))) coverage.now) }
    ensures view { IfOk result (λ f. f ≡ coverage.now) }
{
    let darts = count_darts(coverage);
    let mut homes = Homes::new(alloc);
    for t in 0..=coverage.tiles() {
        check_tile(coverage, t, &mut homes)?;
    }
    Ok(Followed {
        coverage,
        homes,
        darts,
    })
}

impl<'c, 'a> Followed<'c, 'a> {
    ghost use Rattle.std.specs.Prelude.{◌≡◌, Some, None, length, true};
    ghost use Rattle.vpf_darts.specs.Darts.{tile_dart_code};
    ghost use Rattle.vpf_wing.specs.Links.{links_of};
    ghost use Rattle.vpf_follow.specs.Following.{follow, home_copy, is_home};
    ghost use Rattle.vpf_follow.specs.FollowLines.{follows_finding};
    ghost use Rattle.vpf_follow.specs.Inner.Homes.{IsDartIn};
    ghost use Rattle.vpf_prims.specs.Libraries.{in_tiles, library_of};

    /// The coverage.
    pub fn coverage(&self) -> &'c Coverage<'a>
        ensures { result.now ≡ self.now }
    {
        self.coverage
    }

    /// What is so of each: nothing disagrees in what follows its darts.
    pub fn links_follow(&self)
        ensures { in_tiles (follows_finding (links_of (library_of self.now))) self.now ≡ None }
    {
        let _darts = self.darts;
    }

    /// How many darts there are.
    pub fn darts(&self) -> u64
        ensures { result ≡ length (links_of (library_of self.now)).darts }
    {
        self.darts
    }

    /// The home dart that follows a dart.
    pub fn next(&self, dart: TileDart) -> TileDart
        requires { IsDartIn self.now dart }
        ensures next { follow (links_of (library_of self.now)) (tile_dart_code dart) ≡ Some (tile_dart_code result) }
        ensures home { is_home (links_of (library_of self.now)) (tile_dart_code result) ≡ true }
        ensures dart { IsDartIn self.now result }
    {
        match follow(self.coverage, dart) {
            Some(next) => next,
            None => unreachable!(),
        }
    }

    /// The home copy of a dart: itself where it is a home dart, and else the home dart that is followed by the same dart. Takes no memory.
    pub fn home_copy(&self, dart: TileDart) -> TileDart
        requires { IsDartIn self.now dart }
        ensures copy { tile_dart_code result ≡ home_copy (links_of (library_of self.now)) (tile_dart_code dart) }
        ensures dart { IsDartIn self.now result }
    {
        if is_home(self.coverage, dart) {
            return dart;
        }
        self.homes.first(self.next(dart)).unwrap_or(dart)
    }
}
