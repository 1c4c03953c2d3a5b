//! What follows the darts of a tile, dart by dart.

ghost use Rattle.std.specs.Prelude.{◌≡◌, ◌+◌, ◌-◌, length, OnOk, Some};
ghost use Rattle.vpf_findings.specs.Findings.{disagreement_of, sight_of};
ghost use Rattle.vpf_findings.specs.Firsts.{Tells};
ghost use Rattle.vpf_prims.specs.Coverages.{tile_at};
ghost use Rattle.vpf_prims.specs.Numbering.{IsRowOf};
ghost use Rattle.vpf_prims.specs.Reading.{primitives_of};
ghost use Rattle.vpf_wing.specs.Links.{links_of};
ghost use Rattle.vpf_follow.specs.FollowLines.{at_wing_of, follow_line, follow_lines, follows_finding};
ghost use Rattle.vpf_follow.specs.Inner.Homes.{AreKeptBefore, AreKeptTo, AreKeptWith, HasFewEdges};
ghost use Rattle.vpf_prims.specs.Libraries.{in_tile, library_of};

use crate::following::{follow, is_home};
use crate::homes::Homes;
use crate::sides::wing_citation;
use vpf_coverage::Coverage;
use vpf_darts::TileDart;
use vpf_findings::{FindError, Finding, Seen, SeenWord};
use vpf_prims::Tile;

/// A finding at the wing of a dart.
fn at_wing<'a>(tile: &Tile<'a>, dart: TileDart, found: Seen<'a>, wanted: Seen<'a>) -> Finding<'a>
    ensures { disagreement_of result ≡ at_wing_of dart.tile tile.now 4 dart.edge dart.minus (sight_of found.entry) (sight_of wanted.entry) }
{
    let citation = wing_citation(dart.minus);
    tile.finding(dart.tile, citation, 4, dart.edge, found, wanted)
}

/// A home dart follows the dart, and where the dart is a home dart, its next follows no earlier home dart. Home darts are kept.
fn check_dart<'a>(
    coverage: &Coverage<'a>,
    tile: &Tile<'a>,
    dart: TileDart,
    homes: &mut Homes,
) -> Result<(), FindError<'a>>
    requires tile { tile_at coverage.now dart.tile ≡ Some tile.now }
    requires edge { IsRowOf (length (primitives_of tile.now.tables).edges) dart.edge }
    requires few { HasFewEdges (library_of coverage.now) }
    requires homes { AreKeptBefore coverage.now dart homes.old }
    ensures first { Tells result (follow_line (links_of (library_of coverage.now)) dart.tile tile.now dart.edge dart.minus) }
    ensures homes { OnOk result (AreKeptWith coverage.now dart homes.new) }
{
    let Some(next) = follow(coverage, dart) else {
        let found = tile.seen(wing_citation(dart.minus), dart.edge);
        return Err(at_wing(tile, dart, found, Seen::Word(SeenWord::Dart)).into());
    };
    if !is_home(coverage, dart) {
        return Ok(());
    }
    match homes.put(dart, next)? {
        Some(first) => Err(at_wing(tile, dart, Seen::Dart(next), Seen::Dart(first)).into()),
        None => Ok(()),
    }
}

/// The same of both darts of edge `k`.
fn check_edge<'a>(
    coverage: &Coverage<'a>,
    tile: &Tile<'a>,
    number: u32,
    k: u32,
    homes: &mut Homes,
) -> Result<(), FindError<'a>>
    requires tile { tile_at coverage.now number ≡ Some tile.now }
    requires edge { IsRowOf (length (primitives_of tile.now.tables).edges) k }
    requires few { HasFewEdges (library_of coverage.now) }
    requires homes { AreKeptTo coverage.now number (k - 1) homes.old }
    ensures first { Tells result (follow_lines (links_of (library_of coverage.now)) number tile.now k) }
    ensures homes { OnOk result (AreKeptTo coverage.now number k homes.new) }
{
    let plus = TileDart {
        tile: number,
        edge: k,
        minus: false,
    };
    check_dart(coverage, tile, plus, homes)?;
    check_dart(coverage, tile, plus.flip(), homes)
}

/// The same of the darts of a tile, edge by edge.
fn check_edges<'a>(
    coverage: &Coverage<'a>,
    tile: &Tile<'a>,
    number: u32,
    homes: &mut Homes,
) -> Result<(), FindError<'a>>
    requires tile { tile_at coverage.now number ≡ Some tile.now }
    requires few { HasFewEdges (library_of coverage.now) }
    requires homes { AreKeptTo coverage.now number 0 homes.old }
    ensures first { Tells result (follows_finding (links_of (library_of coverage.now)) number tile.now) }
    ensures homes { OnOk result (AreKeptTo coverage.now (number + 1) 0 homes.new) }
{
    for k in 0..tile.edges() {
        check_edge(coverage, tile, number, k + 1, homes)?;
    }
    Ok(())
}

/// The same of the tile of this number, where it has tables.
pub(crate) fn check_tile<'a>(
    coverage: &Coverage<'a>,
    number: u32,
    homes: &mut Homes,
) -> Result<(), FindError<'a>>
    requires few { HasFewEdges (library_of coverage.now) }
    requires homes { AreKeptTo coverage.now number 0 homes.old }
    ensures first { Tells result (in_tile (follows_finding (links_of (library_of coverage.now)) number) (tile_at coverage.now number)) }
    ensures homes { OnOk result (AreKeptTo coverage.now (number + 1) 0 homes.new) }
{
    match coverage.tile(number) {
        Some(tile) => check_edges(coverage, tile, number, homes),
        None => Ok(()),
    }
}
