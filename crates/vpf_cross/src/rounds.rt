//! The turning of tiles about their nodes.

ghost use Rattle.std.specs.Prelude.{◌≡◌, ◌+◌, Some, length, true};
ghost use Rattle.std.specs.Option.{option_map};
ghost use Rattle.vpf_darts.specs.Darts.{tile_dart_code};
ghost use Rattle.vpf_findings.specs.Firsts.{Finds};
ghost use Rattle.vpf_prims.specs.Coverages.{tile_at};
ghost use Rattle.vpf_prims.specs.Numbering.{IsRowOf};
ghost use Rattle.vpf_prims.specs.Reading.{primitives_of};
ghost use Rattle.vpf_wing.specs.Links.{local_next};
ghost use Rattle.vpf_follow.specs.Following.{follow, is_home};
ghost use Rattle.vpf_follow.specs.Inner.Homes.{IsDartIn};
ghost use Rattle.vpf_cross.specs.Inner.Copies.{HomesAgree};
ghost use Rattle.vpf_cross.specs.HomeLines.{coverage_links};
ghost use Rattle.vpf_cross.specs.RoundLines.{copy_in_tile, first_copy, round_line, round_lines, rounds_finding};

use crate::tables::wing_citation;
use vpf_darts::{Dart, TileDart};
use vpf_findings::{Finding, Seen};
use vpf_follow::Followed;
use vpf_prims::Tile;
use vpf_wing::next_local;

/// The copy of a home dart in the tile of this number. Where it is in another, the copy can only be found by the other dart of the edge.
fn copy_in(followed: &Followed<'_, '_>, number: u32, home: TileDart) -> Option<TileDart>
    requires agree { HomesAgree followed.now }
    requires dart { IsDartIn followed.now home }
    requires home { is_home (coverage_links followed.now) (tile_dart_code home) ≡ true }
    ensures { option_map tile_dart_code result ≡ copy_in_tile (coverage_links followed.now) number (tile_dart_code home) }
{
    followed.links_follow();
    // The number of its edge has 32 bits.
    let _edge = home.edge;
    if home.tile == number {
        return Some(home);
    }
    let copy = followed.home_copy(home.flip()).flip();
    if copy.tile == number && followed.home_copy(copy) == home {
        Some(copy)
    } else {
        None
    }
}

/// The copy in the tile of this number of the first that has one of: the dart that follows a dart, the one that follows that one's other
/// dart, and so on, round the node.
fn first_copy(followed: &Followed<'_, '_>, number: u32, dart: TileDart) -> Option<TileDart>
    requires agree { HomesAgree followed.now }
    requires dart { IsDartIn followed.now dart }
    ensures { option_map tile_dart_code result ≡ first_copy (coverage_links followed.now) number (length (coverage_links followed.now).darts + 1)
        (follow (coverage_links followed.now) (tile_dart_code dart)) }
{
    let mut next = followed.next(dart);
    for _passed in 0..=followed.darts() {
        if let Some(copy) = copy_in(followed, number, next) {
            return Some(copy);
        }
        next = followed.next(next.flip());
    }
    None
}

/// The next of a dart in its tile.
fn next_in(followed: &Followed<'_, '_>, tile: &Tile<'_>, dart: TileDart) -> Option<TileDart>
    requires tile { tile_at followed.now dart.tile ≡ Some tile.now }
    requires row { IsRowOf (length (primitives_of tile.now.tables).edges) dart.edge }
    ensures { option_map tile_dart_code result ≡ local_next (coverage_links followed.now) (tile_dart_code dart) }
{
    tile.names_its_own();
    let _edges = tile.edges();
    let next = next_local(
        tile,
        Dart {
            edge: dart.edge,
            minus: dart.minus,
        },
    )?;
    Some(TileDart {
        tile: dart.tile,
        edge: next.edge,
        minus: next.minus,
    })
}

/// The next of a dart in its tile is the first copy there of what follows it.
fn check_round<'a>(
    followed: &Followed<'_, 'a>,
    tile: &Tile<'a>,
    dart: TileDart,
) -> Result<(), Finding<'a>>
    requires agree { HomesAgree followed.now }
    requires dart { IsDartIn followed.now dart }
    requires tile { tile_at followed.now dart.tile ≡ Some tile.now }
    requires row { IsRowOf (length (primitives_of tile.now.tables).edges) dart.edge }
    ensures { Finds result (round_line (coverage_links followed.now) dart.tile tile.now dart.edge dart.minus) }
{
    let Some(next) = next_in(followed, tile, dart) else {
        return Ok(());
    };
    let Some(copy) = first_copy(followed, dart.tile, dart) else {
        return Ok(());
    };
    if next == copy {
        return Ok(());
    }
    let citation = wing_citation(dart.minus);
    Err(tile.finding(
        dart.tile,
        citation,
        6,
        dart.edge,
        Seen::Dart(next),
        Seen::Dart(copy),
    ))
}

/// The same of both darts of edge `k`.
fn check_rounds_of<'a>(
    followed: &Followed<'_, 'a>,
    number: u32,
    tile: &Tile<'a>,
    k: u32,
) -> Result<(), Finding<'a>>
    requires agree { HomesAgree followed.now }
    requires tile { tile_at followed.now number ≡ Some tile.now }
    requires row { IsRowOf (length (primitives_of tile.now.tables).edges) k }
    ensures { Finds result (round_lines (coverage_links followed.now) number tile.now k) }
{
    let plus = TileDart {
        tile: number,
        edge: k,
        minus: false,
    };
    check_round(followed, tile, plus)?;
    check_round(followed, tile, plus.flip())
}

/// The tile of this number turns about its nodes as the whole coverage does (MIL-STD-2407, 5.2.3, cross-tile topology): the next of a dart in
/// the tile is the copy there of the first dart that has one among the dart that follows it, the one that follows that one's other dart, and
/// so on. The first dart where it isn't is the finding, edge by edge, `+` before `-`. It takes no memory.
#[tactic(auto, using(crate::proofs::LoopLemmas::edge_rules))]
pub fn check_rounds<'a>(
    followed: &Followed<'_, 'a>,
    number: u32,
    tile: &Tile<'a>,
) -> Result<(), Finding<'a>>
    requires agree { HomesAgree followed.now }
    requires tile { tile_at followed.now number ≡ Some tile.now }
    ensures { Finds result (rounds_finding (coverage_links followed.now) number tile.now) }
{
    for k in 0..tile.edges() {
        check_rounds_of(followed, number, tile, k + 1)?;
    }
    Ok(())
}
