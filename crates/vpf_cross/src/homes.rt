//! The home copies of outside darts.

ghost use Rattle.std.specs.Prelude.{◌≡◌, ◌==◌, Some, length, nat_eq};
ghost use Rattle.std.specs.Option.{option_eq, option_map};
ghost use Rattle.vpf_darts.specs.Darts.{sign_of, tile_dart_code};
ghost use Rattle.vpf_findings.specs.Findings.{DartSeen, WordSeen};
ghost use Rattle.vpf_findings.specs.Firsts.{Finds, unless};
ghost use Rattle.vpf_prims.specs.Coverages.{tile_at};
ghost use Rattle.vpf_prims.specs.Lists.{kth};
ghost use Rattle.vpf_prims.specs.Numbering.{IsRowOf};
ghost use Rattle.vpf_prims.specs.Primitives.{absent_edge};
ghost use Rattle.vpf_prims.specs.Reading.{primitives_of};
ghost use Rattle.vpf_prims.specs.Roles.{edge_roles};
ghost use Rattle.vpf_prims.specs.Suiting.{carried_columns};
ghost use Rattle.vpf_follow.specs.FollowLines.{at_wing_of};
ghost use Rattle.vpf_follow.specs.Following.{home_copy};
ghost use Rattle.vpf_follow.specs.Inner.Homes.{IsDartIn};
ghost use Rattle.vpf_cross.specs.Carrying.{carried_at, difference_of, first_difference};
ghost use Rattle.vpf_cross.specs.HomeLines.{copies_lines, coverage_links, home_carried_line, home_flip_line, home_lines, home_mark_line};
ghost use Rattle.vpf_cross.specs.HomeLines.{homes_finding, outside_lines};

use crate::carrying::{Difference, first_difference};
use crate::tables::{face_citation, table, table_at, wing_citation};
use vpf_darts::TileDart;
use vpf_findings::{Finding, Seen, SeenWord, TableName};
use vpf_follow::coverage::Coverage;
use vpf_follow::{Followed, is_outside};
use vpf_numbers::laws::numbers_decide;
use vpf_prims::{Citation, Tile, edge_roles};

/// The first difference of two edges in what they carry.
fn edge_difference<'a>(here: &Tile<'a>, k: u32, there: &Tile<'a>, j: u32) -> Option<Difference<'a>>
    ensures { option_map difference_of result ≡ first_difference (carried_columns edge_roles here.now.tables.edg.head.columns)
        (carried_at edge_roles here.now.tables.edg k) (carried_at edge_roles there.now.tables.edg j) }
{
    let edges = table(here, TableName::Edg);
    let others = table(there, TableName::Edg);
    first_difference(edge_roles(), edges, k, others, j)
}

/// The tile of a dart of the coverage.
fn tile_of<'c, 'a>(coverage: &'c Coverage<'a>, dart: TileDart) -> &'c Tile<'a>
    requires { IsDartIn coverage.now dart }
    ensures tile { tile_at coverage.now dart.tile ≡ Some result.now }
    ensures row { IsRowOf (length (primitives_of result.now.tables).edges) dart.edge }
{
    // The number of its edge has 32 bits.
    let _edge = dart.edge;
    match coverage.tile(dart.tile) {
        Some(tile) => tile,
        None => unreachable!(),
    }
}

/// The home copy of the other dart of the home copy is the other dart.
fn check_flip<'a>(
    followed: &Followed<'_, 'a>,
    tile: &Tile<'a>,
    dart: TileDart,
    home: TileDart,
) -> Result<(), Finding<'a>>
    requires dart { IsDartIn followed.now dart }
    requires home { tile_dart_code home ≡ home_copy (coverage_links followed.now) (tile_dart_code dart) }
    requires there { IsDartIn followed.now home }
    ensures { Finds result (home_flip_line (coverage_links followed.now) dart.tile tile.now dart.edge dart.minus) }
{
    let back = followed.home_copy(home.flip());
    let other = dart.flip();
    if back == other {
        return Ok(());
    }
    let citation = face_citation(dart.minus);
    Err(tile.finding(
        dart.tile,
        citation,
        5,
        dart.edge,
        Seen::Dart(back),
        Seen::Dart(other),
    ))
}

/// The home copy has the sign of the dart.
fn check_sign<'a>(tile: &Tile<'a>, dart: TileDart, home: TileDart) -> Result<(), Finding<'a>>
    ensures { Finds result (unless (sign_of home.minus == sign_of dart.minus) (at_wing_of dart.tile tile.now 5 dart.edge dart.minus (DartSeen home)
        (WordSeen SeenWord.Sign))) }
{
    if home.minus == dart.minus {
        return Ok(());
    }
    let citation = wing_citation(dart.minus);
    let wanted = Seen::Word(SeenWord::Sign);
    Err(tile.finding(dart.tile, citation, 5, dart.edge, Seen::Dart(home), wanted))
}

/// Whether an edge and an edge of another tile, by their darts, are both lines between tiles, or neither is: their marks are the same then,
/// since each is 0 or 1.
fn have_same_mark(
    coverage: &Coverage<'_>,
    tile: &Tile<'_>,
    dart: TileDart,
    there: &Tile<'_>,
    home: TileDart,
) -> bool
    requires tile { tile_at coverage.now dart.tile ≡ Some tile.now }
    requires row { IsRowOf (length (primitives_of tile.now.tables).edges) dart.edge }
    requires there { tile_at coverage.now home.tile ≡ Some there.now }
    requires row_there { IsRowOf (length (primitives_of there.now.tables).edges) home.edge }
    ensures { result ≡ option_eq nat_eq (kth (primitives_of tile.now.tables).edges dart.edge absent_edge).mark
        (kth (primitives_of there.now.tables).edges home.edge absent_edge).mark }
{
    coverage.numbers_hold();
    numbers_decide();
    tile.edge(dart.edge).line == there.edge(home.edge).line
}

/// The edge of the home copy has the mark of the dart's edge.
fn check_mark<'a>(
    coverage: &Coverage<'a>,
    tile: &Tile<'a>,
    dart: TileDart,
    home: TileDart,
) -> Result<(), Finding<'a>>
    requires tile { tile_at coverage.now dart.tile ≡ Some tile.now }
    requires row { IsRowOf (length (primitives_of tile.now.tables).edges) dart.edge }
    requires copy { tile_dart_code home ≡ home_copy (coverage_links coverage.now) (tile_dart_code dart) }
    requires home { IsDartIn coverage.now home }
    ensures { Finds result (home_mark_line coverage.now dart.tile tile.now dart.edge dart.minus) }
{
    let there = tile_of(coverage, home);
    if have_same_mark(coverage, tile, dart, there, home) {
        return Ok(());
    }
    let found = tile.seen(Citation::TileLine, dart.edge);
    let wanted = there.seen(Citation::TileLine, home.edge);
    Err(tile.finding(dart.tile, Citation::TileLine, 5, dart.edge, found, wanted))
}

/// The edge of the home copy carries what the dart's edge does.
fn check_cells<'a>(
    coverage: &Coverage<'a>,
    tile: &Tile<'a>,
    dart: TileDart,
    home: TileDart,
) -> Result<(), Finding<'a>>
    requires tile { tile_at coverage.now dart.tile ≡ Some tile.now }
    requires row { IsRowOf (length (primitives_of tile.now.tables).edges) dart.edge }
    requires copy { tile_dart_code home ≡ home_copy (coverage_links coverage.now) (tile_dart_code dart) }
    requires home { IsDartIn coverage.now home }
    ensures { Finds result (home_carried_line (coverage_links coverage.now) dart.tile tile.now dart.edge dart.minus) }
{
    let there = tile_of(coverage, home);
    match edge_difference(tile, dart.edge, there, home.edge) {
        None => Ok(()),
        Some(found) => {
            let at = table_at(tile, dart.tile, TableName::Edg);
            Err(at.finding(5, dart.edge, found.column, found.here, found.there))
        }
    }
}

/// The home copy of an outside dart is of one edge with it.
fn check_home<'a>(
    followed: &Followed<'_, 'a>,
    tile: &Tile<'a>,
    dart: TileDart,
) -> Result<(), Finding<'a>>
    requires dart { IsDartIn followed.now dart }
    requires tile { tile_at followed.now dart.tile ≡ Some tile.now }
    requires row { IsRowOf (length (primitives_of tile.now.tables).edges) dart.edge }
    ensures { Finds result (home_lines followed.now dart.tile tile.now dart.edge dart.minus) }
{
    let home = followed.home_copy(dart);
    let coverage = followed.coverage();
    check_flip(followed, tile, dart, home)?;
    check_sign(tile, dart, home)?;
    check_mark(coverage, tile, dart, home)?;
    check_cells(coverage, tile, dart, home)
}

/// The same, where the dart is an outside dart.
fn check_copy<'a>(
    followed: &Followed<'_, 'a>,
    tile: &Tile<'a>,
    dart: TileDart,
) -> Result<(), Finding<'a>>
    requires dart { IsDartIn followed.now dart }
    requires tile { tile_at followed.now dart.tile ≡ Some tile.now }
    requires row { IsRowOf (length (primitives_of tile.now.tables).edges) dart.edge }
    ensures { Finds result (outside_lines followed.now dart.tile tile.now dart.edge dart.minus) }
{
    if is_outside(followed.coverage(), dart) {
        check_home(followed, tile, dart)
    } else {
        Ok(())
    }
}

/// The same of both darts of edge `k`.
fn check_copies<'a>(
    followed: &Followed<'_, 'a>,
    number: u32,
    tile: &Tile<'a>,
    k: u32,
) -> Result<(), Finding<'a>>
    requires tile { tile_at followed.now number ≡ Some tile.now }
    requires row { IsRowOf (length (primitives_of tile.now.tables).edges) k }
    ensures { Finds result (copies_lines followed.now number tile.now k) }
{
    let plus = TileDart {
        tile: number,
        edge: k,
        minus: false,
    };
    check_copy(followed, tile, plus)?;
    check_copy(followed, tile, plus.flip())
}

/// The home copy of each outside dart of the tile of this number is of one edge with it (MIL-STD-2407, 5.2.3, cross-tile topology): the home
/// copy of the home copy's other dart is the other dart, and the home copy has the same sign, the same mark and the same cells in the columns
/// without a role. The first that differs is the finding, edge by edge, `+` before `-`. It takes no memory.
#[tactic(auto, using(crate::proofs::LoopLemmas::edge_rules))]
pub fn check_homes<'a>(
    followed: &Followed<'_, 'a>,
    number: u32,
    tile: &Tile<'a>,
) -> Result<(), Finding<'a>>
    requires { tile_at followed.now number ≡ Some tile.now }
    ensures { Finds result (homes_finding followed.now number tile.now) }
{
    for k in 0..tile.edges() {
        check_copies(followed, number, tile, k + 1)?;
    }
    Ok(())
}
