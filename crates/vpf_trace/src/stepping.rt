//! The dart that comes next, past the lines between tiles.

ghost use Rattle.std.proofs.Props.{props};
ghost use Rattle.std.specs.Prelude.{◌≡◌, true};
ghost use Rattle.vpf_darts.specs.Darts.{tile_dart_code};
ghost use Rattle.vpf_prims.specs.Libraries.{library_of};
ghost use Rattle.vpf_trace.specs.Tracing.{IsTraceable, LinesAreMarked, is_kept, is_on_line, traced_map};

use vpf_coverage::Coverage;
use vpf_cross::Checked;
use vpf_cross::follow::follow;
use vpf_cross::follow::laws::{followers_decide, homes_exist};
use vpf_cross::laws::homes_flip_back;
use vpf_darts::{TileDart, Walk, next_kept};
use vpf_numbers::laws::numbers_decide;
use vpf_wing::laws::cycles_decide;

/// Whether the edge of a dart is a line between tiles.
pub(crate) fn is_on_line(coverage: &Coverage<'_>, dart: TileDart) -> bool
    ensures { result ≡ is_on_line (library_of coverage.now) (tile_dart_code dart) }
{
    match coverage.tile(dart.tile) {
        Some(tile) if 1 <= dart.edge && dart.edge <= tile.edges() => tile.edge(dart.edge).line,
        _ => false,
    }
}

/// What is so of each checked coverage: its darts can be traced.
pub(crate) fn walks_pass_lines(checked: &Checked<'_, '_>)
    ensures { IsTraceable (library_of checked.now) }
{
    let coverage = checked.coverage();
    coverage.tiles_make_library();
    coverage.numbers_hold();
    checked.topology_holds();
    numbers_decide();
    cycles_decide();
    followers_decide();
    homes_flip_back();
}

/// The walk over the darts of a checked coverage that passes over its lines between tiles.
#[derive(Drop)]
pub(crate) struct PastLines<'w, 'c, 'a> {
    pub(crate) checked: &'w Checked<'c, 'a>,
    ghost traceable: { IsTraceable (library_of checked.now) } by { Prim.hlevel props },
    ghost lines: { LinesAreMarked (library_of checked.now) } by { Prim.hlevel props },
}

impl Walk for PastLines<'_, '_, '_> {
    ghost use Rattle.vpf_prims.specs.Libraries.{library_of};
    ghost use Rattle.vpf_trace.specs.Tracing.{map_of_library, tile_lines};

    ghost map = { λ w. map_of_library (library_of w.checked.now) };

    ghost passed = { λ w. tile_lines (library_of w.checked.now) };

    fn next(&self, dart: TileDart) -> TileDart {
        match follow(self.checked.coverage(), dart) {
            Some(next) => next,
            None => unreachable!(),
        }
    }

    fn flip(&self, dart: TileDart) -> TileDart {
        match self.checked.followed() {
            Some(followed) => followed.home_copy(dart.flip()),
            None => dart.flip(),
        }
    }

    fn is_passed(&self, dart: TileDart) -> bool {
        is_on_line(self.checked.coverage(), dart)
    }
}

/// The dart that comes next round the face of a home dart, whose edge is no line between tiles: the next of the dart in the map of the library
/// without these lines, which is a home dart of an edge that is no line (MIL-STD-2407, 5.2.3, cross-tile topology).
///
/// It goes on from tile to tile by the external parts of triplets, and passes over lines one at a time: as many as meet at a node. It
/// reads the rows of each edge that it comes to, takes no memory and can't fail.
pub fn step(checked: &Checked<'_, '_>, dart: TileDart) -> TileDart
    requires { is_kept (library_of checked.now) (tile_dart_code dart) ≡ true }
    ensures next { tile_dart_code result ≡ (traced_map (library_of checked.now)).next (tile_dart_code dart) }
    ensures kept { is_kept (library_of checked.now) (tile_dart_code result) ≡ true }
{
    walks_pass_lines(checked);
    homes_exist();
    next_kept(&PastLines { checked }, dart)
}
