//! How many edges a coverage has in all its tiles.

ghost use Rattle.std.specs.Prelude.{◌≡◌, ◌≤◌, ◌^◌, length};
ghost use Rattle.vpf_prims.specs.Libraries.{library_of};
ghost use Rattle.vpf_prims.specs.Primitives.{edge_count};
ghost use Rattle.vpf_tiling_laws.specs.Gluing.Glued.{plus_darts};
ghost use Rattle.vpf_tiling_laws.specs.Gluing.Whole.{whole_of};
ghost use Rattle.vpf_wing.specs.Links.{row_darts};
ghost use Rattle.vpf_renumbering.specs.Inner.GluedEdges.Counting.{plus_count};

use crate::whole::edges_of;
use vpf_coverage::Coverage;
use vpf_cross::Checked;
use vpf_darts::TileDart;
use vpf_follow::is_home;

/// How many edges of a tile have a home dart there that is the `+` dart.
fn home_edges(coverage: &Coverage<'_>, number: u32) -> u64
    ensures count { result ≡ plus_count (library_of coverage.now) (row_darts number (edge_count (library_of coverage.now) number)) }
    ensures few { result ≤ 2 ^ 24 }
{
    let mut count: u64 = 0;
    for k in 0..edges_of(coverage, number) {
        let plus = TileDart {
            tile: number,
            edge: k + 1,
            minus: false,
        };
        if is_home(coverage, plus) {
            count += 1;
        }
    }
    count
}

/// How many edges a checked coverage has in all its tiles, an edge that several tiles have counted once. Each edge of a tile is looked at once, and
/// no memory is taken.
pub fn edge_count(checked: &Checked<'_, '_>) -> u64
    ensures { result ≡ length (plus_darts (whole_of (library_of checked.now))) }
{
    let coverage = checked.coverage();
    let mut count: u64 = 0;
    for number in 0..=coverage.tiles() {
        count += home_edges(coverage, number);
    }
    count
}
