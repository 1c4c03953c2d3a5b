//! What is counted of a coverage and of a listing.

ghost use Rattle.std.specs.Prelude.{◌≡◌, max};
ghost use Rattle.vpf_prims.specs.Coverages.{tile_at};
ghost use Rattle.vpf_prims.specs.Libraries.{library_of};
ghost use Rattle.vpf_prims.specs.Reading.{primitives_of};
ghost use Rattle.vpf_drill.specs.Counting.{dart_count, line_count, lines_in, longest};

use vpf_coverage::Coverage;
use vpf_darts::Listing;
use vpf_prims::Tile;

/// How many edges of a tile are lines between tiles.
fn lines_in(tile: &Tile<'_>) -> u32
    ensures { result ≡ lines_in (primitives_of tile.now.tables).edges }
{
    let mut lines = 0;
    for e in 0..tile.edges() {
        if tile.edge(e + 1).line {
            lines += 1;
        }
    }
    lines
}

/// How many edges of an untiled coverage are lines between tiles.
pub(crate) fn line_count(coverage: &Coverage<'_>) -> u32
    ensures { result ≡ line_count (library_of coverage.now) }
{
    match coverage.tile(0) {
        Some(tile) => lines_in(tile),
        None => 0,
    }
}

/// How many darts a listing has.
pub(crate) fn dart_count(listing: &Listing) -> u128
    ensures { result ≡ dart_count listing.now }
{
    let mut darts = 0;
    for i in 0..listing.len() {
        darts += listing.at(i).len() as u128;
    }
    darts
}

/// The greater of two numbers.
fn greater(a: usize, b: usize) -> usize
    ensures { result ≡ max a b }
{
    if a < b { b } else { a }
}

/// How many darts its longest cycle has.
pub(crate) fn longest(listing: &Listing) -> usize
    ensures { result ≡ longest listing.now }
{
    let mut most = 0;
    for i in 0..listing.len() {
        most = greater(most, listing.at(i).len());
    }
    most
}
