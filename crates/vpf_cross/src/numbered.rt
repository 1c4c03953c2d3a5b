//! What is so of the tiles of each coverage.

ghost use Rattle.vpf_follow.specs.Inner.Homes.{HasFewEdges};
ghost use Rattle.vpf_prims.specs.Libraries.{library_of};
ghost use Rattle.vpf_cross.specs.Inner.Copies.{FacesAreElsewhere};
ghost use Rattle.vpf_cross.specs.HomeLines.{coverage_links};

use vpf_follow::coverage::Coverage;
use vpf_numbers::laws::numbers_decide;

/// What is so of the tiles of each coverage, whose columns, ids and references are right: they have few edges, and a face of another tile
/// is in another tile.
pub fn tiles_are_numbered(coverage: &Coverage<'_>)
    ensures few { HasFewEdges (library_of coverage.now) }
    ensures elsewhere { FacesAreElsewhere (coverage_links coverage.now) }
{
    coverage.tiles_make_library();
    coverage.numbers_hold();
    numbers_decide();
}
