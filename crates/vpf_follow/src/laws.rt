//! What is so of the tiles of every coverage (MIL-STD-2407, 5.2.3, cross-tile topology).

ghost use Rattle.vpf_follow.specs.Inner.Laws.{FollowersAreHome, FollowersDecide, HomesExist, SidesDecide, TileLoopsDecide};

use vpf_darts::laws::darts_lie_on_cycles;

/// There is no finding on the sides of edges exactly where their faces, wings and nodes name tiles as they should.
pub fn sides_decide()
    ensures { SidesDecide }
{}

/// There is no finding on the loops of the tiles of a coverage exactly where they have two different faces.
pub fn tile_loops_decide()
    ensures { TileLoopsDecide }
{}

/// There is no finding on what follows darts exactly where a home dart follows each, and no two home darts are followed by the same.
pub fn followers_decide()
    ensures { FollowersDecide }
{}

/// What follows a dart is a home dart.
pub fn followers_are_home()
    ensures { FollowersAreHome }
{}

/// Where a home dart follows each dart, and no two home darts are followed by the same, each dart has a home copy: a home dart that is
/// followed by the same dart.
pub fn homes_exist()
    ensures { HomesExist }
{
    darts_lie_on_cycles();
}
