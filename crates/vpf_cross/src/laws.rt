//! What is so of every tiled library.

ghost use Rattle.vpf_cross.specs.Inner.Example.{TilesAreFound};
ghost use Rattle.vpf_cross.specs.Inner.Laws.{AgreeingHasMap, AgreementDecides, CarriedDecides, CopiesAreOne, FlipsGiveCopies};
ghost use Rattle.vpf_cross.specs.Inner.Laws.{HomesDecide, HomesFlipBack, InhabitedDecides, LikeAreWhole, RoundsDecide};

use vpf_darts::laws::darts_lie_on_cycles;
use vpf_follow::laws::{followers_decide, homes_exist, sides_decide, tile_loops_decide};
use vpf_wing::laws::cycles_decide;

/// In an example of two tiles nothing disagrees, and a line between them that isn't marked in one of them is found.
pub fn example_of_tiles()
    ensures { TilesAreFound }
{}

/// A tiled library that agrees is a combinatorial map: its darts are the home darts, each goes on to the one that follows it, and the
/// other dart of its edge is the home copy of the other dart in its tile.
pub fn agreeing_has_map()
    ensures { AgreeingHasMap }
{
    homes_exist();
}

/// Where each dart has a home copy, there is no finding on home copies exactly where each outside dart is of one edge with its own.
pub fn homes_decide()
    ensures { HomesDecide }
{
    homes_exist();
}

/// Where there is no finding on home copies, those of both darts of an outside dart's edge are of one edge.
pub fn homes_flip_back()
    ensures { HomesFlipBack }
{}

/// Where the numbers, the sides and the home copies of a coverage are right, no dart has two copies in a tile.
pub fn copies_are_one()
    ensures { CopiesAreOne }
{
    homes_exist();
}

/// Then the copy of a home dart in a tile is the dart itself, or else the other dart of the home copy of its own other dart, where that is
/// in the tile and has the home dart as its home copy.
pub fn flips_give_copies()
    ensures { FlipsGiveCopies }
{
    homes_exist();
}

/// There is no finding on carried cells exactly where a node carries the same wherever it is named, and so does the universe.
pub fn carried_decides()
    ensures { CarriedDecides }
{}

/// There is no finding on entity nodes exactly where each lies in a face of its tile.
pub fn inhabited_decides()
    ensures { InhabitedDecides }
{}

/// Where the numbers, the cycles, the sides and the home copies are right, there is no finding on turning exactly where the next of each
/// dart in its tile is the copy there of the first that has one among the darts that follow it round the node.
pub fn rounds_decide()
    ensures { RoundsDecide }
{
    darts_lie_on_cycles();
    homes_exist();
}

/// Where the numbers of a coverage are right, there is no finding on its topology exactly where it agrees: its loops and the cycles of its
/// tiles, and where it is tiled the tiles with each other.
pub fn agreement_decides()
    ensures { AgreementDecides }
{
    cycles_decide();
    tile_loops_decide();
    sides_decide();
    followers_decide();
    homes_exist();
    darts_lie_on_cycles();
}

/// Tiles of a library that have the columns of the first carry as many columns without a role.
pub fn like_tiles_are_whole()
    ensures { LikeAreWhole }
{}
