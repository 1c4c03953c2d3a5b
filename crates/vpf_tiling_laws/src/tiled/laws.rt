//! What is so of every coverage that may be tiled, and of every plan.

ghost use Rattle.vpf_tiling_laws.specs.Inner.Tiled.Example.{IsTiled, IsTraced, coverage, plan};
ghost use Rattle.vpf_tiling.specs.Plans.{IsTileable};
ghost use Rattle.vpf_tiling_laws.specs.Inner.Tiled.Laws.{CyclesAreNamed, FollowingIsNext, HomeIsName};
ghost use Rattle.vpf_tiling_laws.specs.Inner.Tiled.Laws.{ListingIsNamed, MapIsNamed, TiledAgrees, TileNextIsFirstPresent};

use vpf_darts::laws::{
    darts_lie_on_cycles, first_kept_dart, removal_leaves_a_map, renaming_keeps_cycles,
};
use vpf_wing::laws::{cycles_decide, loops_decide, well_formed_has_map};

/// The tiles of an example, and what a trace of it goes by.
pub fn example_of_tiling()
    ensures tiles { IsTiled }
    ensures trace { IsTraced }
{}

/// The example may be tiled by its plan, so what the laws below ask for can be met.
pub fn example_may_be_tiled()
    ensures { IsTileable coverage plan 2 }
{
    loops_decide();
    cycles_decide();
}

/// Each copy of a dart is followed by the home copy of the dart's next, and the next edge in a tile is the first that is present there
/// among the next, the one after it round the node, and so on.
pub fn following_is_next()
    ensures next { FollowingIsNext }
    ensures first { TileNextIsFirstPresent }
{
    first_kept_dart();
    well_formed_has_map();
}

/// The home copy of each copy of a dart is the dart's name.
pub fn home_is_name()
    ensures { HomeIsName }
{
    first_kept_dart();
    well_formed_has_map();
}

/// The map of the tiled library is the coverage's map with each dart called by its name.
pub fn map_is_named()
    ensures { MapIsNamed }
{
    first_kept_dart();
    well_formed_has_map();
}

/// The boundary cycles of the tiled library, lines between tiles passed over, are those of the coverage, lines passed over, with each dart
/// called by its name; and so is their listing.
pub fn listing_is_named()
    ensures cycles { CyclesAreNamed }
    ensures listing { ListingIsNamed }
{
    first_kept_dart();
    well_formed_has_map();
    removal_leaves_a_map();
    renaming_keeps_cycles();
}

/// The tiled library of a well-formed coverage agrees, where each face but the universe has a tile, no edge has the universe on both sides,
/// and no entity node lies in the universe.
pub fn tiled_agrees()
    ensures { TiledAgrees }
{
    first_kept_dart();
    well_formed_has_map();
    removal_leaves_a_map();
    darts_lie_on_cycles();
}
