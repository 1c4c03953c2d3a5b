//! What is so of the files of the tiled library of the grid.

ghost use Rattle.vpf_drill.specs.Inner.TiledSizes.Sizes.{GridIsLoaded, GridPassesNoLimit};

/// The tables of the tiled library of the grid of n by n cells, n at most 200, pass no limit, by whatever plan; and their files have no more bytes in
/// all than a run reads.
pub fn grid_is_small()
    ensures limits { GridPassesNoLimit }
    ensures bytes { GridIsLoaded }
{}
