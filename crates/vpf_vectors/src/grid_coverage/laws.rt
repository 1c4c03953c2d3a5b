//! What is so of the grid of n by n cells as a coverage, for each n from 1 to 200.

ghost use Rattle.vpf_vectors.specs.Inner.GridCoverage.Laws.{GridIsWellFormed, GridIsLibrary, RowsSayNexts, RowsMakeMap, BoundariesAreListed};

/// The rows of the grid are a well-formed untiled coverage; the next that they say of each dart is that of the grid, so that their map is
/// the grid's, and the boundaries of its faces the listing.
pub fn grid_is_well_formed()
    ensures well_formed { GridIsWellFormed }
    ensures library { GridIsLibrary }
    ensures nexts { RowsSayNexts }
    ensures map { RowsMakeMap }
    ensures listing { BoundariesAreListed }
{
    crate::cells::laws::numbers_name();
    crate::cells::laws::darts_are_in_range();
    crate::cells::laws::nexts_are_a_map();
    crate::cells::laws::cycles_of_the_grid();
    crate::cells::laws::least_darts();
    crate::cells::laws::faces_are_listed();
}
