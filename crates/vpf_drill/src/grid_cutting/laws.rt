//! What is so of the library of the grid of n by n cells that is read to be cut into tiles.

ghost use Rattle.vpf_drill.specs.GridCutting.Held.{GridHoldsBytes, GridIsMade, OutIsEmpty};
ghost use Rattle.vpf_drill.specs.Inner.GridCutting.Plans.{GridIsTileable, GridServes, PlanNamesTiles, RowsAreTiles};
ghost use Rattle.vpf_drill.specs.GridCutting.Reading.{GridHasTables, GridIsAsked, GridIsReadToCut, GridIsUnfound, GridPartsAreUnfound};

use crate::grid_agreement::laws::grid_agrees;
use vpf_cross::laws::agreement_decides;
use vpf_library_files::tileref::laws::stops_decide;
use vpf_numbers::laws::numbers_decide;
use vpf_tiling::tileable::laws::refusals_decide;
use vpf_vectors::cells::laws as grids;
use vpf_vectors::grid_coverage::laws::grid_is_well_formed;
use vpf_vectors::laws as vectors;

/// Nothing is found in the coverage of the grid, since it agrees, nor in all that is read to cut it, since it has no features.
pub fn grid_is_unfound()
    ensures coverage { GridIsUnfound }
    ensures parts { GridPartsAreUnfound }
{
    numbers_decide();
    agreement_decides();
    grid_agrees();
}

/// The plan of the grid of an even number of cells a side names its home tile for each face but the universe. Nothing speaks against it, and the
/// grid may be cut by it into as many tiles as its table of tiles has rows.
pub fn grid_serves()
    ensures names { PlanNamesTiles }
    ensures rows { RowsAreTiles }
    ensures serves { GridServes }
    ensures tileable { GridIsTileable }
{
    refusals_decide();
    grids::nexts_are_a_map();
    grids::tiles_of_the_grid();
    grid_is_well_formed();
    vectors::tables_say_grid();
}

/// Once the files of the grid are made in a tree that held none, it holds bytes, and nothing in the folder of the tiled library.
pub fn grid_is_held()
    ensures made { GridIsMade }
    ensures empty { OutIsEmpty }
    ensures bytes { GridHoldsBytes }
{}

/// These files are read as the coverage of the grid with its table of tiles and its plan, where the words of a request ask for that.
pub fn grid_is_read_to_cut()
    ensures asked { GridIsAsked }
    ensures read { GridIsReadToCut }
    ensures tables { GridHasTables }
{
    stops_decide();
    vectors::grid_is_read();
}
