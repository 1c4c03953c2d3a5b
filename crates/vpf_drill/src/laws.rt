//! What is so of the grid, and of the answers of `drill`.

ghost use Rattle.vpf_drill.specs.Inner.Laws.{GridIsTiled, GridsAreSources, HasDrill, OneDrill};
ghost use Rattle.vpf_drill.specs.Request.{RequestsCanBeAsked};

use crate::grid_cutting::laws::{grid_is_held, grid_is_read_to_cut, grid_is_unfound, grid_serves};
use crate::tiled_sizes::laws::grid_is_small;
use vpf_library_commands::laws::check_decides_agreement;
use vpf_library_commands::tile_theorem::tilings::laws::{
    none_is_lacked, requests_have_names, sources_are_cut, tiles_are_made, tilings_agree,
};
use vpf_library_commands::tiler::tiled_files::laws::names_differ;
use vpf_library_commands::vpf_trace::laws::one_trace;
use vpf_library_files::loading::laws::coverages_are_held;
use vpf_library_files::tileref::laws::stops_decide;
use vpf_table::laws::opened_is_read;
use vpf_vectors::laws::tables_say_grid;

/// The coverage of each grid that can be asked for is read, what `tile` makes of it is read, and nothing is found in either. It meets all that is asked of
/// what is cut.
pub fn grid_is_tiled()
    ensures tiled { GridIsTiled }
    ensures source { GridsAreSources }
{
    opened_is_read();
    stops_decide();
    coverages_are_held();
    check_decides_agreement();
    tables_say_grid();
    grid_is_held();
    grid_is_read_to_cut();
    grid_is_unfound();
    grid_serves();
    grid_is_small();
    names_differ();
    requests_have_names();
    tiles_are_made();
    none_is_lacked();
    sources_are_cut();
    tilings_agree();
}

/// Each request of `drill` has exactly one answer.
pub fn one_drill()
    ensures some { HasDrill }
    ensures one { OneDrill }
{
    grid_is_tiled();
    one_trace();
}

/// Words of `drill` spell an even number from 2 to 200.
pub fn requests_can_be_asked()
    ensures { RequestsCanBeAsked }
{}
