//! What is so of the coverage of the grid of n by n cells.

ghost use Rattle.vpf_drill.specs.Inner.GridAgreement.Agreement.{GridHasColumns, GridAgrees, GridIsSaid};

/// The tables of the grid have the columns of a coverage; what their rows say is the grid, and that agrees.
pub fn grid_agrees()
    ensures columns { GridHasColumns }
    ensures rows { GridIsSaid }
    ensures agrees { GridAgrees }
{
    vpf_vectors::grid_coverage::laws::grid_is_well_formed();
    vpf_vectors::laws::tables_say_grid();
}
