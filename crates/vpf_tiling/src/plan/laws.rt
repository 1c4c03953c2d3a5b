//! What is so of every plan.

ghost use Rattle.vpf_tiling.specs.Inner.Plan.Laws.{FirstRowNames, NoRowNames, PlansDecide};

/// There is no finding on a table exactly where it is a plan: its columns are there, and hold numbers.
pub fn plans_decide()
    ensures { PlansDecide }
{}

/// What a plan names for a face is the tile in the first row of the face, and nothing where there is no such row.
pub fn first_rows_name()
    ensures first { FirstRowNames }
    ensures none { NoRowNames }
{}
