//! What is so of the rows of every edge table.

ghost use Rattle.vpf_prims.specs.Inner.Laws.{RowsHaveWings};

/// Rows without findings have wings among the edges.
pub fn rows_have_wings()
    ensures { RowsHaveWings }
{}
