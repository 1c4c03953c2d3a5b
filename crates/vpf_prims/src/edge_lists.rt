//! The edges of a table, all at once.

ghost use Rattle.std.specs.Prelude.{◌≡◌, IfOk, length, map};
ghost use Rattle.vpf_prims.specs.Edges.{AreWithin, edge_of, edge_row, own_numbers};

use crate::edges::EdgeColumns;
use crate::rows::{Edge, EdgeRow};
use std::alloc::{AllocError, Global};
use vpf_table::TableView;

/// What the rows of a table of edges say, in their order.
pub(crate) fn rows_of<'a>(
    alloc: Global,
    columns: &EdgeColumns<'a>,
    table: &TableView<'a>,
) -> Result<Vec<EdgeRow>, AllocError>
    requires { AreWithin (length table.now.head.columns) columns.now }
    ensures { IfOk result (λ rows. rows.items ≡ map (edge_row columns.now) table.now.rows) }
{
    let mut rows = Vec::with_capacity(alloc, table.len() as usize)?;
    for row in table.rows() {
        rows.push(columns.row(&row))?;
    }
    Ok(rows)
}

/// The edges of a table by their numbers, in the order of their rows.
pub(crate) fn numbers_of<'a>(
    alloc: Global,
    columns: &EdgeColumns<'a>,
    table: &TableView<'a>,
) -> Result<Vec<Edge>, AllocError>
    requires { AreWithin (length table.now.head.columns) columns.now }
    ensures { IfOk result (λ edges. edges.items ≡ map (edge_of columns.now) table.now.rows) }
{
    let mut edges = Vec::with_capacity(alloc, table.len() as usize)?;
    for row in table.rows() {
        edges.push(columns.numbers(&row))?;
    }
    Ok(edges)
}

/// The edges by their numbers, of what rows say.
pub(crate) fn numbers_in(alloc: Global, rows: &[EdgeRow]) -> Result<Vec<Edge>, AllocError>
    ensures { IfOk result (λ edges. edges.items ≡ map own_numbers rows.now) }
{
    let mut edges = Vec::with_capacity(alloc, rows.len())?;
    for row in rows {
        edges.push(Edge::from(*row))?;
    }
    Ok(edges)
}
