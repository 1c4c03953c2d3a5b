//! The first finding on a reference or a mark of a row.

ghost use Rattle.std.specs.Prelude.{◌≡◌, ◌&&◌, IfOk, length};
ghost use Rattle.vpf_value.specs.Values.{view};
ghost use Rattle.vpf_findings.specs.Findings.{disagreement_of};
ghost use Rattle.vpf_findings.specs.Firsts.{Finds};
ghost use Rattle.vpf_prims.specs.Columns.{IsWithin, role_at};
ghost use Rattle.vpf_prims.specs.Edges.{reference_at};
ghost use Rattle.vpf_prims.specs.References.{cell_at, is_line, reference_in};
ghost use Rattle.vpf_numbers.specs.RowLines.{face_lines, is_first, mark_line, plain_wanted, reference_lines};
ghost use Rattle.vpf_numbers.specs.Inner.Beyond.{beyond_there, named_cross_lines};

use crate::around::Around;
use vpf_findings::{Finding, Seen, SeenWord, TableName};
use vpf_prims::{
    RoleColumn, TableAt, cell_at, cell_finding, is_from, is_line, next_cell, number_in,
    number_in_cell, reference_in, stays,
};
use vpf_table::{RowView, RowWalk};
use vpf_triplet::Triplet;
use vpf_value::Cell;

/// A reference in row `k` stays within its tile, and has a number there, one of `low` to `last`.
pub(crate) fn check_reference<'a>(
    at: TableAt,
    low: u32,
    last: u32,
    k: u32,
    column: &RoleColumn<'a>,
    row: &RowView<'_, 'a>,
) -> Result<(), Finding<'a>>
    requires { IsWithin (length row.now) (role_at column.now) }
    ensures { Finds result (reference_lines at low last k (role_at column.now) row.now) }
{
    let cell = cell_at(row, column);
    number_in_cell(at, low, last, k, column, cell)?;
    if stays(reference_in(cell)) {
        return Ok(());
    }
    Err(cell_finding(at, k, column, cell, Seen::Word(SeenWord::Plain)))
}

/// Whether the mark in row `k` says that it is a line between tiles: it is 0 or 1, where there is a column of marks.
pub(crate) fn check_mark<'a>(
    at: TableAt,
    k: u32,
    column: &RoleColumn<'a>,
    row: &mut RowWalk<'_, 'a>,
) -> Result<bool, Finding<'a>>
    requires { IsWithin (length row.old) (role_at column.now) }
    ensures first { Finds result (mark_line at k (role_at column.now) row.old) }
    ensures line { IfOk result (λ line. line ≡ is_line (cell_at row.old (role_at column.now).place)) }
    ensures same { row.new ≡ row.old }
{
    if column.place.is_none() {
        return Ok(false);
    }
    let cell = next_cell(row, column);
    if is_from(0, 1, number_in(cell)) {
        return Ok(is_line(cell));
    }
    Err(cell_finding(at, k, column, cell, Seen::Range(0, 1)))
}

/// The parts of another tile in a cell of row `k`: both or none, and both only where they may be there. They name another tile that has
/// tables, and one of its rows from `low` on, of which it has so many.
fn check_beyond<'a>(
    at: TableAt,
    there: Option<u32>,
    low: u32,
    k: u32,
    column: &RoleColumn<'a>,
    cell: Cell<'a>,
    allowed: bool,
) -> Result<(), Finding<'a>>
    ensures { Finds result (beyond_there at there low k (role_at column.now) (view cell.entry) allowed (reference_in (view cell.entry)).tile
        (reference_in (view cell.entry)).ext) }
{
    let reference = reference_in(cell);
    let (Some(tile), Some(_)) = (reference.tile, reference.ext) else {
        if stays(reference) {
            return Ok(());
        }
        return Err(cell_finding(at, k, column, cell, Seen::Word(SeenWord::Plain)));
    };
    if !allowed {
        return Err(cell_finding(at, k, column, cell, Seen::Word(SeenWord::Plain)));
    }
    let rows = match there {
        Some(rows) if tile != at.tile => rows,
        _ => return Err(cell_finding(at, k, column, cell, Seen::Word(SeenWord::Tile))),
    };
    if is_from(low, rows, reference.ext) {
        return Ok(());
    }
    Err(cell_finding(at, k, column, cell, Seen::Range(low, rows)))
}

/// The reference in row `k`, which has a number here, one of 1 to `last`, and may go on in another tile, to a row of its table of this name.
pub(crate) fn check_cross<'a>(
    at: TableAt,
    around: &Around<'_, 'a>,
    name: TableName,
    last: u32,
    k: u32,
    column: &RoleColumn<'a>,
    row: &mut RowWalk<'_, 'a>,
) -> Result<Triplet, Finding<'a>>
    requires { IsWithin (length row.old) (role_at column.now) }
    ensures first { Finds result (named_cross_lines at around.now name last k (role_at column.now) row.old) }
    ensures reference { IfOk result (λ reference. reference ≡ reference_at (role_at column.now) row.old) }
    ensures same { row.new ≡ row.old }
{
    let cell = next_cell(row, column);
    number_in_cell(at, 1, last, k, column, cell)?;
    let reference = reference_in(cell);
    let there = around.rows(name, reference.tile);
    check_beyond(at, there, 1, k, column, cell, around.is_tiled())?;
    Ok(reference)
}

/// Whether the number of a reference is 1.
fn is_first(number: Option<u32>) -> bool
    ensures { result ≡ is_first number }
{
    match number {
        Some(n) => n == 1,
        None => false,
    }
}

/// The face in row `k`, which is one of 1 to `last` here. One of another tile is 1 here, and isn't the universe there.
pub(crate) fn check_face<'a>(
    at: TableAt,
    around: &Around<'_, 'a>,
    last: u32,
    k: u32,
    column: &RoleColumn<'a>,
    row: &mut RowWalk<'_, 'a>,
) -> Result<Triplet, Finding<'a>>
    requires { IsWithin (length row.old) (role_at column.now) }
    ensures first { Finds result (face_lines at around.now last k (role_at column.now) row.old) }
    ensures reference { IfOk result (λ reference. reference ≡ reference_at (role_at column.now) row.old) }
    ensures same { row.new ≡ row.old }
{
    let cell = next_cell(row, column);
    number_in_cell(at, 1, last, k, column, cell)?;
    let reference = reference_in(cell);
    let there = around.rows(TableName::Fac, reference.tile);
    let allowed = around.is_tiled() && is_first(reference.id);
    check_beyond(at, there, 2, k, column, cell, allowed)?;
    Ok(reference)
}
