//! Which rows of a table stand in an entry of a thematic index.

ghost use Rattle.std.specs.Prelude.{◌≡◌, ◌<◌, ◌+◌, ◌||◌, ◌==◌, ℕ, false, length, slice_index_or, IfOk};
ghost use Rattle.std.specs.List.{list_any};
ghost use Rattle.vpf_head.specs.Inner.Views.{col};
ghost use Rattle.vpf_theme.specs.Findings.{missing_line};
ghost use Rattle.vpf_findings.specs.Firsts.{Tells};
ghost use Rattle.vpf_theme.specs.Inner.Keeping.{HoldMarks};
ghost use Rattle.vpf_theme.specs.Entries.{AreRows};

use crate::hits::Hits;
use crate::reporting::finding;
use crate::view::ThemeView;
use std::alloc::{AllocError, Global};
use vpf_findings::FindError;
use vpf_head::Column;
use vpf_table::{Seen, SeenWord};

/// Marks the rows of an entry, whose numbers count from 1.
fn mark_rows(hits: Hits<'_>, marks: &mut [bool])
    requires { AreRows (length marks.old) hits.left }
    ensures { (k : ℕ) → k < length marks.old → slice_index_or marks.new k false
        ≡ (slice_index_or marks.old k false || list_any (λ row. row == k + 1) hits.entry.left) }
{
    for row in hits {
        marks[row as usize - 1] = true;
    }
}

/// Whether each row stands in an entry.
fn marks_of(alloc: Global, theme: &ThemeView<'_>) -> Result<Vec<bool>, AllocError>
    ensures { IfOk result (λ marks. HoldMarks theme.now.entries theme.now.rows marks.items) }
{
    let mut marks = vec![in alloc; false; theme.rows() as usize]?;
    for i in 0..theme.entries() {
        mark_rows(theme.hits(i), &mut marks);
    }
    Ok(marks)
}

/// Each row stands in an entry.
pub fn check_missing<'a>(
    alloc: Global,
    theme: &ThemeView<'a>,
    column: &Column<'a>,
) -> Result<(), FindError<'a>>
    ensures { Tells result (missing_line theme.now (col column.now) theme.now.rows) }
{
    let marks = marks_of(alloc, theme)?;
    for k in 0..marks.len() {
        if !marks[k] {
            let row = Seen::Number(k as i64 + 1);
            let missing = finding(0, column.name, Seen::Word(SeenWord::Absent), row);
            return Err(FindError::Finding(missing));
        }
    }
    Ok(())
}
