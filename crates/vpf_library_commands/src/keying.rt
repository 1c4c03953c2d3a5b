//! The class whose features are joined to primitives by these' numbers.

ghost use Rattle.std.specs.Prelude.{◌≡◌, IfOk, map};
ghost use Rattle.vpf_feature_files.specs.SchemaRows.Joins.{join_of};
ghost use Rattle.vpf_feature_files.specs.Schemas.{joins_of};
ghost use Rattle.vpf_replies.specs.Answer.{refused};
ghost use Rattle.vpf_library_commands.specs.Keys.{class_in_row, keyed_text};

use std::alloc::{AllocError, Global};
use vpf_feature_files::schema_rows::{ItemName, SchemaRow};
use vpf_features::Schema;
use vpf_findings::text::put_printed;
use vpf_replies::{Reply, Verdict};

/// The class in this one of the rows, counted from 1; an empty name where there is no such row.
fn class_in_row<'a>(rows: &[SchemaRow<'a>], row: u32) -> ItemName<'a>
    ensures { result.text.now ≡ class_in_row (map join_of rows.now) row }
{
    match rows.get(row.saturating_sub(1) as usize) {
        Some(row) => row.class,
        None => ItemName { text: b"" },
    }
}

/// The reply where a coverage isn't cut into tiles since features of this class are joined by numbers.
fn keyed_class(alloc: Global, class: ItemName<'_>) -> Result<Reply, AllocError>
    ensures { IfOk result (λ reply. reply ≡ refused (keyed_text class.entry.text.now)) }
{
    let name = class.name(alloc)?;
    let mut text = String::from_str(alloc, "refused key-in-table ")?;
    put_printed(&mut text, &name)?;
    text.push_str("\n")?;
    Ok(Reply::new(alloc, Verdict::Refused, text))
}

/// The reply where a coverage isn't cut into tiles since this row of its schema table, counted from 1, joins features by numbers.
pub(crate) fn keyed(alloc: Global, schema: &Schema<'_>, row: u32) -> Result<Reply, AllocError>
    ensures { IfOk result (λ reply. reply ≡ refused (keyed_text (class_in_row (joins_of schema.now.fcs) row))) }
{
    let rows = schema.rows(alloc)?;
    keyed_class(alloc, class_in_row(&rows, row))
}
