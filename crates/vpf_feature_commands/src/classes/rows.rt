//! The rows of a schema table that join the feature table of a class to primitives.

ghost use Rattle.std.specs.Prelude.{◌≡◌, filter, map};
ghost use Rattle.vpf_base.specs.Results.{Meets};
ghost use Rattle.vpf_feature_files.specs.SchemaRows.Items.{same_item};
ghost use Rattle.vpf_feature_files.specs.SchemaRows.Joins.{SchemaJoin, has_class, is_join, join_of};
ghost use Rattle.vpf_feature_commands.specs.Classes.Asking.{class_joins, of_first_table, unless_no_join};
ghost use Rattle.vpf_feature_commands.specs.Classes.Lacks.{lack_seen};

use crate::classes::errors::FeatureError;
use std::alloc::Global;
use vpf_feature_files::schema_rows::{ItemName, SchemaRow};
use vpf_features::Schema;

/// Keeps the rows of a class.
fn keep_class(rows: &mut Vec<SchemaRow<'_>>, class: &[u8])
    ensures { map join_of rows.new.items ≡ filter (has_class class.now) (map join_of rows.old.items) }
{
    rows.retain(|row| row.is_of(class));
}

/// Keeps the rows that join feature tables to primitives.
fn keep_joins(rows: &mut Vec<SchemaRow<'_>>)
    ensures { map join_of rows.new.items ≡ filter is_join (map join_of rows.old.items) }
{
    rows.retain(|row| row.is_join());
}

/// Keeps the rows whose first table this is.
fn keep_table(rows: &mut Vec<SchemaRow<'_>>, table: ItemName<'_>)
    ensures { map join_of rows.new.items
        ≡ filter (λ (other : SchemaJoin). same_item other.table1 table.entry.text.now) (map join_of rows.old.items) }
{
    rows.retain(|row| row.table1 == table);
}

/// Those of some joins that are of the feature table of the first.
fn of_first_table<'a>(mut rows: Vec<SchemaRow<'a>>) -> Result<Vec<SchemaRow<'a>>, FeatureError<'a>>
    ensures { Meets (λ rows. map join_of rows.items) lack_seen result (unless_no_join (map join_of rows.entry.items)) }
{
    let Some(first) = rows.first() else {
        return Err(FeatureError::NoTable);
    };
    let table = first.table1;
    keep_table(&mut rows, table);
    Ok(rows)
}

/// The rows that join the feature table of a class to primitives. That is the first table of the first row of the class that joins a feature table to
/// primitives; rows of other tables are passed over.
pub(crate) fn class_joins<'a>(
    alloc: Global,
    schema: &Schema<'a>,
    class: &[u8],
) -> Result<Vec<SchemaRow<'a>>, FeatureError<'a>>
    ensures { Meets (λ rows. map join_of rows.items) lack_seen result (class_joins schema.now class.now) }
{
    let mut rows = schema.rows(alloc)?;
    keep_class(&mut rows, class);
    if rows.is_empty() {
        return Err(FeatureError::NoClass);
    }
    keep_joins(&mut rows);
    of_first_table(rows)
}
