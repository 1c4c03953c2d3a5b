//! Features that are joined to primitives by these' numbers (MIL-STD-2407, 5.2.3, feature classes).

ghost use Rattle.std.specs.Prelude.{◌≡◌, ◌<◌, ◌^◌, IfOk, IfSome, length, map, position};
ghost use Rattle.vpf_feature_files.specs.SchemaRows.Joins.{join_of};
ghost use Rattle.vpf_feature_files.specs.Schemas.{joins_of};
ghost use Rattle.vpf_feature_writing.specs.Keys.{by_number, joins_by_number, numbered_row};

use std::alloc::{AllocError, Global};
use vpf_feature_files::schema_rows::{ItemName, SchemaRow};
use vpf_features::Schema;

/// Whether the first item names a table of features and the second one of primitives, whose key is their number.
fn is_by_number(features: &ItemName<'_>, primitives: &ItemName<'_>, key: &ItemName<'_>) -> bool
    ensures { result ≡ by_number features.now.text.now primitives.now.text.now key.now.text.now }
{
    features.is_feature_table()
        && primitives.primitive().is_some()
        && *key == ItemName { text: b"id" }
}

/// Whether a row joins features to primitives by these' numbers, either way round.
fn joins_by_number(row: &SchemaRow<'_>) -> bool
    ensures { result ≡ joins_by_number (join_of row.now) }
{
    is_by_number(&row.table1, &row.table2, &row.key2)
        || is_by_number(&row.table2, &row.table1, &row.key1)
}

/// The place, from 0, of the first of these rows that joins so.
fn first_place(rows: &[SchemaRow<'_>]) -> Option<usize>
    ensures value { result ≡ position (λ row. joins_by_number (join_of row)) rows.now }
    ensures within { IfSome result (λ place. place < length rows.now) }
{
    rows.iter().position(|row| joins_by_number(row))
}

/// The number, from 1, of the first of these rows that joins so.
fn first_row(rows: &[SchemaRow<'_>]) -> Option<u32>
    requires { length rows.now < 2 ^ 31 }
    ensures { result ≡ numbered_row (map join_of rows.now) }
{
    match first_place(rows) {
        Some(place) => Some(place as u32 + 1),
        None => None,
    }
}

/// The number, from 1, of the first row of the schema table that joins a table of features to one of primitives by these' numbers, whichever of the
/// two it names first; or nothing where no row does (MIL-STD-2407, 5.2.3, feature classes). Fails only for want of memory: a row takes some.
pub fn numbered_row(alloc: Global, schema: &Schema<'_>) -> Result<Option<u32>, AllocError>
    ensures { IfOk result (λ row. row ≡ numbered_row (joins_of schema.now.fcs)) }
{
    let rows = schema.rows(alloc)?;
    Ok(first_row(&rows))
}
