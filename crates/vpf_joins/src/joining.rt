//! The rows of a schema table, each with the index of the keys that it joins.

ghost use Rattle.std.specs.Prelude.{◌≡◌, ◌<◌, ◌++◌, IfOk, IfSome, OnOk, length, map};
ghost use Rattle.std.specs.List.{All, flat_map};
ghost use Rattle.vpf_table.specs.Grid.{Row};
ghost use Rattle.vpf_prims.specs.References.{cell_at};
ghost use Rattle.vpf_feature_files.specs.SchemaRows.Joins.{join_of};
ghost use Rattle.vpf_value.specs.Values.{view};
ghost use Rattle.vpf_joins.specs.Joining.{joined_by};
ghost use Rattle.vpf_joins.specs.Inner.Prepared.{IsKeyWithin, answer_of, answers_of};

use crate::features::Primitive;
use crate::keying::keys_over;
use crate::keys::KeyIndex;
use std::alloc::{AllocError, Global};
use vpf_coverage::Coverage;
use vpf_feature_files::schema_rows::SchemaRow;
use vpf_findings::TableName;
use vpf_head::Header;
use vpf_source::names::trimmed;
use vpf_table::RowView;
use vpf_value::Cell;

/// A row of a schema table that joins a table of primitives, over all tiles, to a feature table.
#[derive(Drop)]
pub(crate) struct Join<'a> {
    /// Where the key column stands in the feature table, if it is there.
    place: Option<usize>,
    /// The table of primitives.
    table: TableName,
    /// Its rows by their keys.
    index: KeyIndex<'a>,
}

/// Puts a row of a schema table behind those that are there, if it joins a table of primitives. `header` is that of the feature table.
fn put_join<'a>(
    alloc: Global,
    coverage: &Coverage<'a>,
    header: &Header<'_>,
    said: &SchemaRow<'_>,
    joins: &mut Vec<Join<'a>>,
) -> Result<(), AllocError>
    requires { All (IsKeyWithin (length header.now.columns)) joins.old.items }
    ensures within { OnOk result (All (IsKeyWithin (length header.now.columns)) joins.new.items) }
    ensures answers { OnOk result ((row : Row) → answers_of joins.new.items row
        ≡ answers_of joins.old.items row ++ joined_by coverage.now header.now.columns row (join_of said.now)) }
{
    let Some(table) = said.table2.primitive() else {
        return Ok(());
    };
    let keys = keys_over(alloc, coverage, table, said.key2.text)?;
    let index = KeyIndex::of(keys)?;
    let place = header.column(trimmed(said.key1.text));
    joins.push(Join {
        place,
        table,
        index,
    })?;
    Ok(())
}

/// The rows of a schema table that join tables of primitives, in their order. Each row of these tables is read once for each row of the schema table that
/// names its table.
pub(crate) fn prepare<'a>(
    alloc: Global,
    coverage: &Coverage<'a>,
    header: &Header<'_>,
    rows: &[SchemaRow<'_>],
) -> Result<Vec<Join<'a>>, AllocError>
    ensures within { IfOk result (λ joins. All (IsKeyWithin (length header.now.columns)) joins.items) }
    ensures answers { IfOk result (λ joins. (row : Row) → answers_of joins.items row
        ≡ flat_map (joined_by coverage.now header.now.columns row) (map join_of rows.now)) }
{
    let mut joins = Vec::new(alloc);
    for said in rows {
        put_join(alloc, coverage, header, said, &mut joins)?;
    }
    Ok(joins)
}

/// The cell of a row at a place, none where there is no such column.
fn key_of<'a>(row: &RowView<'_, 'a>, place: Option<usize>) -> Cell<'a>
    requires { IfSome place (λ c. c < length row.now) }
    ensures { view result ≡ cell_at row.now place }
{
    match place {
        Some(c) => row.cell(c),
        None => Cell::Null,
    }
}

/// Puts the primitives that one row of the schema table joins to the feature in a row behind those that are there.
fn put_joined(
    join: &Join<'_>,
    row: &RowView<'_, '_>,
    primitives: &mut Vec<Primitive>,
) -> Result<(), AllocError>
    requires { IsKeyWithin (length row.now) join.now }
    ensures { OnOk result (primitives.new.items ≡ primitives.old.items ++ answer_of row.now join.now) }
{
    let key = key_of(row, join.place);
    for keyed in join.index.rows(&key) {
        primitives.push(Primitive {
            tile: keyed.at.tile,
            table: join.table,
            row: keyed.at.row,
        })?;
    }
    Ok(())
}

/// The primitives that rows of the schema table join to the feature in a row. Each of them is looked up by two binary searches.
pub(crate) fn joined(
    alloc: Global,
    joins: &[Join<'_>],
    row: &RowView<'_, '_>,
) -> Result<Vec<Primitive>, AllocError>
    requires { All (IsKeyWithin (length row.now)) joins.now }
    ensures { IfOk result (λ primitives. primitives.items ≡ answers_of joins.now row.now) }
{
    let mut primitives = Vec::new(alloc);
    for join in joins {
        put_joined(join, row, &mut primitives)?;
    }
    Ok(primitives)
}
