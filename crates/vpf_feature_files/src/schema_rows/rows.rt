//! The rows of a schema table.

ghost use Rattle.std.specs.Prelude.{◌≡◌, ◌<◌, ◌^◌, IfOk, None, length, map};
ghost use Rattle.vpf_prims.specs.Columns.{IsWithin, role_at};
ghost use Rattle.vpf_prims.specs.References.{cell_at};
ghost use Rattle.vpf_feature_files.specs.SchemaRows.Joins.{join_of, joins_in, schema_finding, item_in};

use crate::schema_rows::columns::SchemaColumns;
use crate::schema_rows::items::ItemName;
use std::alloc::{AllocError, Global};
use vpf_prims::{RoleColumn, cell_at};
use vpf_table::{RowView, TableView};
use vpf_value::Cell;

/// A row of a schema table: a class, and the two tables that it joins, each by a column.
#[derive(Clone, Copy, Debug)]
pub struct SchemaRow<'a> {
    /// The class of the features.
    pub class: ItemName<'a>,
    /// One table,
    pub table1: ItemName<'a>,
    /// and its column whose cells are compared.
    pub key1: ItemName<'a>,
    /// The other table,
    pub table2: ItemName<'a>,
    /// and its column whose cells are compared.
    pub key2: ItemName<'a>,
}

/// The text of a row in a column.
fn item_at<'a>(row: &RowView<'_, 'a>, column: &RoleColumn<'_>) -> ItemName<'a>
    requires { IsWithin (length row.now) (role_at column.now) }
    ensures { result.text.now ≡ item_in (cell_at row.now (role_at column.now).place) }
{
    match cell_at(row, column) {
        Cell::Text(text) => ItemName { text },
        _ => ItemName { text: &[] },
    }
}

impl<'a> SchemaRow<'a> {
    ghost use Rattle.std.specs.Prelude.{◌≡◌, List, length};
    ghost use Rattle.vpf_head.specs.Head.{Col};
    ghost use Rattle.vpf_feature_files.specs.SchemaRows.Joins.{has_class, is_join, join_in_row, join_of};
    ghost use Rattle.vpf_feature_files.specs.Inner.SchemaRows.Placed.{AreSchemaColumns};

    /// What a row says, by the columns of its table.
    fn of(row: &RowView<'_, 'a>, columns: &SchemaColumns<'a>) -> SchemaRow<'a>
        requires { (cols : List Col) × AreSchemaColumns cols columns.now × (length cols ≡ length row.now) }
        ensures { (cols : List Col) → AreSchemaColumns cols columns.now → join_of result ≡ join_in_row cols row.now }
    {
        SchemaRow {
            class: item_at(row, &columns.class),
            table1: item_at(row, &columns.table1),
            key1: item_at(row, &columns.key1),
            table2: item_at(row, &columns.table2),
            key2: item_at(row, &columns.key2),
        }
    }

    /// Whether it is of the class of this name, which may stand in capitals and between padding.
    pub fn is_of(&self, class: &[u8]) -> bool
        ensures { result ≡ has_class class.now (join_of self.now) }
    {
        self.class == ItemName { text: class }
    }

    /// Whether it joins a table of features to one of primitives, in this order.
    pub fn is_join(&self) -> bool
        ensures { result ≡ is_join (join_of self.now) }
    {
        self.table1.is_feature_table() && self.table2.primitive().is_some()
    }
}

/// What the rows of a schema table say, in their order, where nothing is found on its columns. The rows are passed once. Takes memory for each,
/// and fails only for want of it.
pub fn schema_rows<'a>(
    alloc: Global,
    table: &TableView<'a>,
) -> Result<Vec<SchemaRow<'a>>, AllocError>
    requires { schema_finding table.now ≡ None }
    ensures said { IfOk result (λ rows. map join_of rows.items ≡ joins_in table.now) }
    ensures few { IfOk result (λ rows. length rows.items < 2 ^ 31) }
{
    let Ok(columns) = SchemaColumns::place(table.header()) else {
        unreachable!()
    };
    let mut rows = Vec::with_capacity(alloc, table.len() as usize)?;
    for row in table.rows() {
        rows.push(SchemaRow::of(&row, &columns))?;
    }
    Ok(rows)
}
