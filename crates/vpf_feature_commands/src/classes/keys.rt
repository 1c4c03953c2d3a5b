//! The key columns of a schema table that aren't there.

ghost use Rattle.std.specs.Prelude.{◌≡◌, Some, map};
ghost use Rattle.std.specs.Option.{option_map};
ghost use Rattle.vpf_prims.specs.Coverages.{tile_at};
ghost use Rattle.vpf_numbers.specs.Around.{columns_in_view};
ghost use Rattle.vpf_feature_files.specs.SchemaRows.Items.{primitive_named};
ghost use Rattle.vpf_feature_files.specs.SchemaRows.Joins.{join_of};
ghost use Rattle.vpf_feature_files.specs.Inner.SchemaRows.Listing.{item_text};
ghost use Rattle.vpf_feature_commands.specs.Classes.Keys.{absent_from, absent_key, columns_called, columns_in_tile, first_absent};

use vpf_coverage::Coverage;
use vpf_feature_files::schema_rows::{ItemName, SchemaRow};
use vpf_findings::TableName;
use vpf_head::Header;
use vpf_source::names::trimmed;

/// The header of a table in a tile.
fn header_in<'c, 'a>(coverage: &'c Coverage<'a>, t: u32, name: TableName) -> Option<&'c Header<'a>>
    ensures { columns_in_view result ≡ columns_in_tile name (tile_at coverage.now t) }
{
    let tile = coverage.tile(t)?;
    let table = tile.table(name)?;
    Some(table.header())
}

/// The header of a table in the first tile that has it.
fn first_header<'c, 'a>(coverage: &'c Coverage<'a>, name: TableName) -> Option<&'c Header<'a>>
    ensures { columns_in_view result ≡ columns_called coverage.now (Some name) }
{
    for t in 0..=coverage.tiles() {
        if let Some(header) = header_in(coverage, t, name) {
            return Some(header);
        }
    }
    None
}

/// The header of the table of primitives that an item names, where there is one.
fn header_called<'c, 'a>(coverage: &'c Coverage<'a>, item: &ItemName<'_>) -> Option<&'c Header<'a>>
    ensures { columns_in_view result ≡ columns_called coverage.now (primitive_named item.now.text.now) }
{
    first_header(coverage, item.primitive()?)
}

/// The key, where a header has no column of this name.
fn absent_from<'k>(header: Option<&Header<'_>>, key: ItemName<'k>) -> Option<ItemName<'k>>
    ensures { option_map item_text result ≡ absent_from (columns_in_view header.entry) (item_text key.entry) }
{
    match header?.column(trimmed(key.text)) {
        Some(_) => None,
        None => Some(key),
    }
}

/// The first key of a row of the schema table that isn't there. `header` is that of its feature table.
fn absent_key<'k>(
    coverage: &Coverage<'_>,
    header: &Header<'_>,
    said: &SchemaRow<'k>,
) -> Option<ItemName<'k>>
    ensures { option_map item_text result ≡ absent_key coverage.now header.now.columns (join_of said.now) }
{
    absent_from(Some(header), said.key1).or(absent_from(
        header_called(coverage, &said.table2),
        said.key2,
    ))
}

/// The first key of rows of the schema table that isn't there: row by row, and in each that of the feature table, whose header is given, before that of
/// the primitives. A table of primitives that isn't there lacks none.
pub(crate) fn first_absent<'k>(
    coverage: &Coverage<'_>,
    header: &Header<'_>,
    joins: &[SchemaRow<'k>],
) -> Option<ItemName<'k>>
    ensures { option_map item_text result ≡ first_absent coverage.now header.now.columns (map join_of joins.now) }
{
    for said in joins {
        if let Some(key) = absent_key(coverage, header, said) {
            return Some(key);
        }
    }
    None
}
