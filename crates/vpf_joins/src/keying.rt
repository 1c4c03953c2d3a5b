//! The keys of the rows of primitive tables, over all tiles.

ghost use Rattle.std.specs.Prelude.{◌≡◌, ◌++◌, IfOk, OnOk, map};
ghost use Rattle.vpf_joins.specs.Keys.Keys.{keyed_in, keyed_of};
ghost use Rattle.vpf_joins.specs.Joining.{key_cells, keyed_in_table, keyed_over, table_in_tile};

use crate::keys::{KeyedRow, put_keys};
use std::alloc::{AllocError, Global};
use vpf_coverage::Coverage;
use vpf_findings::TableName;
use vpf_source::names::trimmed;
use vpf_table::TableView;

/// Puts the cells of the column that `key` names behind the keys that are there. A table without the column has none.
fn put_table_keys<'a>(
    keys: &mut Vec<KeyedRow<'a>>,
    t: u32,
    table: &TableView<'a>,
    key: &[u8],
) -> Result<(), AllocError>
    ensures { OnOk result (map keyed_of keys.new.items ≡ map keyed_of keys.old.items ++ keyed_in t (key_cells table.now key.now)) }
{
    match table.header().column(trimmed(key)) {
        Some(column) => put_keys(keys, t, table, column),
        None => Ok(()),
    }
}

/// The same of the table of this name in a tile, where it is there.
fn put_tile_keys<'a>(
    keys: &mut Vec<KeyedRow<'a>>,
    coverage: &Coverage<'a>,
    t: u32,
    name: TableName,
    key: &[u8],
) -> Result<(), AllocError>
    ensures { OnOk result (map keyed_of keys.new.items
        ≡ map keyed_of keys.old.items ++ keyed_in_table t key.now (table_in_tile coverage.now name t)) }
{
    let Some(tile) = coverage.tile(t) else {
        return Ok(());
    };
    match tile.table(name) {
        Some(table) => put_table_keys(keys, t, table, key),
        None => Ok(()),
    }
}

/// The cells of the column that `key` names in the tables of this name, tile by tile. Each row is read once.
pub(crate) fn keys_over<'a>(
    alloc: Global,
    coverage: &Coverage<'a>,
    name: TableName,
    key: &[u8],
) -> Result<Vec<KeyedRow<'a>>, AllocError>
    ensures { IfOk result (λ keys. map keyed_of keys.items ≡ keyed_over coverage.now name key.now) }
{
    let mut keys = Vec::new(alloc);
    for t in 0..=coverage.tiles() {
        put_tile_keys(&mut keys, coverage, t, name, key)?;
    }
    Ok(keys)
}
