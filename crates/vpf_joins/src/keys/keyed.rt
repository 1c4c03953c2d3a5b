//! The key cells of the rows of tables.

ghost use Rattle.std.specs.Prelude.{◌≡◌, ◌<◌, ◌++◌, OnErr, OnOk, length, map};
ghost use Rattle.vpf_theme.specs.Findings.{cells_of};
ghost use Rattle.vpf_joins.specs.Keys.Keys.{keyed_in, keyed_of};

use std::alloc::AllocError;
use vpf_table::TableView;
use vpf_value::Cell;

/// A row of a table, of which each tile has its own.
#[derive(Clone, Copy, Debug, PartialEq, Eq)]
pub struct RowAt {
    /// The number of the tile; 0 where the coverage isn't tiled.
    pub tile: u32,
    /// The number of the row in the table of the tile, from 1.
    pub row: u32,
}

/// The cell in the key column of a row, and where the row is.
#[derive(Clone, Copy, Debug)]
pub struct KeyedRow<'a> {
    /// The cell.
    pub key: Cell<'a>,
    /// The row.
    pub at: RowAt,
}

/// Puts the cells that a column, counted from 0, has in the rows of a tile's table behind the keys that are there. Each row is read
/// once. Fails only for want of memory, and then puts nothing.
pub fn put_keys<'a>(
    keys: &mut Vec<KeyedRow<'a>>,
    tile: u32,
    table: &TableView<'a>,
    column: usize,
) -> Result<(), AllocError>
    requires { column < length table.now.head.columns }
    ensures put { OnOk result (map keyed_of keys.new.items
        ≡ map keyed_of keys.old.items ++ keyed_in tile (cells_of table.now column)) }
    ensures err { OnErr result (keys.new.items ≡ keys.old.items) }
{
    keys.reserve(table.len() as usize)?;
    let mut number = 0;
    for row in table.rows() {
        number += 1;
        keys.push_reserved(KeyedRow {
            key: row.cell(column),
            at: RowAt { tile, row: number },
        });
    }
    Ok(())
}
