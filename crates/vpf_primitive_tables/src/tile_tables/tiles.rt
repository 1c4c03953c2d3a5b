//! The table of tiles.

ghost use Rattle.std.specs.Prelude.{◌≡◌};
ghost use Rattle.vpf_prims.specs.Roles.{tileref_roles};
ghost use Rattle.vpf_prims.specs.Suiting.{HasRoles};
ghost use Rattle.vpf_write.specs.Writing.{Writes};
ghost use Rattle.vpf_primitive_tables.specs.TileTables.Grids.{tiles_made};

use crate::table_forms::{new_kind, new_number, place_in};
use std::alloc::Global;
use vpf_table::TableView;
use vpf_triplet::Kind;
use vpf_write::revise::laws::{columns_by_position, numbers_and_ids_fit, revised_rows_fit};
use vpf_write::revise::{RevisedTable, with_kinds};
use vpf_write::{WriteError, Written};

/// The table of tiles of a coverage that is cut into them, `tileref.aft`: the rows of the given one, with their numbers, from 1 on, for ids
/// (MIL-STD-2407, 5.2.3, tile reference). An error tells the limit that the table would pass, or that memory ran out.
pub fn write_tiles(alloc: Global, tileref: &TableView<'_>) -> Result<Written, WriteError>
    requires { HasRoles tileref_roles tileref.now }
    ensures { Writes (tiles_made tileref.now) result }
{
    columns_by_position();
    numbers_and_ids_fit();
    revised_rows_fit();
    let id = place_in(tileref.header(), b"id");
    let header = with_kinds(tileref.header(), &[new_kind(id, Kind::I)])?;
    let mut made = RevisedTable::new(alloc, &header)?;
    // What is so of each table: cells of 4 bytes can count its rows.
    let _rows = tileref.len();
    let mut number = 0;
    for row in tileref.rows() {
        number += 1;
        made.put(&row, &[new_number(id, number)])?;
    }
    made.finish()
}
