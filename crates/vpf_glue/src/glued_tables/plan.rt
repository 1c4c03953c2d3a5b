//! The plan of the glued coverage: the tile of each of its faces.

ghost use Rattle.std.specs.Prelude.{◌≡◌, ◌<◌, ◌^◌, ◌+◌, ◌++◌, ◌∷◌, [], All, List, OnOk, length};
ghost use Rattle.vpf_table.specs.Grid.{Row};
ghost use Rattle.vpf_write.specs.Inner.Tallies.{Holds};
ghost use Rattle.vpf_write.specs.Writing.{Writes};
ghost use Rattle.vpf_vectors.specs.Heads.{plan_head};
ghost use Rattle.vpf_vectors.specs.Tables.{pair_cells, pair_table};

use std::alloc::{AllocError, Global};
use vpf_primitive_tables::table_forms::number_cell;
use vpf_vectors::plan_header;
use vpf_write::revise::laws::numbers_and_ids_fit;
use vpf_write::{TableWriter, WriteError, Written};

/// Appends the row of a face and its tile.
fn put_home(writer: &mut TableWriter<'_, '_>, face: u32, tile: u32) -> Result<(), AllocError>
    requires head { writer.old.head ≡ plan_head }
    requires face { face < 2 ^ 31 }
    requires tile { tile < 2 ^ 31 }
    ensures head { writer.new.head ≡ plan_head }
    ensures put { OnOk result ((rows : List Row) → Holds writer.old rows → Holds writer.new (rows ++ pair_cells (face, tile) ∷ [])) }
{
    numbers_and_ids_fit();
    writer.put_row(&[number_cell(face), number_cell(tile)])
}

/// The table of these tiles, one for each face but the universe, from face 2 on. An error tells the limit that the table would pass, or that
/// memory ran out.
pub fn write_plan(alloc: Global, tiles: &[u32]) -> Result<Written, WriteError>
    requires few { length tiles.now + 1 < 2 ^ 31 }
    requires small { All (λ tile. tile < 2 ^ 31) tiles.now }
    ensures { Writes (pair_table plan_head 2 tiles.now) result }
{
    let header = plan_header(alloc)?;
    let mut writer = TableWriter::new(alloc, &header)?;
    for (k, tile) in tiles.iter().enumerate() {
        put_home(&mut writer, k as u32 + 2, *tile)?;
    }
    writer.finish()
}
