//! The table of tiles, read in the order in which it is looked at.

ghost use Rattle.std.specs.Prelude.{◌≡◌, IfOk};
ghost use Rattle.vpf_library_files.specs.Tileref.Stops.{StopsAt, path_texts, tileref_stop};

use crate::tileref::bounds::{check_count, check_lengths};
use crate::tileref::columns::TileColumns;
use crate::tileref::errors::TilerefError;
use crate::tileref::paths::TilePaths;
use crate::tileref::rows::paths_of;
use std::alloc::Global;
use vpf_table::TableView;

/// The paths of the tiles of a library, which its table `tileref.aft` names (MIL-STD-2407, 5.3, tile reference coverage).
///
/// A row names a tile: `id` is the number of the row, and `tile_name` the path of the tile's folder. The path is the text without
/// the spaces and zeros around it, its letters made small, cut at slashes of either sort; empty folders are dropped. There has to be
/// a folder, none is `.` or `..`, all bytes are 33 to 126, and no earlier tile has the path.
///
/// More than 65,535 rows pass the bound of tiles. Then comes the first finding, if any: on the column of ids, that there are no rows,
/// on the column of names, and row by row on the id and the name. Last, the first path of more than 255 bytes, with a slash
/// between any two folders, passes the bound of names. `NoMemory` comes for want of memory alone.
#[tactic(auto, unfolding(crate::specs::Tileref::Tileref::tileref_finding, crate::specs::Tileref::Stops::tileref_stop))]
pub fn read_tileref<'a>(alloc: Global, table: &TableView<'a>) -> Result<TilePaths, TilerefError<'a>>
    // The paths, in the order of the tiles.
    ensures paths { IfOk result (λ paths. paths ≡ path_texts table.now) }
    // What ends the reading is what does first.
    ensures first { StopsAt result (tileref_stop table.now) }
{
    check_count(table.len())?;
    let columns = TileColumns::place(alloc, table)?;
    let paths = paths_of(alloc, &columns, table)?;
    check_lengths(paths.as_slice())?;
    Ok(TilePaths::new(paths))
}
