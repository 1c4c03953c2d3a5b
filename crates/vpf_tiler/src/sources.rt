//! What a coverage is tiled by: its own tables, a plan of tiles for its faces, and the paths of the tiles.

ghost use Rattle.std.specs.Prelude.{◌≡◌, ◌≤◌, ◌<◌, ◌^◌, IfOk, IfSome, Some, false};
ghost use Rattle.vpf_prims.specs.Coverages.{tile_at};
ghost use Rattle.vpf_prims.specs.Reading.{primitives_of};
ghost use Rattle.vpf_prims.specs.Suiting.{HasColumns};
ghost use Rattle.vpf_prims.specs.Tables.{table_named};
ghost use Rattle.vpf_wing.specs.WellFormed.{IsWellFormed};
ghost use Rattle.vpf_tiling.specs.Plan.Plans.{IsPlanTable};
ghost use Rattle.vpf_library_files.specs.Tileref.Stops.{IsBounded, path_texts};
ghost use Rattle.vpf_library_files.specs.Tileref.Tileref.{IsTileref};
ghost use Rattle.vpf_primitive_tables.specs.Inner.TileWriting.Writable.{AreWritable, HaveFewRows};
ghost use Rattle.vpf_tiler.specs.CutBy.{IsCutBy, RefusesCut, plan_refusal};
ghost use Rattle.vpf_tiler.specs.Inner.Laws.{IsReadable};

use crate::errors::TileError;
use std::alloc::{AllocError, Global};
use vpf_cross::Checked;
use vpf_cutting::Cut;
use vpf_findings::TableName;
use vpf_library_files::tileref::laws::stops_decide;
use vpf_library_files::tileref::{TilePaths, TilerefError, read_tileref};
use vpf_numbers::laws::numbers_decide;
use vpf_prims::Tile;
use vpf_table::TableView;
use vpf_tiling::plan::named_tiles;
use vpf_tiling::tileable::laws::refusals_decide;
use vpf_tiling::tileable::{check_tileable, planned_tiles};
use vpf_wing::laws::{cycles_decide, loops_decide};

/// What is so of each table: its header is sound, its rows fit the columns, and they are few.
pub(crate) fn source_reads(table: &TableView<'_>)
    ensures { IsReadable table.now }
{
    let _columns = table.header().len();
    let _rows = table.rows();
    let _count = table.len();
}

/// The same of the table of this name, where a tile has one.
fn table_reads(tile: &Tile<'_>, name: TableName)
    ensures { IfSome (table_named tile.now name) IsReadable }
{
    if let Some(table) = tile.table(name) {
        source_reads(table);
    }
}

/// The same of all tables of a tile.
fn tables_are_read(tile: &Tile<'_>)
    ensures writable { AreWritable tile.now.tables }
    ensures few { HaveFewRows tile.now.tables }
{
    table_reads(tile, TableName::Edg);
    table_reads(tile, TableName::Fac);
    table_reads(tile, TableName::Rng);
    table_reads(tile, TableName::Cnd);
    table_reads(tile, TableName::End);
}

/// The tables of an untiled coverage in whose topology nothing disagrees.
pub(crate) fn source_of<'c, 'a>(checked: &Checked<'c, 'a>) -> &'c Tile<'a>
    requires { checked.now.is_tiled ≡ false }
    ensures tile { tile_at checked.now 0 ≡ Some result.now }
    ensures columns { HasColumns result.now.tables }
    ensures well_formed { IsWellFormed (primitives_of result.now.tables) }
    ensures writable { AreWritable result.now.tables }
    ensures few { HaveFewRows result.now.tables }
{
    let coverage = checked.coverage();
    coverage.tiles_make_library();
    coverage.numbers_hold();
    checked.topology_holds();
    numbers_decide();
    loops_decide();
    cycles_decide();
    let Some(tile) = coverage.tile(0) else {
        unreachable!()
    };
    // The number of edges is one that darts can have.
    let _edges = tile.edges();
    tables_are_read(tile);
    tile
}

/// The paths of the tiles that a table names, which is looked at already.
pub(crate) fn paths_of(alloc: Global, tileref: &TableView<'_>) -> Result<TilePaths, AllocError>
    requires tileref { IsTileref tileref.now }
    requires bounded { IsBounded tileref.now }
    ensures { IfOk result (λ paths. paths ≡ path_texts tileref.now) }
{
    stops_decide();
    match read_tileref(alloc, tileref) {
        Ok(paths) => Ok(paths),
        Err(TilerefError::NoMemory) => Err(AllocError),
        Err(TilerefError::Limit(_)) => unreachable!(),
        Err(TilerefError::Finding(_)) => unreachable!(),
    }
}

/// A coverage that is cut by a plan into so many tiles, or the first cause against it.
pub(crate) fn cut_by<'t, 'a>(
    alloc: Global,
    source: &'t Tile<'a>,
    plan: &TableView<'_>,
    tiles: u32,
) -> Result<Cut<'t, 'a>, TileError>
    requires well_formed { IsWellFormed (primitives_of source.now.tables) }
    requires plan { IsPlanTable plan.now }
    requires some { 1 ≤ tiles }
    requires few { tiles < 2 ^ 31 }
    ensures refused { RefusesCut (plan_refusal source.now.tables plan.now tiles) result }
    ensures cut { IfOk result (IsCutBy source.now.tables plan.now tiles) }
{
    refusals_decide();
    let named = named_tiles(alloc, plan, source.faces())?;
    // The number of edges is one that darts can have.
    let _edges = source.edges();
    check_tileable(source, &named, tiles)?;
    let planned = planned_tiles(alloc, &named, source.faces())?;
    Ok(Cut::new(alloc, source, planned, tiles)?)
}
