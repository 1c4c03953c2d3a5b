//! The table of tiles of a library, read before any tile.

ghost use Rattle.std.specs.Prelude.{◌≡◌, ◌≤◌, ℕ, [], IfOk, IsErrOf};
ghost use Rattle.vpf_source.specs.Causes.{Rose, Stood};
ghost use Rattle.vpf_library_files.specs.Tileref.Stops.{tileref_stop};
ghost use Rattle.vpf_library_files.specs.Loading.Loading.{LoadedTable, most_loaded, read_tileref, read_tileref_in, tileref_name, unless_stopped};
ghost use Rattle.vpf_library_files.specs.Loading.Loads.{IsTilerefOf, IsTilerefStop, LoadsAs, LoadsTileref, ReadsAs};
ghost use Rattle.vpf_library_files.specs.Inner.Loading.Only.{OnlyLoads};

use crate::loading::loading::LoadStop;
use crate::loading::loading::files::{owned, required_file};
use crate::loading::loading::loaded::LoadedTables;
use crate::loading::loading::names::within;
use crate::loading::loading::tables::{kept, table_beside, view_of};
use crate::tileref::{TilePaths, TilerefError, read_tileref};
use std::alloc::{AllocError, Global};
use vpf_findings::OwnFinding;
use vpf_source::Tree;
use vpf_table::TableView;

/// What ends the reading of the table of tiles of this name, as it stops the load.
fn stop_of(alloc: Global, name: &str, error: TilerefError<'_>) -> Result<LoadStop, AllocError>
    ensures { IfOk result (IsTilerefStop name.now error.entry) }
{
    Ok(match error {
        TilerefError::Limit(limit) => LoadStop::Limit(owned(alloc, name)?, limit),
        TilerefError::Finding(finding) => {
            let finding = OwnFinding::of(alloc, &finding)?;
            LoadStop::Finding(owned(alloc, name)?, finding)
        }
        TilerefError::NoMemory => LoadStop::NoMemory,
    })
}

/// The paths of the tiles that a table of this name names.
fn paths_in(alloc: Global, name: &str, table: &TableView<'_>) -> Result<TilePaths, LoadStop>
    ensures reads { (read : LoadedTable) (loaded : ℕ) → table.now ≡ read.grid
        → ReadsAs (IsTilerefOf read) result loaded (unless_stopped name.now (tileref_stop read.grid) read loaded) }
    ensures no_fault { ¬ IsErrOf result LoadStop.Fault }
{
    match read_tileref(alloc, table) {
        Ok(paths) => Ok(paths),
        Err(error) => Err(stop_of(alloc, name, error)?),
    }
}

/// The table of tiles in the bytes of the file of this name, and the paths of the tiles that it names.
fn tileref_in<T: Tree>(
    alloc: Global,
    tree: &mut T,
    name: &str,
    bytes: Vec<u8>,
    loaded: &mut u64,
) -> Result<(LoadedTables, TilePaths), LoadStop>
    requires { loaded.old ≤ most_loaded }
    ensures reads { LoadsAs (T.files tree.old) (λ held. read_tileref_in held name.now bytes.items loaded.old)
        (λ found table. LoadsTileref name.now found.0 found.1 table) result loaded.new }
    ensures only { OnlyLoads T.files T.faults tree.old tree.new loaded.old loaded.new (IsErrOf result LoadStop.Fault) }
{
    let (table, index) = table_beside(alloc, tree, name, &bytes, loaded)?;
    let counted = table.counted();
    let table = view_of(table, &index);
    let paths = paths_in(alloc, name, &table)?;
    drop(table);
    let tables = kept(alloc, name, bytes, index, counted)?;
    Ok((tables, paths))
}

/// Adds the table of tiles of a library to none: `tileref/tileref.aft`, and its index where its rows vary. The paths of the tiles
/// that it names (MIL-STD-2407, 5.3, tile reference coverage).
///
/// It is looked at when it is read. The stops are those of `load_coverage`.
pub fn load_tileref<T: Tree>(
    alloc: Global,
    tree: &mut T,
    lib: &str,
    loaded: &mut u64,
    tables: &mut LoadedTables,
) -> Result<TilePaths, LoadStop>
    requires before { loaded.old ≤ most_loaded }
    requires none { tables.old ≡ [] }
    ensures reads { LoadsAs (T.files tree.old) (λ held. read_tileref held lib.now loaded.old)
        (λ paths table. LoadsTileref (tileref_name lib.now) tables.new paths table) result loaded.new }
    ensures rising { loaded.old ≤ loaded.new }
    ensures most { loaded.new ≤ most_loaded }
    ensures fault { IsErrOf result LoadStop.Fault → Rose (T.faults tree.old) (T.faults tree.new) }
    ensures stood { ¬ IsErrOf result LoadStop.Fault → Stood (T.faults tree.old) (T.faults tree.new) }
    ensures later { T.faults tree.old ≤ T.faults tree.new }
    ensures files { T.files tree.new ≡ T.files tree.old }
{
    let folder = within(alloc, lib, "tileref")?;
    let name = within(alloc, folder.as_str(), "tileref.aft")?;
    let bytes = required_file(alloc, tree, name.as_str(), loaded)?;
    let (added, paths) = tileref_in(alloc, tree, name.as_str(), bytes, loaded)?;
    tables.append(added)?;
    Ok(paths)
}
