//! The tables of the folder of a tile, and of the folders of all tiles.

ghost use Rattle.std.specs.Prelude.{◌≤◌, List, IsErrOf, codes};
ghost use Rattle.vpf_source.specs.declared.file.File.{File as SourceFile};
ghost use Rattle.vpf_library_files.specs.Loading.Loading.{LoadedTable, most_loaded, read_optional_table, read_rest, read_table, read_tile, read_tiles, within};
ghost use Rattle.vpf_library_files.specs.Loading.Loads.{AddsOption, AddsRest, AddsTable, AddsTile, AddsTiles, LoadsAs};
ghost use Rattle.vpf_library_files.specs.Inner.Loading.Only.{OnlyLoads};

use crate::loading::loading::LoadStop;
use crate::loading::loading::loaded::LoadedTables;
use crate::loading::loading::names::within;
use crate::loading::loading::tables::{optional_table, required_table};
use crate::tileref::TilePaths;
use std::alloc::Global;
use vpf_source::Tree;
use vpf_table::laws::{opened_is_read, spelled_is_opened};

/// Adds a table of a folder, which has to be there.
pub fn add_required<T: Tree>(
    alloc: Global,
    tree: &mut T,
    folder: &str,
    table: &str,
    loaded: &mut u64,
    tables: &mut LoadedTables,
) -> Result<(), LoadStop>
    requires { loaded.old ≤ most_loaded }
    ensures reads { LoadsAs (T.files tree.old) (λ held. read_table held (within folder.now table.now) loaded.old)
        (λ _ read. AddsTable (within folder.now table.now) tables.old tables.new read) result loaded.new }
    ensures only { OnlyLoads T.files T.faults tree.old tree.new loaded.old loaded.new (IsErrOf result LoadStop.Fault) }
{
    spelled_is_opened();
    opened_is_read();
    let name = within(alloc, folder, table)?;
    let added = required_table(alloc, tree, name.as_str(), loaded)?;
    tables.append(added)?;
    Ok(())
}

/// Adds a table of a folder, and tells whether it is there.
fn add_optional<T: Tree>(
    alloc: Global,
    tree: &mut T,
    folder: &str,
    table: &str,
    loaded: &mut u64,
    tables: &mut LoadedTables,
) -> Result<bool, LoadStop>
    requires { loaded.old ≤ most_loaded }
    ensures reads { LoadsAs (T.files tree.old) (λ held. read_optional_table held (within folder.now table.now) loaded.old)
        (λ there read. AddsOption (within folder.now table.now) tables.old tables.new there read) result loaded.new }
    ensures only { OnlyLoads T.files T.faults tree.old tree.new loaded.old loaded.new (IsErrOf result LoadStop.Fault) }
{
    spelled_is_opened();
    opened_is_read();
    let name = within(alloc, folder, table)?;
    let added = optional_table(alloc, tree, name.as_str(), loaded)?;
    let there = !added.is_empty();
    tables.append(added)?;
    Ok(there)
}

/// Adds the tables of a folder whose edges are there: those of faces, rings and connected nodes, which have to be there too, and of
/// entity nodes, which may be.
fn load_rest<T: Tree>(
    alloc: Global,
    tree: &mut T,
    folder: &str,
    loaded: &mut u64,
    tables: &mut LoadedTables,
) -> Result<(), LoadStop>
    requires { loaded.old ≤ most_loaded }
    ensures reads { (edg : LoadedTable) (before : List SourceFile) → AddsTable (within folder.now (codes "edg")) before tables.old edg
        → LoadsAs (T.files tree.old) (λ held. read_rest held folder.now edg loaded.old)
        (λ _ tile. AddsRest folder.now before tables.new tile) result loaded.new }
    ensures only { OnlyLoads T.files T.faults tree.old tree.new loaded.old loaded.new (IsErrOf result LoadStop.Fault) }
{
    add_required(alloc, tree, folder, "fac", loaded, tables)?;
    add_required(alloc, tree, folder, "rng", loaded, tables)?;
    add_required(alloc, tree, folder, "cnd", loaded, tables)?;
    add_optional(alloc, tree, folder, "end", loaded, tables)?;
    Ok(())
}

/// Adds the tables of a folder, and tells whether it has any: without edges it has none.
fn load_tile<T: Tree>(
    alloc: Global,
    tree: &mut T,
    folder: &str,
    loaded: &mut u64,
    tables: &mut LoadedTables,
) -> Result<bool, LoadStop>
    requires { loaded.old ≤ most_loaded }
    ensures reads { LoadsAs (T.files tree.old) (λ held. read_tile held folder.now loaded.old)
        (λ there tile. AddsTile folder.now tables.old tables.new there tile) result loaded.new }
    ensures only { OnlyLoads T.files T.faults tree.old tree.new loaded.old loaded.new (IsErrOf result LoadStop.Fault) }
{
    if !add_optional(alloc, tree, folder, "edg", loaded, tables)? {
        return Ok(false);
    }
    load_rest(alloc, tree, folder, loaded, tables)?;
    Ok(true)
}

/// Adds the tables of primitives of a folder in another one, and tells whether it has any: without edges it has none.
///
/// The stops are those of `load_coverage`, but for those of the table of tiles.
pub fn load_folder<T: Tree>(
    alloc: Global,
    tree: &mut T,
    folder: &str,
    path: &str,
    loaded: &mut u64,
    tables: &mut LoadedTables,
) -> Result<bool, LoadStop>
    requires { loaded.old ≤ most_loaded }
    ensures reads { LoadsAs (T.files tree.old) (λ held. read_tile held (within folder.now path.now) loaded.old)
        (λ there tile. AddsTile (within folder.now path.now) tables.old tables.new there tile) result loaded.new }
    ensures only { OnlyLoads T.files T.faults tree.old tree.new loaded.old loaded.new (IsErrOf result LoadStop.Fault) }
{
    let tile = within(alloc, folder, path)?;
    load_tile(alloc, tree, tile.as_str(), loaded, tables)
}

/// Adds the tables of the folders of all tiles, and tells whether any has some.
pub fn load_tiles<T: Tree>(
    alloc: Global,
    tree: &mut T,
    folder: &str,
    paths: &TilePaths,
    loaded: &mut u64,
    tables: &mut LoadedTables,
) -> Result<bool, LoadStop>
    requires { loaded.old ≤ most_loaded }
    ensures reads { LoadsAs (T.files tree.old) (λ held. read_tiles held folder.now paths.now loaded.old)
        (λ some tiles. AddsTiles folder.now paths.now tables.old tables.new some tiles) result loaded.new }
    ensures only { OnlyLoads T.files T.faults tree.old tree.new loaded.old loaded.new (IsErrOf result LoadStop.Fault) }
{
    let mut some = false;
    for t in 1..=paths.len() {
        let Some(path) = paths.path(t) else {
            unreachable!()
        };
        some |= load_folder(alloc, tree, folder, path, loaded, tables)?;
    }
    Ok(some)
}
