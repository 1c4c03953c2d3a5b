//! Feature tables with their thematic indexes.

ghost use Rattle.std.specs.Prelude.{◌≡◌, ◌≤◌, [], ◌∷◌, ◌++◌, IsErrOf, OnOk, Some, map};
ghost use Rattle.vpf_library_files.specs.Loading.Loading.{most_loaded};
ghost use Rattle.vpf_library_files.specs.Loading.Loads.{LoadsAs};
ghost use Rattle.vpf_library_files.specs.Inner.Loading.Only.{OnlyLoads};
ghost use Rattle.vpf_feature_files.specs.SchemaRows.Items.{own_file};
ghost use Rattle.vpf_feature_files.specs.Inner.SchemaRows.Listing.{item_text};
ghost use Rattle.vpf_feature_files.specs.Inner.Held.{AreTablesFiles};
ghost use Rattle.vpf_feature_files.specs.Inner.Loads.{AddsFeatures, AreTableFilesOption};
ghost use Rattle.vpf_feature_files.specs.Reading.{read_feature_tables, read_named_table, read_with_indexes};

use crate::files::TableFiles;
use crate::indexes::load_indexes;
use crate::schema_rows::ItemName;
use std::alloc::{AllocError, Global};
use vpf_library_files::loading::{LoadStop, kept, optional_file, table_beside, within};
use vpf_source::{Name, Tree};

/// The feature table in the bytes of a file of a folder, with its thematic indexes.
fn table_in<T: Tree>(
    alloc: Global,
    tree: &mut T,
    folder: &str,
    file: Name,
    bytes: Vec<u8>,
    loaded: &mut u64,
) -> Result<TableFiles, LoadStop>
    requires { loaded.old ≤ most_loaded }
    ensures reads { LoadsAs (T.files tree.old) (λ held. read_with_indexes held folder.now file bytes.items loaded.old)
        (λ kept table. AreTableFilesOption folder.now table (Some kept)) result loaded.new }
    ensures only { OnlyLoads T.files T.faults tree.old tree.new loaded.old loaded.new (IsErrOf result LoadStop.Fault) }
{
    let name = within(alloc, folder, file.as_str())?;
    let (table, index) = table_beside(alloc, tree, name.as_str(), &bytes, loaded)?;
    let counted = table.counted();
    let indexes = load_indexes(alloc, tree, folder, table.header(), loaded)?;
    drop(table);
    let table = kept(alloc, name.as_str(), bytes, index, counted)?;
    Ok(TableFiles {
        name: file,
        table,
        indexes,
    })
}

/// The feature table in a file of a folder, with its thematic indexes, or nothing where it is absent.
fn table_called<T: Tree>(
    alloc: Global,
    tree: &mut T,
    folder: &str,
    file: Name,
    loaded: &mut u64,
) -> Result<Option<TableFiles>, LoadStop>
    requires { loaded.old ≤ most_loaded }
    ensures reads { LoadsAs (T.files tree.old) (λ held. read_named_table held folder.now (Some file) loaded.old)
        (λ kept table. AreTableFilesOption folder.now table kept) result loaded.new }
    ensures only { OnlyLoads T.files T.faults tree.old tree.new loaded.old loaded.new (IsErrOf result LoadStop.Fault) }
{
    let name = within(alloc, folder, file.as_str())?;
    match optional_file(alloc, tree, name.as_str(), loaded)? {
        Some(bytes) => Ok(Some(table_in(alloc, tree, folder, file, bytes, loaded)?)),
        None => Ok(None),
    }
}

/// Keeps one more table.
fn keep(tables: &mut Vec<TableFiles>, table: TableFiles) -> Result<(), AllocError>
    ensures { OnOk result (tables.new.items ≡ tables.old.items ++ table ∷ []) }
{
    tables.push(table)?;
    Ok(())
}

/// Adds the feature table that an item names, where one is there.
fn add_table<T: Tree>(
    alloc: Global,
    tree: &mut T,
    folder: &str,
    item: &ItemName<'_>,
    loaded: &mut u64,
    tables: &mut Vec<TableFiles>,
) -> Result<(), LoadStop>
    requires { loaded.old ≤ most_loaded }
    ensures reads { LoadsAs (T.files tree.old) (λ held. read_named_table held folder.now (own_file (item_text item.now)) loaded.old)
        (λ _ table. AddsFeatures folder.now tables.old.items tables.new.items table) result loaded.new }
    ensures only { OnlyLoads T.files T.faults tree.old tree.new loaded.old loaded.new (IsErrOf result LoadStop.Fault) }
{
    let Some(file) = item.file(alloc)? else {
        return Ok(());
    };
    if let Some(table) = table_called(alloc, tree, folder, file, loaded)? {
        keep(tables, table)?;
    }
    Ok(())
}

/// The feature tables that items name, as far as they are there, in that order.
pub fn load_tables<T: Tree>(
    alloc: Global,
    tree: &mut T,
    folder: &str,
    items: &[ItemName<'_>],
    loaded: &mut u64,
) -> Result<Vec<TableFiles>, LoadStop>
    requires { loaded.old ≤ most_loaded }
    ensures reads { LoadsAs (T.files tree.old) (λ held. read_feature_tables held folder.now (map item_text items.now) loaded.old)
        (λ kept tables. AreTablesFiles folder.now tables kept.items) result loaded.new }
    ensures only { OnlyLoads T.files T.faults tree.old tree.new loaded.old loaded.new (IsErrOf result LoadStop.Fault) }
{
    let mut tables = Vec::new(alloc);
    for item in items {
        add_table(alloc, tree, folder, item, loaded, &mut tables)?;
    }
    Ok(tables)
}
