//! Opening the files of features.

ghost use Rattle.std.specs.Prelude.{◌≡◌, ℕ, List, Option, IfOk, map};
ghost use Rattle.std.specs.Option.{option_map};
ghost use Rattle.vpf_table.specs.Grid.{Grid};
ghost use Rattle.vpf_feature_files.specs.Inner.Held.{AreIndexFiles, AreOfSchema, AreSchemaFiles, AreTableFiles};
ghost use Rattle.vpf_feature_files.specs.Inner.Held.{AreTablesFiles, IsIndexFile, IsIndexFileOption, IsSchemaFileOption};
ghost use Rattle.vpf_feature_files.specs.Schemas.{FeatureTable, Index, Schema as SchemaOf};
ghost use Rattle.vpf_features.specs.Finding.{TellsNamed, tables_finding};
ghost use Rattle.vpf_features.specs.Inner.Opened.{HasIndexFile, HasSchemaFile, HaveIndexFiles, IsOfTable, AreOfTables};
ghost use Rattle.vpf_features.specs.Inner.Views.{IsRightSchemaTable, index_seen, table_seen};

use crate::faults::FeatureFault;
use crate::rows::check_features;
use crate::schema::{FeatureView, IndexView, Schema};
use crate::themes::named;
use std::alloc::{AllocError, Global};
use vpf_feature_files::{FeatureFiles, SchemaFile, TableFiles};
use vpf_source::File;
use vpf_table::TableView;
use vpf_theme::ThemeView;
use vpf_triplet::Order;

/// The thematic index in a file, of a table in this order.
fn open_index<'a>(order: Order, file: &'a File) -> IndexView<'a>
    requires { HasIndexFile order file.now }
    ensures { (index : Index) → IsIndexFile order index file.now → index_seen result ≡ index }
{
    match ThemeView::open(file.bytes.as_slice(), order) {
        Ok(theme) => IndexView {
            file: &file.name,
            theme,
        },
        Err(_) => unreachable!(),
    }
}

/// The thematic index in a file that may be absent.
fn open_optional_index<'a>(order: Order, file: &'a Option<File>) -> Option<IndexView<'a>>
    requires { (index : Option Index) × IsIndexFileOption order index file.now }
    ensures { (index : Option Index) → IsIndexFileOption order index file.now → option_map index_seen result ≡ index }
{
    match file {
        Some(file) => Some(open_index(order, file)),
        None => None,
    }
}

/// The thematic indexes of the columns of a table in this order.
fn open_indexes<'a>(
    alloc: Global,
    order: Order,
    files: &'a [Option<File>],
) -> Result<Vec<Option<IndexView<'a>>>, AllocError>
    requires { HaveIndexFiles order files.now }
    ensures { (indexes : List (Option Index)) → AreIndexFiles order indexes files.now
        → IfOk result (λ views. map (option_map index_seen) views.items ≡ indexes) }
{
    let mut views = Vec::with_capacity(alloc, files.len())?;
    for file in files {
        views.push(open_optional_index(order, file))?;
    }
    Ok(views)
}

/// A feature table, with its indexes.
fn open_table<'a>(alloc: Global, files: &'a TableFiles) -> Result<FeatureView<'a>, AllocError>
    requires { (folder : List ℕ) × IsOfTable folder files.now }
    ensures { (folder : List ℕ) (table : FeatureTable) → AreTableFiles folder table files.now → IfOk result (λ view. table_seen view ≡ table) }
{
    let table = files.table.only(alloc)?;
    let indexes = open_indexes(alloc, table.header().order(), &files.indexes)?;
    Ok(FeatureView {
        name: &files.name,
        table,
        indexes,
    })
}

/// The feature tables of files, with their indexes.
fn open_tables<'a>(
    alloc: Global,
    files: &'a [TableFiles],
) -> Result<Vec<FeatureView<'a>>, AllocError>
    requires { (folder : List ℕ) × AreOfTables folder files.now }
    ensures { (folder : List ℕ) (tables : List FeatureTable) → AreTablesFiles folder tables files.now
        → IfOk result (λ views. map table_seen views.items ≡ tables) }
{
    let mut views = Vec::with_capacity(alloc, files.len())?;
    for table in files {
        views.push(open_table(alloc, table)?)?;
    }
    Ok(views)
}

/// The schema table in a file that may be absent.
fn open_schema_table<'a>(
    alloc: Global,
    file: &'a Option<SchemaFile>,
) -> Result<Option<TableView<'a>>, AllocError>
    requires { (folder : List ℕ) × HasSchemaFile folder file.now }
    ensures opened { (folder : List ℕ) (fcs : Option Grid) → IsSchemaFileOption folder fcs file.now → IfOk result (λ table. table ≡ fcs) }
    ensures right { IfOk result IsRightSchemaTable }
{
    match file {
        Some(file) => Ok(Some(file.view(alloc)?)),
        None => Ok(None),
    }
}

/// The columns and ids of the feature tables are right.
fn check_tables<'a>(
    alloc: Global,
    folder: &str,
    views: &[FeatureView<'a>],
) -> Result<(), FeatureFault<'a>>
    ensures { TellsNamed result (tables_finding folder.now (map table_seen views.now)) }
{
    for view in views {
        if let Err(finding) = check_features(&view.table) {
            return Err(named(alloc, folder, view.name, finding)?);
        }
    }
    Ok(())
}

/// The schema of the coverage in this folder, opened from the files that `load_features` gives, or the first finding on its feature tables, with the name of
/// the file that it is in: table by table, in each the column of ids and then the ids of its rows, which count from 1. The thematic indexes aren't looked at.
pub fn open_features<'a>(
    alloc: Global,
    folder: &str,
    files: &'a FeatureFiles,
) -> Result<Schema<'a>, FeatureFault<'a>>
    requires { AreOfSchema folder.now files.now }
    // The first finding, or none.
    ensures first { (S : SchemaOf) → AreSchemaFiles folder.now S files.now → TellsNamed result (tables_finding folder.now S.tables) }
    // What the files hold.
    ensures opened { (S : SchemaOf) → AreSchemaFiles folder.now S files.now → IfOk result (λ schema. schema ≡ S) }
{
    let fcs = open_schema_table(alloc, &files.fcs)?;
    let tables = open_tables(alloc, &files.tables)?;
    check_tables(alloc, folder, &tables)?;
    Ok(Schema::new(fcs, tables))
}
