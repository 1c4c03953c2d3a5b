//! The schema table, and with it all files of features.

ghost use Rattle.std.specs.Prelude.{◌≡◌, ◌≤◌, ℕ, IfErr, IfOk, IsErrOf, None, Ok, Some};
ghost use Rattle.vpf_source.specs.Causes.{Rose, Stood};
ghost use Rattle.vpf_source.specs.Files.{Files};
ghost use Rattle.vpf_table.specs.Inner.Counts.{IsCountOf};
ghost use Rattle.vpf_table.specs.Reading.{table_of};
ghost use Rattle.vpf_findings.specs.Findings.{disagreement_of};
ghost use Rattle.vpf_findings.specs.Printing.{own_of};
ghost use Rattle.vpf_library_files.specs.declared.loading.loading.LoadStop.TheVariants as stops;
ghost use Rattle.vpf_library_files.specs.Loading.Loading.{most_loaded};
ghost use Rattle.vpf_library_files.specs.Loading.Loads.{LoadsAs, ReadsAs};
ghost use Rattle.vpf_library_files.specs.Inner.Loading.Only.{OnlyLoads};
ghost use Rattle.vpf_feature_files.specs.SchemaRows.Joins.{feature_items, joins_in, schema_finding};
ghost use Rattle.vpf_feature_files.specs.Inner.Held.{AreOfSchema, AreSchemaFiles, AreTablesFiles};
ghost use Rattle.vpf_feature_files.specs.Inner.Loads.{IsLooked, IsSchemaIn, RefusedSchema};
ghost use Rattle.vpf_feature_files.specs.Reading.{looked_at, read_feature_tables, read_schema, read_schema_in, schema_name};

use crate::files::{FeatureFiles, SchemaFile, TableFiles};
use crate::schema_rows::{SchemaColumns, feature_items, schema_rows};
use crate::tables::load_tables;
use std::alloc::{AllocError, Global};
use vpf_findings::{Finding, OwnFinding};
use vpf_library_files::loading::{LoadStop, optional_file, within};
use vpf_source::{Bytes, File, Name, Tree};
use vpf_table::{Counted, TableFile, TableView};
use vpf_triplet::PlaceError;

/// The finding on the schema table of this name, as it stops the load.
fn stop_of(alloc: Global, name: &str, finding: &Finding<'_>) -> Result<LoadStop, AllocError>
    ensures { IfOk result (λ stop. stop ≡ stops.Finding name.now (own_of (disagreement_of finding.now))) }
{
    let own = OwnFinding::of(alloc, finding)?;
    let name = Name::new(String::from_str(alloc, name)?);
    Ok(LoadStop::Finding(name, own))
}

/// Looks at a schema table: its rows may not vary, and its columns have to be there.
fn look_at(alloc: Global, name: &str, table: &TableFile<'_>) -> Result<(), LoadStop>
    ensures looks { (loaded : ℕ) → ReadsAs (λ _ fcs. IsLooked table.now.grid fcs) result loaded (looked_at name.now table.now.grid loaded) }
    ensures no_fault { ¬ IsErrOf result LoadStop.Fault }
{
    if table.header().varies() {
        return Err(LoadStop::Varies(Name::new(String::from_str(alloc, name)?)));
    }
    match SchemaColumns::place(table.header()) {
        Ok(_) => Ok(()),
        Err(finding) => Err(stop_of(alloc, name, &finding)?),
    }
}

/// The table in the bytes of the file of this name.
fn table_in<'a>(alloc: Global, name: &str, bytes: &'a [u8]) -> Result<TableFile<'a>, LoadStop>
    ensures bytes { IfOk result (λ table. table.bytes ≡ bytes.now) }
    ensures read { IfOk result (λ table. table_of bytes.now ≡ Ok table.grid) }
    ensures refused { IfErr result (RefusedSchema name.now (table_of bytes.now)) }
    ensures no_fault { ¬ IsErrOf result LoadStop.Fault }
{
    match TableFile::read(alloc, bytes) {
        Ok(table) => Ok(table),
        Err(PlaceError::Place(place)) => {
            let name = Name::new(String::from_str(alloc, name)?);
            Err(LoadStop::Place(name, place))
        }
        Err(PlaceError::NoMemory) => Err(LoadStop::NoMemory),
    }
}

/// The feature tables that a schema table names.
fn load_named<T: Tree>(
    alloc: Global,
    tree: &mut T,
    folder: &str,
    table: &TableView<'_>,
    loaded: &mut u64,
) -> Result<Vec<TableFiles>, LoadStop>
    requires before { loaded.old ≤ most_loaded }
    requires right { schema_finding table.now ≡ None }
    ensures reads { LoadsAs (T.files tree.old) (λ held. read_feature_tables held folder.now (feature_items (joins_in table.now)) loaded.old)
        (λ kept tables. AreTablesFiles folder.now tables kept.items) result loaded.new }
    ensures only { OnlyLoads T.files T.faults tree.old tree.new loaded.old loaded.new (IsErrOf result LoadStop.Fault) }
{
    let rows = schema_rows(alloc, table)?;
    let items = feature_items(alloc, &rows)?;
    load_tables(alloc, tree, folder, &items, loaded)
}

/// What counting the rows of the schema table in the bytes of this file found, and the feature tables that it names: it is looked at, and they are loaded,
/// by the header that was read.
fn load_in<T: Tree>(
    alloc: Global,
    tree: &mut T,
    folder: &str,
    name: &str,
    bytes: &[u8],
    loaded: &mut u64,
) -> Result<(Counted, Vec<TableFiles>), LoadStop>
    requires { loaded.old ≤ most_loaded }
    ensures reads { LoadsAs (T.files tree.old) (λ held. read_schema_in held folder.now name.now bytes.now loaded.old)
        (λ found S. IsSchemaIn folder.now bytes.now found.1.items S) result loaded.new }
    ensures counted { IfOk result (λ found. IsCountOf bytes.now found.0) }
    ensures only { OnlyLoads T.files T.faults tree.old tree.new loaded.old loaded.new (IsErrOf result LoadStop.Fault) }
{
    let table = table_in(alloc, name, bytes)?;
    look_at(alloc, name, &table)?;
    let counted = table.counted();
    let tables = load_named(alloc, tree, folder, &table.without_index(), loaded)?;
    Ok((counted, tables))
}

/// The files of the features of the coverage in this folder, whose schema table has this name and these bytes.
fn load_with<T: Tree>(
    alloc: Global,
    tree: &mut T,
    folder: &str,
    name: Name,
    bytes: Vec<u8>,
    loaded: &mut u64,
) -> Result<FeatureFiles, LoadStop>
    requires before { loaded.old ≤ most_loaded }
    requires named { name ≡ schema_name folder.now }
    ensures reads { LoadsAs (T.files tree.old) (λ held. read_schema_in held folder.now name bytes.items loaded.old)
        (λ v S. AreSchemaFiles folder.now S v) result loaded.new }
    ensures only { OnlyLoads T.files T.faults tree.old tree.new loaded.old loaded.new (IsErrOf result LoadStop.Fault) }
{
    let (counted, tables) = load_in(alloc, tree, folder, name.as_str(), &bytes, loaded)?;
    let bytes = Bytes::new(bytes);
    let fcs = Some(SchemaFile::new(File { name, bytes }, counted));
    Ok(FeatureFiles { fcs, tables })
}

/// The files of the features of the coverage in this folder: none where there is no schema table.
fn load_all<T: Tree>(
    alloc: Global,
    tree: &mut T,
    folder: &str,
    loaded: &mut u64,
) -> Result<FeatureFiles, LoadStop>
    requires { loaded.old ≤ most_loaded }
    ensures reads { LoadsAs (T.files tree.old) (λ held. read_schema held folder.now loaded.old) (λ v S. AreSchemaFiles folder.now S v) result loaded.new }
    ensures only { OnlyLoads T.files T.faults tree.old tree.new loaded.old loaded.new (IsErrOf result LoadStop.Fault) }
{
    let name = Name::new(within(alloc, folder, "fcs")?);
    match optional_file(alloc, tree, name.as_str(), loaded)? {
        Some(bytes) => load_with(alloc, tree, folder, name, bytes, loaded),
        None => Ok(FeatureFiles {
            fcs: None,
            tables: Vec::new(alloc),
        }),
    }
}

/// The files of the features of the coverage in this folder, in reading order: the schema table `fcs`, where it is there, then row by row the feature
/// tables that it names, each once, with its variable-length index right after it where its rows vary, and the thematic indexes that its columns name,
/// in their order. Feature tables and thematic indexes are read where they are there; a name that no file of a folder can have is passed over as if its
/// file weren't.
///
/// `loaded` counts as in `load_coverage`, and the stops are those of it, but for what is said of tiles: a file that passes a bound, that has a fault, or a
/// variable-length index that is missing. Besides, the schema table is looked at when it is read: that its rows don't vary stops the load as `Varies`
/// where they do, and a column that is absent, or holds no text, as `Finding`.
pub fn load_features<T: Tree>(
    alloc: Global,
    tree: &mut T,
    folder: &str,
    loaded: &mut u64,
) -> Result<FeatureFiles, LoadStop>
    requires { loaded.old ≤ most_loaded }
    // What is loaded, or what stops it, and the bytes that were read, where the tree tells its files.
    ensures told { (files : Files) → T.files tree.old ≡ Some files
        → ReadsAs (λ v S. AreSchemaFiles folder.now S v) result loaded.new (read_schema files folder.now loaded.old) }
    // These hold over every tree.
    ensures are { IfOk result (AreOfSchema folder.now) }
    ensures rising { loaded.old ≤ loaded.new }
    ensures most { loaded.new ≤ most_loaded }
    ensures fault { IsErrOf result LoadStop.Fault → Rose (T.faults tree.old) (T.faults tree.new) }
    ensures stood { ¬ IsErrOf result LoadStop.Fault → Stood (T.faults tree.old) (T.faults tree.new) }
    ensures later { T.faults tree.old ≤ T.faults tree.new }
    ensures files { T.files tree.new ≡ T.files tree.old }
{
    load_all(alloc, tree, folder, loaded)
}
