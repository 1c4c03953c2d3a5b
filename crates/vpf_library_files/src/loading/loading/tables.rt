//! Tables with their indexes.

ghost use Rattle.std.specs.Prelude.{◌≡◌, ◌≤◌, [], ◌∷◌, ℕ, List, Ok, Option, IfErr, IfOk, IsErrOf, Some, true};
ghost use Rattle.vpf_base.specs.Bytes.{IsBytes};
ghost use Rattle.vpf_source.specs.Files.{Files};
ghost use Rattle.vpf_head.specs.Head.{varies_in};
ghost use Rattle.vpf_source.specs.Names.Indexes.{index_name};
ghost use Rattle.vpf_table.specs.Grid.{Grid};
ghost use Rattle.vpf_table.specs.Inner.Counts.{IsCountOf};
ghost use Rattle.vpf_table.specs.Reading.{table_of};
ghost use Rattle.vpf_library_files.specs.Loading.Holding.{AreFilesOf, AreFilesOfOption};
ghost use Rattle.vpf_library_files.specs.Loading.Loading.{loaded_file, files_in, most_loaded, read_optional_table, read_table};
ghost use Rattle.vpf_library_files.specs.Loading.Loading.{read_table_in, with_own_index, with_its_index};
ghost use Rattle.vpf_library_files.specs.Loading.Loads.{IsTableFound, LoadsAs, ReadsAs, RefusedSo, maybe};
ghost use Rattle.vpf_library_files.specs.Inner.Loading.Only.{OnlyLoads};

use crate::loading::loading::LoadStop;
use crate::loading::loading::files::{optional_file, owned, required_file};
use crate::loading::loading::loaded::LoadedTables;
use std::alloc::{AllocError, Global};
use vpf_source::names::index_name;
use vpf_source::{Bytes, File, Name, Tree};
use vpf_table::laws::{opened_is_read, opened_is_spelled, spelled_is_opened};
use vpf_table::{Counted, TableFile, TableView};
use vpf_triplet::PlaceError;

/// What a slice of bytes holds are bytes.
fn bytes_are_bytes(bytes: &[u8])
    ensures { IsBytes bytes.now }
{}

/// The file of this table's index, which has to be its own.
fn own_index(table: &TableFile<'_>, name: Name, index: Vec<u8>) -> Result<File, LoadStop>
    requires { varies_in table.now.grid.head.columns ≡ true }
    ensures finds { (of : List ℕ) → name ≡ index_name of → (loaded : ℕ)
        → ReadsAs (λ file read. read.files ≡ loaded_file of table.now.bytes ∷ file ∷ []) result loaded
        (with_own_index of table.now.bytes index.items loaded) }
    ensures are { (of : List ℕ) → name ≡ index_name of → table_of table.now.bytes ≡ Ok table.now.grid
        → IfOk result (λ file. AreFilesOf of table.now.grid (loaded_file of table.now.bytes ∷ file ∷ [])) }
    ensures no_fault { ¬ IsErrOf result LoadStop.Fault }
{
    opened_is_read();
    if let Err(place) = table.check_index(&index) {
        return Err(LoadStop::Place(name, place));
    }
    Ok(File {
        name,
        bytes: Bytes::new(index),
    })
}

/// The file of the index of a table whose rows vary.
fn index_file<T: Tree>(
    alloc: Global,
    tree: &mut T,
    name: &str,
    table: &TableFile<'_>,
    loaded: &mut u64,
) -> Result<File, LoadStop>
    requires before { loaded.old ≤ most_loaded }
    requires varies { varies_in table.now.grid.head.columns ≡ true }
    ensures told { (files : Files) → T.files tree.old ≡ Some files
        → ReadsAs (λ file read. read.files ≡ loaded_file name.now table.now.bytes ∷ file ∷ [])
        result loaded.new (with_its_index files name.now table.now.bytes table.now.grid loaded.old) }
    ensures are { table_of table.now.bytes ≡ Ok table.now.grid
        → IfOk result (λ file. AreFilesOf name.now table.now.grid (loaded_file name.now table.now.bytes ∷ file ∷ [])) }
    ensures only { OnlyLoads T.files T.faults tree.old tree.new loaded.old loaded.new (IsErrOf result LoadStop.Fault) }
{
    let index_of = index_name(alloc, name)?;
    let index = required_file(alloc, tree, index_of.as_str(), loaded)?;
    own_index(table, index_of, index)
}

/// The table in the bytes of the file of this name.
fn table_in<'a>(alloc: Global, name: &str, bytes: &'a [u8]) -> Result<TableFile<'a>, LoadStop>
    ensures bytes { IfOk result (λ table. table.bytes ≡ bytes.now) }
    ensures read { IfOk result (λ table. table_of bytes.now ≡ Ok table.grid) }
    ensures refused { IfErr result (RefusedSo name.now (table_of bytes.now)) }
    ensures no_fault { ¬ IsErrOf result LoadStop.Fault }
{
    match TableFile::read(alloc, bytes) {
        Ok(table) => Ok(table),
        Err(PlaceError::Place(place)) => Err(LoadStop::Place(owned(alloc, name)?, place)),
        Err(PlaceError::NoMemory) => Err(LoadStop::NoMemory),
    }
}

/// The table in these bytes, and the file of its index, where its rows vary.
fn index_beside<'b, T: Tree>(
    alloc: Global,
    tree: &mut T,
    name: &str,
    bytes: &'b [u8],
    loaded: &mut u64,
) -> Result<(TableFile<'b>, Option<File>), LoadStop>
    requires { loaded.old ≤ most_loaded }
    ensures told { (files : Files) → T.files tree.old ≡ Some files
        → ReadsAs (λ found read. read.files ≡ loaded_file name.now bytes.now ∷ maybe found.1) result loaded.new
        (read_table_in files name.now bytes.now loaded.old) }
    ensures bytes { IfOk result (λ found. found.0.bytes ≡ bytes.now) }
    ensures are { IfOk result (λ found. AreFilesOf name.now found.0.grid (loaded_file name.now bytes.now ∷ maybe found.1)) }
    ensures only { OnlyLoads T.files T.faults tree.old tree.new loaded.old loaded.new (IsErrOf result LoadStop.Fault) }
{
    opened_is_spelled();
    bytes_are_bytes(bytes);
    let table = table_in(alloc, name, bytes)?;
    if !table.header().varies() {
        return Ok((table, None));
    }
    let index = index_file(alloc, tree, name, &table, loaded)?;
    Ok((table, Some(index)))
}

/// The table in the bytes of the file of this name, and the file of its variable-length index, where its rows vary. So a table is looked at before its
/// files are kept, by the header that was read.
///
/// The stops are those of `load_coverage`, but for those of the table of tiles.
pub fn table_beside<'b, T: Tree>(
    alloc: Global,
    tree: &mut T,
    name: &str,
    bytes: &'b [u8],
    loaded: &mut u64,
) -> Result<(TableFile<'b>, Option<File>), LoadStop>
    requires { loaded.old ≤ most_loaded }
    ensures reads { LoadsAs (T.files tree.old) (λ held. read_table_in held name.now bytes.now loaded.old)
        (λ found table. IsTableFound found.0.grid (loaded_file name.now bytes.now ∷ maybe found.1) table) result loaded.new }
    ensures bytes { IfOk result (λ found. found.0.bytes ≡ bytes.now) }
    ensures are { IfOk result (λ found. AreFilesOf name.now found.0.grid (loaded_file name.now bytes.now ∷ maybe found.1)) }
    ensures only { OnlyLoads T.files T.faults tree.old tree.new loaded.old loaded.new (IsErrOf result LoadStop.Fault) }
{
    spelled_is_opened();
    opened_is_read();
    index_beside(alloc, tree, name, bytes, loaded)
}

/// The table with its index, where its rows vary.
pub(crate) fn view_of<'v>(table: TableFile<'v>, index: &'v Option<File>) -> TableView<'v>
    requires { (name : List ℕ) × AreFilesOf name table.grid (loaded_file name table.bytes ∷ maybe index.now) }
    ensures { result ≡ table.entry.grid }
{
    spelled_is_opened();
    opened_is_read();
    match index {
        Some(index) => table.with_own_index(index.bytes.as_slice()),
        None => table.without_index(),
    }
}

/// The file of a table and that of its index, where it has one.
fn listed(
    alloc: Global,
    name: &str,
    bytes: Vec<u8>,
    index: Option<File>,
) -> Result<Vec<File>, AllocError>
    ensures { IfOk result (λ files. files.items ≡ loaded_file name.now bytes.items ∷ maybe index) }
{
    let mut files = Vec::new(alloc);
    files.push(File {
        name: owned(alloc, name)?,
        bytes: Bytes::new(bytes),
    })?;
    if let Some(index) = index {
        files.push(index)?;
    }
    Ok(files)
}

/// The table of this name in these bytes, with the file of its index, where it has one, and what counting its rows found. Fails only for want of memory.
pub fn kept(
    alloc: Global,
    name: &str,
    bytes: Vec<u8>,
    index: Option<File>,
    counted: Counted,
) -> Result<LoadedTables, AllocError>
    requires are { (grid : Grid) × AreFilesOf name.now grid (loaded_file name.now bytes.items ∷ maybe index) }
    requires counted { IsCountOf bytes.items counted }
    ensures { IfOk result (λ tables. tables ≡ loaded_file name.now bytes.items ∷ maybe index) }
{
    let files = listed(alloc, name, bytes, index)?;
    LoadedTables::of(alloc, files, counted)
}

/// The table in these bytes: its own file, and its index where its rows vary.
fn loaded_table<T: Tree>(
    alloc: Global,
    tree: &mut T,
    name: &str,
    bytes: Vec<u8>,
    loaded: &mut u64,
) -> Result<LoadedTables, LoadStop>
    requires { loaded.old ≤ most_loaded }
    ensures told { (files : Files) → T.files tree.old ≡ Some files
        → ReadsAs (λ v read. read.files ≡ v) result loaded.new (read_table_in files name.now bytes.items loaded.old) }
    ensures are { IfOk result (λ files. (grid : Grid) × AreFilesOf name.now grid files) }
    ensures only { OnlyLoads T.files T.faults tree.old tree.new loaded.old loaded.new (IsErrOf result LoadStop.Fault) }
{
    let (table, index) = index_beside(alloc, tree, name, &bytes, loaded)?;
    let counted = table.counted();
    drop(table);
    Ok(kept(alloc, name, bytes, index, counted)?)
}

/// The table of this name, which has to be there: its own file, and its variable-length index where its rows vary.
///
/// The stops are those of `load_coverage`, but for those of the table of tiles.
pub fn required_table<T: Tree>(
    alloc: Global,
    tree: &mut T,
    name: &str,
    loaded: &mut u64,
) -> Result<LoadedTables, LoadStop>
    requires { loaded.old ≤ most_loaded }
    ensures told { (files : Files) → T.files tree.old ≡ Some files
        → ReadsAs (λ v read. read.files ≡ v) result loaded.new (read_table files name.now loaded.old) }
    ensures are { IfOk result (λ files. (grid : Grid) × AreFilesOf name.now grid files) }
    ensures only { OnlyLoads T.files T.faults tree.old tree.new loaded.old loaded.new (IsErrOf result LoadStop.Fault) }
{
    let bytes = required_file(alloc, tree, name, loaded)?;
    loaded_table(alloc, tree, name, bytes, loaded)
}

/// The table of this name, or none where it is absent.
///
/// The stops are those of `load_coverage`, but for those of the table of tiles.
pub(crate) fn optional_table<T: Tree>(
    alloc: Global,
    tree: &mut T,
    name: &str,
    loaded: &mut u64,
) -> Result<LoadedTables, LoadStop>
    requires { loaded.old ≤ most_loaded }
    ensures told { (files : Files) → T.files tree.old ≡ Some files
        → ReadsAs (λ v read. files_in read ≡ v) result loaded.new (read_optional_table files name.now loaded.old) }
    ensures are { IfOk result (λ files. (grid : Option Grid) × AreFilesOfOption name.now grid files) }
    ensures only { OnlyLoads T.files T.faults tree.old tree.new loaded.old loaded.new (IsErrOf result LoadStop.Fault) }
{
    match optional_file(alloc, tree, name, loaded)? {
        Some(bytes) => loaded_table(alloc, tree, name, bytes, loaded),
        None => Ok(LoadedTables::new(alloc)),
    }
}
