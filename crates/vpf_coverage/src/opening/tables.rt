//! Tables, opened one after another from files.

ghost use Rattle.std.specs.Prelude.{◌≡◌, ◌≢◌, ◌∷◌, [], List, IfOk, IfSome, IsOk, Ok, OnOk, Some};
ghost use Rattle.vpf_source.specs.declared.file.File.{File as SourceFile};
ghost use Rattle.vpf_table.specs.Grid.{Grid};
ghost use Rattle.vpf_table.specs.Inner.Counts.{IsCountOf};
ghost use Rattle.vpf_table.specs.Opening.{opened_of};
ghost use Rattle.vpf_table.specs.Reading.{table_of};
ghost use Rattle.vpf_library_files.specs.Inner.Loading.Counting.{AreCounted, IsFirstCounted, IsFirstNamed};
ghost use Rattle.vpf_library_files.specs.Loading.Loading.{within};
ghost use Rattle.vpf_coverage.specs.Inner.Opening.Opens.{IsOpening, Opens, is_first_file};

use std::alloc::{AllocError, Global};
use std::marker::Model;
use vpf_library_files::loading::{LoadedTables, within};
use vpf_library_files::tileref::TilePaths;
use vpf_source::File;
use vpf_table::laws::{opened_is_read, spelled_is_opened};
use vpf_table::{Counted, TableFile, TableView};
use vpf_triplet::PlaceError;

/// Files of tables that are still to be opened, one table behind another, and where they are known, what counting the rows of each found, and the paths of
/// tiles that the first names. Contracts see them as the files.
#[derive(Drop)]
pub(crate) struct Unopened<'a> {
    files: &'a [File],
    counts: Option<&'a [Counted]>,
    paths: Option<&'a TilePaths>,
}

impl<'a> Model for Unopened<'a> {
    ghost use Rattle.std.specs.Prelude.{List};
    ghost use Rattle.vpf_source.specs.declared.file.File.{File};
    ghost use Rattle.vpf_coverage.specs.Inner.Opening.Unopened.{AreKnown};

    ghost Value = { List File };

    ghost view = { λ u. u.files.now };

    ghost invariant = { AreKnown };
}

/// The next file, which is taken.
fn next_file<'a>(files: &mut &'a [File]) -> &'a File
    requires { files.old.now ≢ [] }
    ensures { files.old.now ≡ result.now ∷ files.new.now }
{
    let Some((file, others)) = files.split_first() else {
        unreachable!()
    };
    *files = others;
    file
}

/// What counting the rows of the first table found, and what it found of the others, where that is known.
fn next_count<'a>(counts: Option<&'a [Counted]>) -> (Option<Counted>, Option<&'a [Counted]>)
    ensures first { (grid : Grid) (rest : List SourceFile) (files : List SourceFile) → Opens grid rest files
        → IfSome counts.entry (λ all. AreCounted files all.now) → IfSome result.0 (IsFirstCounted files) }
    ensures others { (grid : Grid) (rest : List SourceFile) (files : List SourceFile) → Opens grid rest files
        → IfSome counts.entry (λ all. AreCounted files all.now) → IfSome result.1 (λ others. AreCounted rest others.now) }
{
    spelled_is_opened();
    opened_is_read();
    let Some(all) = counts else {
        return (None, None);
    };
    match all.split_first() {
        Some((first, others)) => (Some(*first), Some(others)),
        None => (None, None),
    }
}

/// The table of a file that has one, whose rows aren't counted again where they were. Its header is shared with a given table's, where it is the same.
fn table_in<'a>(
    alloc: Global,
    like: Option<&TableView<'a>>,
    file: &'a File,
    counted: Option<Counted>,
) -> Result<TableFile<'a>, AllocError>
    requires table { IsOk (table_of file.now.bytes) }
    requires counted { IfSome counted (IsCountOf file.now.bytes) }
    ensures bytes { IfOk result (λ table. table.bytes ≡ file.now.bytes) }
    ensures grid { IfOk result (λ table. table_of file.now.bytes ≡ Ok table.grid) }
{
    match counted {
        Some(counted) => counted_table(alloc, like, file, counted),
        None => read_table(alloc, like, file),
    }
}

/// The table of a file whose rows were counted.
fn counted_table<'a>(
    alloc: Global,
    like: Option<&TableView<'a>>,
    file: &'a File,
    counted: Counted,
) -> Result<TableFile<'a>, AllocError>
    requires { IsCountOf file.now.bytes counted }
    ensures bytes { IfOk result (λ table. table.bytes ≡ file.now.bytes) }
    ensures grid { IfOk result (λ table. table_of file.now.bytes ≡ Ok table.grid) }
{
    let bytes = file.bytes.as_slice();
    match like {
        Some(table) => table.counted_like(alloc, bytes, counted),
        None => TableFile::read_counted(alloc, bytes, counted),
    }
}

/// The table of a file, which has one.
fn read_table<'a>(
    alloc: Global,
    like: Option<&TableView<'a>>,
    file: &'a File,
) -> Result<TableFile<'a>, AllocError>
    requires { IsOk (table_of file.now.bytes) }
    ensures bytes { IfOk result (λ table. table.bytes ≡ file.now.bytes) }
    ensures grid { IfOk result (λ table. table_of file.now.bytes ≡ Ok table.grid) }
{
    let bytes = file.bytes.as_slice();
    let read = match like {
        Some(table) => table.read_like(alloc, bytes),
        None => TableFile::read(alloc, bytes),
    };
    match read {
        Ok(table) => Ok(table),
        Err(PlaceError::NoMemory) => Err(AllocError),
        Err(PlaceError::Place(_)) => unreachable!(),
    }
}

/// The table of a file, whose index is the next one where its rows vary.
fn table_of_file<'a>(
    alloc: Global,
    like: Option<&TableView<'a>>,
    file: &'a File,
    counted: Option<Counted>,
    files: &mut &'a [File],
) -> Result<TableView<'a>, AllocError>
    requires opening { IsOpening (file.now ∷ files.old.now) }
    requires counted { IfSome counted (IsCountOf file.now.bytes) }
    ensures table { (grid : Grid) (rest : List SourceFile) → Opens grid rest (file.now ∷ files.old.now) → IfOk result (λ table. table ≡ grid) }
    ensures rest { (grid : Grid) (rest : List SourceFile) → Opens grid rest (file.now ∷ files.old.now) → OnOk result (files.new.now ≡ rest) }
{
    let table = table_in(alloc, like, file, counted)?;
    if !table.header().varies() {
        return Ok(table.without_index());
    }
    Ok(with_index(table, next_file(files)))
}

/// A table with its own index.
fn with_index<'a>(table: TableFile<'a>, index: &'a File) -> TableView<'a>
    requires { IsOk (opened_of table.bytes (Some index.now.bytes)) }
    ensures { opened_of table.entry.bytes (Some index.now.bytes) ≡ Ok result }
{
    table.with_own_index(index.bytes.as_slice())
}

impl<'a> Unopened<'a> {
    /// Files whose tables are read.
    pub(crate) fn of(files: &'a [File]) -> Unopened<'a>
        ensures { result ≡ files.now }
    {
        Unopened {
            files,
            counts: None,
            paths: None,
        }
    }

    /// The files of tables that were loaded, whose rows aren't counted again.
    pub(crate) fn loaded(tables: &'a LoadedTables) -> Unopened<'a>
        ensures { result ≡ tables.now }
    {
        Unopened {
            files: tables.files(),
            counts: Some(tables.counts()),
            paths: tables.paths(),
        }
    }

    /// The paths that the first table names, where they are known.
    pub(crate) fn paths(&self) -> Option<&'a TilePaths>
        ensures { IfSome result (λ paths. IsFirstNamed self.now paths.now) }
    {
        self.paths
    }

    /// Whether there are files, and the first of them has the name in the folder.
    pub(crate) fn is_first(
        &self,
        alloc: Global,
        folder: &str,
        name: &str,
    ) -> Result<bool, AllocError>
        ensures { IfOk result (λ is. is ≡ is_first_file (within folder.now name.now) self.now) }
    {
        let name = within(alloc, folder, name)?;
        match self.files.first() {
            Some(file) => Ok(file.name.as_str() == name.as_str()),
            None => Ok(false),
        }
    }

    /// The next table: its files are taken. Its header is shared with a given table's, where it is the same.
    pub(crate) fn next_table(
        &mut self,
        alloc: Global,
        like: Option<&TableView<'a>>,
    ) -> Result<TableView<'a>, AllocError>
        requires { IsOpening self.old }
        ensures table { (grid : Grid) (rest : List SourceFile) → Opens grid rest self.old → IfOk result (λ table. table ≡ grid) }
        ensures rest { (grid : Grid) (rest : List SourceFile) → Opens grid rest self.old → OnOk result (self.new ≡ rest) }
    {
        let mut files = self.files;
        let file = next_file(&mut files);
        let (counted, counts) = next_count(self.counts);
        let table = table_of_file(alloc, like, file, counted, &mut files)?;
        *self = Unopened {
            files,
            counts,
            paths: None,
        };
        Ok(table)
    }
}
