//! Tables that were loaded, one behind another.

ghost use Rattle.std.specs.Prelude.{◌≡◌, IfOk};
ghost use Rattle.std.specs.Option.{option_copied};
ghost use Rattle.vpf_table.specs.Grid.{Grid};
ghost use Rattle.vpf_table.specs.Inner.Counts.{IsCountOf};
ghost use Rattle.vpf_table.specs.Spans.{IsOpened};

use crate::tileref::TilePaths;
use std::alloc::{AllocError, Global};
use std::marker::Model;
use vpf_source::File;
use vpf_table::laws::{opened_is_read, spelled_is_opened};
use vpf_table::{Counted, TableFile, TableView};

/// The table of bytes whose rows were counted, with its index where one is given.
fn counted_table<'a>(
    alloc: Global,
    bytes: &'a [u8],
    index: Option<&'a [u8]>,
    counted: Counted,
) -> Result<TableView<'a>, AllocError>
    requires opened { (grid : Grid) × IsOpened grid bytes.now (option_copied index) }
    requires counted { IsCountOf bytes.now counted }
    ensures { (grid : Grid) → IsOpened grid bytes.now (option_copied index.entry) → IfOk result (λ table. table ≡ grid) }
{
    spelled_is_opened();
    opened_is_read();
    let table = TableFile::read_counted(alloc, bytes, counted)?;
    match index {
        Some(index) => Ok(table.with_own_index(index)),
        None => Ok(table.without_index()),
    }
}

/// Tables that were loaded: their files, one table behind another, each with its variable-length index right after it where its rows vary, and what
/// counting the rows of each found; where the first is the table of tiles of a coverage, the paths that it names. Contracts see them as the files.
#[derive(Drop)]
pub struct LoadedTables {
    files: Vec<File>,
    counts: Vec<Counted>,
    paths: Option<TilePaths>,
}

impl Model for LoadedTables {
    ghost use Rattle.std.specs.Prelude.{List};
    ghost use Rattle.vpf_source.specs.declared.file.File.{File};
    ghost use Rattle.vpf_library_files.specs.Inner.Loading.Counting.{AreLoaded};

    ghost Value = { List File };

    ghost view = { λ t. t.files.items };

    ghost invariant = { λ t. AreLoaded t.files.items t.counts.items t.paths };
}

impl LoadedTables {
    ghost use Rattle.std.specs.Prelude.{◌≡◌, ◌==◌, ◌++◌, ℕ, List, [], IfOk, IfSome, OnOk, length};
    ghost use Rattle.vpf_table.specs.Grid.{Grid};
    ghost use Rattle.vpf_library_files.specs.Inner.Loading.Counting.{AreCounted, IsCountedTable, IsFirstNamed};
    ghost use Rattle.vpf_library_files.specs.Loading.Holding.{AreFilesOf};

    /// No tables.
    pub fn new(alloc: Global) -> LoadedTables
        ensures { result ≡ [] }
    {
        LoadedTables {
            files: Vec::new(alloc),
            counts: Vec::new(alloc),
            paths: None,
        }
    }

    /// The one table of these files, whose rows were counted so. Fails only for want of memory.
    pub(crate) fn of(
        alloc: Global,
        files: Vec<File>,
        counted: Counted,
    ) -> Result<LoadedTables, AllocError>
        requires { IsCountedTable files.items counted }
        ensures { IfOk result (λ tables. tables ≡ files.items) }
    {
        let mut counts = Vec::new(alloc);
        counts.push(counted)?;
        Ok(LoadedTables {
            files,
            counts,
            paths: None,
        })
    }

    /// The same tables, of which the first is a table of tiles that names these paths.
    pub(crate) fn naming(self, paths: TilePaths) -> LoadedTables
        requires { IsFirstNamed self paths }
        ensures { result ≡ self }
    {
        LoadedTables {
            files: self.files,
            counts: self.counts,
            paths: Some(paths),
        }
    }

    /// Whether there are none.
    pub fn is_empty(&self) -> bool
        ensures { result ≡ (length self.now == 0) }
    {
        self.files.is_empty()
    }

    /// Puts other tables behind these. Fails only for want of memory.
    pub(crate) fn append(&mut self, tables: LoadedTables) -> Result<(), AllocError>
        ensures { OnOk result (self.new ≡ self.old ++ tables) }
    {
        let mut counts = tables.counts;
        let mut files = tables.files;
        self.counts.reserve(counts.len())?;
        self.files.append(&mut files)?;
        self.counts.append(&mut counts)?;
        Ok(())
    }

    /// Their files, in reading order.
    pub fn files(&self) -> &[File]
        ensures { result.now ≡ self.now }
    {
        self.files.as_slice()
    }

    /// What counting the rows of each table found, in the same order.
    pub fn counts(&self) -> &[Counted]
        ensures { AreCounted self.now result.now }
    {
        self.counts.as_slice()
    }

    /// The paths that the first table names, where it is known as a table of tiles.
    pub fn paths(&self) -> Option<&TilePaths>
        ensures { IfSome result (λ paths. IsFirstNamed self.now paths.now) }
    {
        self.paths.as_ref()
    }

    /// The only table, opened: its header is read once more, and no row is looked at. Fails only for want of memory.
    pub fn only(&self, alloc: Global) -> Result<TableView<'_>, AllocError>
        requires { (name : List ℕ) × (grid : Grid) × AreFilesOf name grid self.now }
        ensures { (name : List ℕ) (grid : Grid) → AreFilesOf name grid self.now → IfOk result (λ table. table ≡ grid) }
    {
        let Some(counted) = self.counts.first() else {
            unreachable!()
        };
        match self.files.as_slice() {
            [table, index] => {
                let index = Some(index.bytes.as_slice());
                counted_table(alloc, table.bytes.as_slice(), index, *counted)
            }
            [table] => counted_table(alloc, table.bytes.as_slice(), None, *counted),
            _ => unreachable!(),
        }
    }

    /// Their files alone.
    pub fn into_files(self) -> Vec<File>
        ensures { result.items ≡ self }
    {
        self.files
    }
}
