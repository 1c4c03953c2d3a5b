//! The files of features, as they are kept.

ghost use Rattle.std.specs.Prelude.{◌≡◌, IfOk, Ok};
ghost use Rattle.vpf_table.specs.Inner.Counts.{IsCountOf};
ghost use Rattle.vpf_table.specs.Reading.{table_of};

use std::alloc::{AllocError, Global};
use std::marker::Model;
use vpf_library_files::loading::LoadedTables;
use vpf_source::{File, Name};
use vpf_table::{Counted, TableFile, TableView};

/// The file of a schema table, and what counting its rows found. Contracts see it as the file.
#[derive(Drop)]
pub struct SchemaFile {
    file: File,
    counted: Counted,
}

impl Model for SchemaFile {
    ghost use Rattle.vpf_source.specs.declared.file.File.{File};
    ghost use Rattle.vpf_table.specs.Inner.Counts.{IsCountOf};

    ghost Value = { File };

    ghost view = { λ s. s.file };

    ghost invariant = { λ s. IsCountOf s.file.bytes s.counted };
}

impl SchemaFile {
    /// A file of a table, and what counting its rows found.
    pub(crate) fn new(file: File, counted: Counted) -> SchemaFile
        requires { IsCountOf file.bytes counted }
        ensures { result ≡ file }
    {
        SchemaFile { file, counted }
    }

    /// The table, opened: its header is read once more, and no row is looked at. Fails only for want of memory.
    pub fn view(&self, alloc: Global) -> Result<TableView<'_>, AllocError>
        ensures { IfOk result (λ table. table_of self.now.bytes ≡ Ok table) }
    {
        let table = TableFile::read_counted(alloc, self.file.bytes.as_slice(), self.counted)?;
        Ok(table.without_index())
    }
}

/// The files of a feature table.
#[derive(Drop)]
pub struct TableFiles {
    /// The name of the table's file in the folder of the coverage.
    pub name: Name,
    /// That table alone, with its variable-length index where the rows vary.
    pub table: LoadedTables,
    /// For each column, in order, the file of the thematic index that it names, where one is there.
    pub indexes: Vec<Option<File>>,
}

/// The files of the features of a coverage.
#[derive(Drop)]
pub struct FeatureFiles {
    /// The schema table, `fcs`, where there is one.
    pub fcs: Option<SchemaFile>,
    /// The feature tables that it names, as far as they are there, in the order of reading.
    pub tables: Vec<TableFiles>,
}
