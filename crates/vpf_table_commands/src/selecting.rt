//! `rows`: the rows that have a value. The files are read one after another, up to the answer.

ghost use Rattle.std.specs.Prelude.{◌≡◌, ◌<◌, IfOk, Some, length, map, slice_get, string_bytes};
ghost use Rattle.vpf_source.specs.Files.{Files};
ghost use Rattle.vpf_head.specs.Head.{Col};
ghost use Rattle.vpf_head.specs.Inner.Views.{col};
ghost use Rattle.vpf_source.specs.Names.Indexes.{index_name};
ghost use Rattle.vpf_source.specs.Names.Naming.{file_name};
ghost use Rattle.vpf_replies.specs.Halting.{ComesTo, TellsFault};
ghost use Rattle.vpf_table_commands.specs.Rows.{by_theme, column_answer, grid_rows_answer, rows_answer, rows_bytes_answer, rows_request_of};
ghost use Rattle.vpf_table_commands.specs.Rows.{rows_request, theme_file, varying_answer, with_index};

mod listing;
mod scanning;

use crate::words::{Word, word_of};
use listing::rows_by_index;
use scanning::rows_by_scan;
use std::alloc::{AllocError, Global};
use vpf_head::Column;
use vpf_replies::{
    Halt, Refusal, Reply, Stop, fault, optional_file, place_of, refuse, required_file,
};
use vpf_source::names::{file_beside, file_name, index_name};
use vpf_source::{Name, Tree};
use vpf_table::{TableFile, TableView};
use vpf_triplet::PlaceError;

/// Rows to be selected.
#[derive(Debug, Drop)]
pub struct RowsRequest {
    /// The table's file.
    pub file: Name,
    /// The name of the column.
    pub column: Word,
    /// The value in it.
    pub value: Word,
}

/// The request of three words.
fn read_words(
    alloc: Global,
    file: &str,
    column: &str,
    value: &str,
) -> Result<Option<RowsRequest>, AllocError>
    ensures { IfOk result (λ request. request ≡ rows_request_of (file_name file.now) column.now value.now) }
{
    let Some(file) = file_name(alloc, file)? else {
        return Ok(None);
    };
    Ok(Some(RowsRequest {
        file,
        column: word_of(alloc, column)?,
        value: word_of(alloc, value)?,
    }))
}

impl RowsRequest {
    /// The request that the words after the verb spell, or nothing where they spell none.
    pub fn read(alloc: Global, words: &[String]) -> Result<Option<Self>, AllocError>
        ensures { IfOk result (λ request. request ≡ rows_request (map string_bytes words.now)) }
    {
        match words {
            [file, column, value] => read_words(alloc, file, column, value),
            _ => Ok(None),
        }
    }
}

/// The thematic index that a column names, in the folder of the table's file.
fn theme_file(
    alloc: Global,
    request: &RowsRequest,
    column: &Column<'_>,
) -> Result<Option<Name>, AllocError>
    ensures { IfOk result (λ name. name ≡ theme_file request.now (col column.now)) }
{
    match column.theme {
        Some(item) => file_beside(alloc, request.file.as_str(), item),
        None => Ok(None),
    }
}

/// The reply over the column at this position, from 0, by the index of this name where it is there.
fn by_theme<T: Tree>(
    alloc: Global,
    request: &RowsRequest,
    table: &TableView<'_>,
    c: usize,
    name: &Name,
    tree: &mut T,
) -> Result<Reply, Halt>
    requires { c < length table.now.head.columns }
    ensures told { (column : Col) → slice_get table.now.head.columns c ≡ Some column
        → (files : Files) → T.files tree.old ≡ Some files → ComesTo (λ answer. answer ≡ by_theme files request.now table.now c column (Some name.now)) result }
    ensures fault { TellsFault result (Halt.Stop Stop.TreeFault) (T.faults tree.old) (T.faults tree.new) }
    ensures files { T.files tree.new ≡ T.files tree.old }
{
    match optional_file(alloc, tree, name.as_str())? {
        Some(bytes) => Ok(rows_by_index(alloc, request, table, c, name, &bytes)?),
        None => Ok(rows_by_scan(alloc, request, table, c)?),
    }
}

/// The reply over the column at this position, from 0.
fn rows_of_column<T: Tree>(
    alloc: Global,
    request: &RowsRequest,
    table: &TableView<'_>,
    c: usize,
    tree: &mut T,
) -> Result<Reply, Halt>
    requires { c < length table.now.head.columns }
    ensures told { (column : Col) → slice_get table.now.head.columns c ≡ Some column
        → (files : Files) → T.files tree.old ≡ Some files → ComesTo (λ answer. answer ≡ column_answer files request.now table.now c column) result }
    ensures fault { TellsFault result (Halt.Stop Stop.TreeFault) (T.faults tree.old) (T.faults tree.new) }
    ensures files { T.files tree.new ≡ T.files tree.old }
{
    match theme_file(alloc, request, table.header().at(c))? {
        Some(name) => by_theme(alloc, request, table, c, &name, tree),
        None => Ok(rows_by_scan(alloc, request, table, c)?),
    }
}

/// The reply over a table, which finds its rows so.
fn rows_of_table<T: Tree>(
    alloc: Global,
    request: &RowsRequest,
    table: &TableView<'_>,
    tree: &mut T,
) -> Result<Reply, Halt>
    ensures told { (files : Files) → T.files tree.old ≡ Some files
        → ComesTo (λ answer. answer ≡ grid_rows_answer (column_answer files request.now) request.now table.now) result }
    ensures fault { TellsFault result (Halt.Stop Stop.TreeFault) (T.faults tree.old) (T.faults tree.new) }
    ensures files { T.files tree.new ≡ T.files tree.old }
{
    match place_of(table.header(), request.column.as_str()) {
        Some(c) => rows_of_column(alloc, request, table, c, tree),
        None => Ok(refuse(alloc, Refusal::NoColumn(request.column.as_str().as_bytes()))?),
    }
}

/// The reply over a table with its variable-length index.
fn rows_with_index<'f, T: Tree>(
    alloc: Global,
    request: &RowsRequest,
    file: TableFile<'f>,
    name: &str,
    index: &'f [u8],
    tree: &mut T,
) -> Result<Reply, Halt>
    requires { name.now ≡ index_name request.now.file }
    ensures told { (files : Files) → T.files tree.old ≡ Some files
        → ComesTo (λ answer. answer ≡ with_index (column_answer files request.now) request.now file.entry.bytes index.now) result }
    ensures fault { TellsFault result (Halt.Stop Stop.TreeFault) (T.faults tree.old) (T.faults tree.new) }
    ensures files { T.files tree.new ≡ T.files tree.old }
{
    match file.with_index(index) {
        Ok(table) => rows_of_table(alloc, request, &table, tree),
        Err(place) => Ok(fault(alloc, name, place)?),
    }
}

/// The reply over a table whose rows vary. Its index is kept for as long as the table, which finds its rows by it.
fn rows_of_varying<'f, T: Tree>(
    alloc: Global,
    request: &RowsRequest,
    file: TableFile<'f>,
    kept: &'f mut Option<Vec<u8>>,
    tree: &mut T,
) -> Result<Reply, Halt>
    ensures told { (files : Files) → T.files tree.old ≡ Some files
        → ComesTo (λ answer. answer ≡ varying_answer (column_answer files request.now) files request.now file.entry.bytes file.entry.grid) result }
    ensures fault { TellsFault result (Halt.Stop Stop.TreeFault) (T.faults tree.old) (T.faults tree.new) }
    ensures files { T.files tree.new ≡ T.files tree.old }
{
    let name = index_name(alloc, request.file.as_str())?;
    *kept = optional_file(alloc, tree, name.as_str())?;
    match kept {
        Some(index) => rows_with_index(alloc, request, file, name.as_str(), index, tree),
        None => rows_of_table(alloc, request, &file.without_index(), tree),
    }
}

/// The reply over the bytes of the table's file, with the other files of the tree.
fn rows_bytes<T: Tree>(
    alloc: Global,
    request: &RowsRequest,
    bytes: &[u8],
    tree: &mut T,
) -> Result<Reply, Halt>
    ensures told { (files : Files) → T.files tree.old ≡ Some files → ComesTo (λ answer. answer ≡ rows_bytes_answer files request.now bytes.now) result }
    ensures fault { TellsFault result (Halt.Stop Stop.TreeFault) (T.faults tree.old) (T.faults tree.new) }
    ensures files { T.files tree.new ≡ T.files tree.old }
{
    let mut index = None;
    match TableFile::read(alloc, bytes) {
        Ok(file) if file.header().varies() => rows_of_varying(
            alloc, request, file, &mut index, tree,
        ),
        Ok(file) => rows_of_table(alloc, request, &file.without_index(), tree),
        Err(PlaceError::Place(place)) => Ok(fault(alloc, request.file.as_str(), place)?),
        Err(PlaceError::NoMemory) => Err(Halt::Stop(Stop::NoMemory)),
    }
}

/// Does `rows`: the rows that have a value, a line each, and their number. After the table its variable-length index is read, where
/// its rows vary, and then the thematic index that the column names, each where it is there.
pub fn rows<T: Tree>(alloc: Global, request: &RowsRequest, tree: &mut T) -> Result<Reply, Halt>
    ensures told { (files : Files) → T.files tree.old ≡ Some files → ComesTo (λ answer. answer ≡ rows_answer files request.now) result }
    ensures fault { TellsFault result (Halt.Stop Stop.TreeFault) (T.faults tree.old) (T.faults tree.new) }
    ensures files { T.files tree.new ≡ T.files tree.old }
{
    let bytes = required_file(alloc, tree, request.file.as_str())?;
    rows_bytes(alloc, request, &bytes, tree)
}
