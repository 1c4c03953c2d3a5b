//! `index`: a thematic index of a column.

ghost use Rattle.std.specs.Prelude.{◌≡◌, ◌<◌, ◌∷◌, [], IfOk, Some, length, map, slice_get, string_bytes};
ghost use Rattle.vpf_source.specs.Files.{Files};
ghost use Rattle.vpf_head.specs.Head.{Col};
ghost use Rattle.vpf_source.specs.Names.Naming.{file_name};
ghost use Rattle.vpf_replies.specs.Halting.{ComesTo, TellsFault};
ghost use Rattle.vpf_replies.specs.Making.{made_answer};
ghost use Rattle.vpf_table_commands.specs.Index.{built_answer, form_named, grid_index_answer};
ghost use Rattle.vpf_table_commands.specs.Index.{index_request_of, index_request, index_bytes_answer, index_answer};

use crate::words::{Word, word_of};
use std::alloc::{AllocError, Global};
use vpf_replies::{
    Halt, Refusal, Reply, Stop, fault, file_of, limit, makes, place_of, refuse, required_file,
};
use vpf_source::names::{file_name, last_part};
use vpf_source::{Bytes, Name, Tree};
use vpf_table::{Bound, TableView};
use vpf_theme::Form;
use vpf_theme_build::{BuildError, build};
use vpf_triplet::PlaceError;

/// A thematic index to be made.
#[derive(Debug, Drop)]
pub struct IndexRequest {
    /// The table's file.
    pub file: Name,
    /// The name of the column.
    pub column: Word,
    /// Whether rows are listed or marked.
    pub form: Form,
    /// The index's file.
    pub out: Name,
}

/// The form of a thematic index that a word names.
fn form_of(kind: &str) -> Option<Form>
    ensures { result ≡ form_named kind.now }
{
    match kind {
        "list" => Some(Form::List),
        "bitmap" => Some(Form::Bitmap),
        _ => None,
    }
}

/// The request of four words.
fn read_words(
    alloc: Global,
    file: &str,
    column: &str,
    kind: &str,
    out: &str,
) -> Result<Option<IndexRequest>, AllocError>
    ensures { IfOk result (λ request. request ≡ index_request_of (file_name file.now) column.now (form_named kind.now) (file_name out.now)) }
{
    let Some(file) = file_name(alloc, file)? else {
        return Ok(None);
    };
    let Some(form) = form_of(kind) else {
        return Ok(None);
    };
    let Some(out) = file_name(alloc, out)? else {
        return Ok(None);
    };
    if file.as_str() == out.as_str() {
        return Ok(None);
    }
    Ok(Some(IndexRequest {
        file,
        column: word_of(alloc, column)?,
        form,
        out,
    }))
}

impl IndexRequest {
    /// The request that the words after the verb spell, or nothing where they spell none.
    pub fn read(alloc: Global, words: &[String]) -> Result<Option<Self>, AllocError>
        ensures { IfOk result (λ request. request ≡ index_request (map string_bytes words.now)) }
    {
        match words {
            [file, column, kind, out] => read_words(alloc, file, column, kind, out),
            _ => Ok(None),
        }
    }
}

/// The reply of making a file of these bytes.
fn make_one(alloc: Global, name: &str, bytes: Vec<u8>) -> Result<Reply, AllocError>
    ensures { IfOk result (λ reply. reply ≡ made_answer (record { name = name.now; bytes = bytes.items } ∷ [])) }
{
    let mut files = Vec::new(alloc);
    files.push(file_of(alloc, name, Bytes::new(bytes))?)?;
    makes(alloc, files)
}

/// The reply of making an index of the column at this position, from 0.
fn index_of_column(
    alloc: Global,
    request: &IndexRequest,
    table: &TableView<'_>,
    c: usize,
) -> Result<Reply, AllocError>
    requires { c < length table.now.head.columns }
    ensures { (column : Col) → slice_get table.now.head.columns c ≡ Some column → IfOk result (λ reply. reply ≡ built_answer request.now table.now c column) }
{
    let file = last_part(alloc, request.file.as_str())?;
    match build(alloc, table, file.as_bytes(), c, request.form) {
        Ok(bytes) => make_one(alloc, request.out.as_str(), bytes),
        Err(BuildError::Kind) => refuse(
            alloc,
            Refusal::NoIndex(request.column.as_str().as_bytes()),
        ),
        Err(BuildError::Limit { size }) => limit(alloc, Bound::File, request.out.as_str(), size),
        Err(BuildError::NoMemory) => Err(AllocError),
    }
}

/// The reply of making an index of a column of a table.
fn index_of_table(
    alloc: Global,
    request: &IndexRequest,
    table: &TableView<'_>,
) -> Result<Reply, AllocError>
    ensures { IfOk result (λ reply. reply ≡ grid_index_answer request.now table.now) }
{
    match place_of(table.header(), request.column.as_str()) {
        Some(c) => index_of_column(alloc, request, table, c),
        None => refuse(alloc, Refusal::NoColumn(request.column.as_str().as_bytes())),
    }
}

/// The reply over the bytes of the table's file.
fn index_bytes(alloc: Global, request: &IndexRequest, bytes: &[u8]) -> Result<Reply, AllocError>
    ensures { IfOk result (λ reply. reply ≡ index_bytes_answer request.now bytes.now) }
{
    match TableView::open(alloc, bytes, None) {
        Ok(table) => index_of_table(alloc, request, &table),
        Err(PlaceError::Place(place)) => fault(alloc, request.file.as_str(), place),
        Err(PlaceError::NoMemory) => Err(AllocError),
    }
}

/// Does `index`: the thematic index of a column, as a list or a bitmap, under another name.
pub fn index<T: Tree>(alloc: Global, request: &IndexRequest, tree: &mut T) -> Result<Reply, Halt>
    ensures told { (files : Files) → T.files tree.old ≡ Some files → ComesTo (λ answer. answer ≡ index_answer files request.now) result }
    ensures fault { TellsFault result (Halt.Stop Stop.TreeFault) (T.faults tree.old) (T.faults tree.new) }
    ensures files { T.files tree.new ≡ T.files tree.old }
{
    let bytes = required_file(alloc, tree, request.file.as_str())?;
    Ok(index_bytes(alloc, request, &bytes)?)
}
