//! `show`: a table as text.

ghost use Rattle.std.specs.Prelude.{◌≡◌, ◌++◌, IfOk, OnOk, Some, length, map, string_bytes};
ghost use Rattle.std.specs.Option.{option_copied};
ghost use Rattle.vpf_head.specs.Inner.Views.{col};
ghost use Rattle.vpf_source.specs.Files.{Files};
ghost use Rattle.vpf_replies.specs.Halting.{ComesTo, TellsFault};
ghost use Rattle.vpf_table_commands.specs.Show.{optional_name_text, order_line, description_line, narrative_line, type_text, files_text};
ghost use Rattle.vpf_table_commands.specs.Show.{definition_text, column_line, column_lines, cells_text, row_line, row_lines, show_text, show_request};
ghost use Rattle.vpf_table_commands.specs.Show.{show_bytes_answer, show_answer};

use crate::words::one_file;
use std::alloc::{AllocError, Global};
use vpf_findings::text::{put_cell, put_printed};
use vpf_head::{Column, Header};
use vpf_replies::{Halt, Reply, Stop, Verdict, fault, required_file};
use vpf_source::{Name, Tree};
use vpf_table::{Cells, RowView, TableView};
use vpf_triplet::PlaceError;

/// A table to be shown.
#[derive(Debug, Drop)]
pub struct ShowRequest {
    /// The table's file.
    pub file: Name,
}

impl ShowRequest {
    /// The request that the words after the verb spell, or nothing where they spell none.
    pub fn read(alloc: Global, words: &[String]) -> Result<Option<Self>, AllocError>
        ensures { IfOk result (λ request. request ≡ show_request (map string_bytes words.now)) }
    {
        let Some(file) = one_file(alloc, words)? else {
            return Ok(None);
        };
        Ok(Some(ShowRequest { file }))
    }
}

fn put_name(text: &mut String, name: Option<&[u8]>) -> Result<(), AllocError>
    ensures { OnOk result (string_bytes text.new ≡ string_bytes text.old ++ optional_name_text (option_copied name.entry)) }
{
    match name {
        Some(name) => put_printed(text, name),
        None => text.push_str("-"),
    }
}

fn put_order(text: &mut String, header: &Header<'_>) -> Result<(), AllocError>
    ensures { OnOk result (string_bytes text.new ≡ string_bytes text.old ++ order_line header.now) }
{
    let order = header.order();
    write!(text, "order {order}\n")
}

fn put_description(text: &mut String, description: &[u8]) -> Result<(), AllocError>
    ensures { OnOk result (string_bytes text.new ≡ string_bytes text.old ++ description_line description.now) }
{
    text.push_str("description ")?;
    put_printed(text, description)?;
    text.push_str("\n")?;
    Ok(())
}

fn put_narrative(text: &mut String, header: &Header<'_>) -> Result<(), AllocError>
    ensures { OnOk result (string_bytes text.new ≡ string_bytes text.old ++ narrative_line header.now) }
{
    text.push_str("narrative ")?;
    put_name(text, header.narrative())?;
    text.push_str("\n")
}

fn put_type(text: &mut String, column: &Column<'_>) -> Result<(), AllocError>
    ensures { OnOk result (string_bytes text.new ≡ string_bytes text.old ++ type_text (col column.now)) }
{
    let Column {
        kind,
        count,
        key,
        ..
    } = *column;
    write!(text, "{kind},{count} {key}")
}

fn put_files(text: &mut String, column: &Column<'_>) -> Result<(), AllocError>
    ensures { OnOk result (string_bytes text.new ≡ string_bytes text.old ++ files_text (col column.now)) }
{
    put_name(text, column.values)?;
    text.push_str(" ")?;
    put_name(text, column.theme)?;
    text.push_str(" ")?;
    put_name(text, column.narrative)
}

fn put_definition(text: &mut String, column: &Column<'_>) -> Result<(), AllocError>
    ensures { OnOk result (string_bytes text.new ≡ string_bytes text.old ++ definition_text (col column.now)) }
{
    put_type(text, column)?;
    text.push_str(" ")?;
    put_files(text, column)?;
    text.push_str(" ")?;
    put_printed(text, column.description)
}

fn put_column(text: &mut String, number: usize, column: &Column<'_>) -> Result<(), AllocError>
    ensures { OnOk result (string_bytes text.new ≡ string_bytes text.old ++ column_line number (col column.now)) }
{
    write!(text, "column {number} ")?;
    put_printed(text, column.name)?;
    text.push_str(" ")?;
    put_definition(text, column)?;
    text.push_str("\n")
}

fn put_columns(text: &mut String, header: &Header<'_>) -> Result<(), AllocError>
    ensures { OnOk result (string_bytes text.new ≡ string_bytes text.old ++ column_lines 0 header.now.columns) }
{
    for c in 0..header.len() {
        put_column(text, c + 1, header.at(c))?;
    }
    Ok(())
}

fn put_cells(text: &mut String, header: &Header<'_>, cells: Cells<'_, '_>) -> Result<(), AllocError>
    requires { length cells ≡ length header.now.columns }
    ensures { OnOk result (string_bytes text.new ≡ string_bytes text.old ++ cells_text header.now.columns cells.entry) }
{
    // A position fits its type.
    let _columns = header.len();
    let mut c = 0;
    for cell in cells {
        text.push_str(" | ")?;
        put_cell(text, header.at(c).kind, &cell)?;
        c += 1;
    }
    Ok(())
}

fn put_row(
    text: &mut String,
    header: &Header<'_>,
    number: u32,
    row: &RowView<'_, '_>,
) -> Result<(), AllocError>
    requires { length row.now ≡ length header.now.columns }
    ensures { OnOk result (string_bytes text.new ≡ string_bytes text.old ++ row_line header.now.columns number row.now) }
{
    write!(text, "{number}")?;
    put_cells(text, header, row.cells())?;
    text.push_str("\n")
}

fn put_rows(text: &mut String, table: &TableView<'_>) -> Result<(), AllocError>
    ensures { OnOk result (string_bytes text.new ≡ string_bytes text.old ++ row_lines table.now.head.columns 0 table.now.rows) }
{
    let header = table.header();
    // A number of rows fits its type.
    let _rows = table.len();
    let mut number: u32 = 0;
    for row in table.rows() {
        number += 1;
        put_row(text, header, number, &row)?;
    }
    Ok(())
}

fn show_text(alloc: Global, table: &TableView<'_>) -> Result<String, AllocError>
    ensures { IfOk result (λ text. string_bytes text ≡ show_text table.now) }
{
    let header = table.header();
    let mut text = String::new(alloc);
    put_order(&mut text, header)?;
    put_description(&mut text, header.description())?;
    put_narrative(&mut text, header)?;
    put_columns(&mut text, header)?;
    let rows = table.len();
    write!(text, "rows {rows}\n")?;
    put_rows(&mut text, table)?;
    Ok(text)
}

/// The reply over the bytes of a file of this name.
fn show_bytes(alloc: Global, name: &str, bytes: &[u8]) -> Result<Reply, AllocError>
    ensures { IfOk result (λ reply. reply ≡ show_bytes_answer name.now bytes.now) }
{
    match TableView::open(alloc, bytes, None) {
        Ok(table) => Ok(Reply::new(alloc, Verdict::Done, show_text(alloc, &table)?)),
        Err(PlaceError::Place(place)) => fault(alloc, name, place),
        Err(PlaceError::NoMemory) => Err(AllocError),
    }
}

/// Does `show`: a line each for order, description, narrative, columns, the number of rows, and rows.
pub fn show<T: Tree>(alloc: Global, request: &ShowRequest, tree: &mut T) -> Result<Reply, Halt>
    ensures told { (files : Files) → T.files tree.old ≡ Some files → ComesTo (λ answer. answer ≡ show_answer files request.now) result }
    ensures fault { TellsFault result (Halt.Stop Stop.TreeFault) (T.faults tree.old) (T.faults tree.new) }
    ensures files { T.files tree.new ≡ T.files tree.old }
{
    let name = request.file.as_str();
    let bytes = required_file(alloc, tree, name)?;
    Ok(show_bytes(alloc, name, &bytes)?)
}
