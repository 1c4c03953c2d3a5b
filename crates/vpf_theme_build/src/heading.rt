//! The header of a thematic index, written.

ghost use Rattle.std.specs.Prelude.{◌≡◌, ◌<◌, ◌++◌, ◌^◌, OnOk};
ghost use Rattle.vpf_theme.specs.Layouts.{HasValues, directory_end, form_text, row_size_text};
ghost use Rattle.vpf_theme_build.specs.Text.{header_text, spaced};

use std::alloc::AllocError;
use vpf_theme::{Form, Layout, RowSize};

/// The bytes of the header that name the table's file.
const TABLE_NAME_BYTES: usize = 12;

/// The bytes of the header that name the column.
const COLUMN_NAME_BYTES: usize = 25;

/// The letter of a form.
fn form_text(form: Form) -> &'static [u8]
    ensures { result.now ≡ form_text form }
{
    match form {
        Form::List => b"T",
        Form::Bitmap => b"B",
    }
}

/// The letter of a type of row numbers.
fn row_size_text(size: RowSize) -> &'static [u8]
    ensures { result.now ≡ row_size_text size }
{
    match size {
        RowSize::Short => b"S",
        RowSize::Long => b"I",
    }
}

/// Appends the first bytes of a name, so many, with spaces after it.
fn put_spaced(name: &[u8], len: usize, out: &mut Vec<u8>) -> Result<(), AllocError>
    ensures { OnOk result (out.new.items ≡ out.old.items ++ spaced len name.now) }
{
    for i in 0..len {
        let byte = if i < name.len() { name[i] } else { b' ' };
        out.push(byte)?;
    }
    Ok(())
}

/// Appends the header, with the names of the table's file and of the column.
pub fn put_header(
    layout: &Layout,
    table: &[u8],
    column: &[u8],
    out: &mut Vec<u8>,
) -> Result<(), AllocError>
    requires values { HasValues layout.now }
    requires small { directory_end layout.now < 2 ^ 32 }
    ensures { OnOk result (out.new.items ≡ out.old.items ++ header_text layout.now table.now column.now) }
{
    let order = layout.order;
    order.put_u32(layout.directory_end() as u32, out)?;
    order.put_u32(layout.entries, out)?;
    order.put_u32(layout.rows, out)?;
    out.extend_from_slice(form_text(layout.form))?;
    out.extend_from_slice(layout.kind.letter().as_bytes())?;
    order.put_u32(layout.count, out)?;
    out.extend_from_slice(row_size_text(layout.row_size))?;
    put_spaced(table, TABLE_NAME_BYTES, out)?;
    put_spaced(column, COLUMN_NAME_BYTES, out)?;
    out.extend_from_slice(b"S\0\0\0")?;
    Ok(())
}
