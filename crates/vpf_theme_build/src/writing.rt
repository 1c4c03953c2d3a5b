//! The bytes of a thematic index.

ghost use Rattle.std.specs.Prelude.{◌≡◌, ◌<◌, ◌≤◌, ◌+◌, ◌/◌, ◌++◌, ◌^◌, ◌==◌, All, MatchBool, OnOk, length, map};
ghost use Rattle.std.specs.List.{list_any};
ghost use Rattle.std.specs.List.Sorted.{IsStrictlyIncreasing};
ghost use Rattle.vpf_base.specs.Numbers.{number};
ghost use Rattle.vpf_theme.specs.Spelling.{row_width, row_numbers_text};
ghost use Rattle.vpf_theme_build.specs.Grouping.{IsNext, group_entry, spot_row};
ghost use Rattle.vpf_theme_build.specs.Text.{bitmap_text, row_bits, count_by, data_text, entry_text, offset_by, row_size_for};
ghost use Rattle.vpf_theme_build.specs.Inner.Writing.{AreEntryRows, FitsSpot, data_len, is_alone};

use crate::grouping::Spot;
use std::alloc::AllocError;
use vpf_theme::{Form, Layout, RowSize};
use vpf_triplet::Count;
use vpf_value::put_cell;

/// The most rows of a table whose row numbers have 2 bytes.
const MOST_SHORT_ROWS: u32 = 32_767;

/// The type of the row numbers of a table of so many rows.
pub fn row_size_for(rows: u32) -> RowSize
    ensures { result ≡ row_size_for rows }
{
    if rows <= MOST_SHORT_ROWS {
        RowSize::Short
    } else {
        RowSize::Long
    }
}

/// Appends a row number. After an error the bytes are not those of an index.
fn put_row(layout: &Layout, row: u32, out: &mut Vec<u8>) -> Result<(), AllocError>
    requires size { layout.now.row_size ≡ row_size_for layout.now.rows }
    requires row { row ≤ layout.now.rows }
    ensures { OnOk result (out.new.items ≡ out.old.items ++ number layout.now.order (row_width layout.now.row_size) row) }
{
    match layout.row_size {
        RowSize::Short => layout.order.put_u16(row as u16, out),
        RowSize::Long => layout.order.put_u32(row, out),
    }
}

/// Appends the rows of a list.
fn put_rows(layout: &Layout, spots: &[Spot<'_>], out: &mut Vec<u8>) -> Result<(), AllocError>
    requires size { layout.now.row_size ≡ row_size_for layout.now.rows }
    requires rows { All (λ s. s.row ≤ layout.now.rows) spots.now }
    ensures { OnOk result (out.new.items ≡ out.old.items ++ row_numbers_text layout.now.order layout.now.row_size (map spot_row spots.now)) }
{
    for spot in spots {
        put_row(layout, spot.row, out)?;
    }
    Ok(())
}

/// Whether the row is that of spot `next`, where the rows of the spots before are below it.
fn is_next(spots: &[Spot<'_>], next: usize, row: u32) -> bool
    requires next { IsNext (map spot_row spots.now) next row }
    requires rise { IsStrictlyIncreasing (map spot_row spots.now) }
    ensures row { result ≡ list_any (λ r. r == row) (map spot_row spots.now) }
    ensures behind { MatchBool result (IsNext (map spot_row spots.now) (next + 1) (row + 1)) (IsNext (map spot_row spots.now) next (row + 1)) }
{
    next < spots.len() && spots[next].row == row
}

/// The bits of 8 rows from `first` on: those of an entry among them begin with spot `next`. The spot behind them comes with
/// the bits.
fn byte_at(spots: &[Spot<'_>], next: usize, first: u32) -> (u8, usize)
    requires few { first + 8 < 2 ^ 32 }
    requires next { IsNext (map spot_row spots.now) next first }
    requires rise { IsStrictlyIncreasing (map spot_row spots.now) }
    ensures byte { result.0 ≡ row_bits (map spot_row spots.now) first 8 }
    ensures next { IsNext (map spot_row spots.now) result.1 (first + 8) }
{
    let mut byte = 0;
    let mut behind = next;
    for b in 0..8 {
        if is_next(spots, behind, first + b) {
            byte |= 1 << b;
            behind += 1;
        }
    }
    (byte, behind)
}

/// How many bytes a bitmap has.
fn bitmap_len(rows: u32) -> usize
    ensures { result ≡ (rows + 7) / 8 }
{
    (rows as usize + 7) / 8
}

/// Appends a bitmap.
fn put_bitmap(rows: u32, spots: &[Spot<'_>], out: &mut Vec<u8>) -> Result<(), AllocError>
    requires few { rows < 2 ^ 24 }
    requires first { All (λ s. 1 ≤ s.row) spots.now }
    requires rise { IsStrictlyIncreasing (map spot_row spots.now) }
    ensures { OnOk result (out.new.items ≡ out.old.items ++ bitmap_text rows (map spot_row spots.now)) }
{
    let mut next = 0;
    for j in 0..bitmap_len(rows) {
        let (byte, behind) = byte_at(spots, next, 8 * j as u32 + 1);
        next = behind;
        out.push(byte)?;
    }
    Ok(())
}

/// Whether an entry of so many rows has no data: a list of one row.
fn is_alone(layout: &Layout, rows: usize) -> bool
    ensures { result ≡ is_alone layout.now.form rows }
{
    layout.form == Form::List && rows == 1
}

/// How many bytes the data of an entry of so many rows have.
pub fn data_len(layout: &Layout, rows: usize) -> usize
    requires { rows < 2 ^ 32 }
    ensures { result ≡ data_len layout.now rows }
{
    if is_alone(layout, rows) {
        return 0;
    }
    match layout.form {
        Form::List => rows * layout.row_size.bytes(),
        Form::Bitmap => bitmap_len(layout.rows),
    }
}

/// Appends the data of an entry.
pub fn put_data(layout: &Layout, spots: &[Spot<'_>], out: &mut Vec<u8>) -> Result<(), AllocError>
    requires { AreEntryRows layout.now (map spot_row spots.now) }
    ensures { OnOk result (out.new.items ≡ out.old.items ++ data_text layout.now (map spot_row spots.now)) }
{
    if is_alone(layout, spots.len()) {
        return Ok(());
    }
    match layout.form {
        Form::List => put_rows(layout, spots, out),
        Form::Bitmap => put_bitmap(layout.rows, spots, out),
    }
}

/// The offset and the count of an entry whose data begin at `at`.
fn extent_of(layout: &Layout, at: u32, spots: &[Spot<'_>]) -> (u32, u32)
    requires some { 0 < length spots.now }
    requires few { length spots.now < 2 ^ 32 }
    ensures offset { result.0 ≡ offset_by layout.now.form at (map spot_row spots.now) }
    ensures count { result.1 ≡ count_by layout.now.form layout.now (map spot_row spots.now) }
{
    if is_alone(layout, spots.len()) {
        return (spots[0].row, 0);
    }
    match layout.form {
        Form::List => (at, spots.len() as u32),
        Form::Bitmap => (at, bitmap_len(layout.rows) as u32),
    }
}

/// Appends an entry whose data begin at `at`.
pub fn put_entry(
    layout: &Layout,
    at: u32,
    spots: &[Spot<'_>],
    out: &mut Vec<u8>,
) -> Result<(), AllocError>
    requires some { 0 < length spots.now }
    requires few { length spots.now < 2 ^ 32 }
    requires fits { All (FitsSpot layout.now) spots.now }
    ensures { OnOk result (out.new.items ≡ out.old.items ++ entry_text layout.now at (group_entry spots.now)) }
{
    let (offset, count) = extent_of(layout, at, spots);
    put_cell(
        layout.order,
        layout.kind,
        Count::Fixed(layout.count),
        &spots[0].cell,
        out,
    )?;
    layout.order.put_u32(offset, out)?;
    layout.order.put_u32(count, out)?;
    Ok(())
}
