//! The first fault among the entries of a directory.

ghost use Rattle.std.specs.Prelude.{◌≡◌, ◌<◌, ◌^◌};
ghost use Rattle.vpf_theme.specs.Layouts.{HasValues};
ghost use Rattle.vpf_theme.specs.Entries.{IsWhole};
ghost use Rattle.vpf_theme.specs.Reading.{Faults, bitmap_line, cut_line, entries_line, entry_line, is_bitmap, is_behind, is_row, list_line};
ghost use Rattle.vpf_theme.specs.Reading.{numbers_line, rises_at, entry_rows_line, sort_line};

use crate::comparing::compare;
use crate::entries::{Extent, extent_at, is_marked, number_at, value_at};
use crate::layout::{Form, Layout};
use vpf_triplet::{Code, Place};

/// Entry `i` is whole in the file.
fn check_whole(layout: &Layout, bytes: &[u8], i: u32) -> Result<(), Place>
    requires { HasValues layout.now }
    ensures { Faults result (cut_line layout.now bytes.now i) }
{
    let at = layout.entry_start(i);
    if bytes.len() < at + layout.entry_bytes() {
        return Err(Place::in_theme(at, Code::ThemeCut));
    }
    Ok(())
}

/// Whether the value of entry `i` is above that of the entry before.
fn rises_at(layout: &Layout, bytes: &[u8], i: u32) -> bool
    requires values { HasValues layout.now }
    requires second { 0 < i }
    requires whole { IsWhole layout.now bytes.now i }
    ensures { result ≡ rises_at layout.now bytes.now i }
{
    compare(&value_at(layout, bytes, i - 1), &value_at(layout, bytes, i)).is_lt()
}

/// The value of entry `i` is above that of the entry before, where the directory is marked as sorted.
fn check_order(layout: &Layout, bytes: &[u8], i: u32) -> Result<(), Place>
    requires values { HasValues layout.now }
    requires whole { IsWhole layout.now bytes.now i }
    ensures { Faults result (sort_line layout.now bytes.now i) }
{
    if layout.sorted && i > 0 && !rises_at(layout, bytes, i) {
        return Err(Place::in_theme(layout.entry_start(i), Code::ThemeSort));
    }
    Ok(())
}

/// Whether so many bytes lie between the end of the directory and the end of the file.
fn is_data(layout: &Layout, bytes: &[u8], offset: u32, len: usize) -> bool
    requires values { HasValues layout.now }
    requires few { len < 2 ^ 35 }
    ensures { result ≡ is_behind layout.now bytes.now offset len }
{
    let offset = offset as usize;
    layout.directory_end() <= offset && offset + len <= bytes.len()
}

/// Whether it is the number of a row of the table.
fn is_row(layout: &Layout, n: u32) -> bool
    ensures { result ≡ is_row layout.now n }
{
    n >= 1 && n <= layout.rows
}

/// The numbers of a list are rows of the table, and lie behind the directory.
fn check_numbers(layout: &Layout, bytes: &[u8], i: u32, extent: Extent) -> Result<(), Place>
    requires values { HasValues layout.now }
    ensures { Faults result (numbers_line layout.now bytes.now i extent) }
{
    let size = layout.row_size.bytes();
    if !is_data(layout, bytes, extent.offset, extent.count as usize * size) {
        return Err(Place::in_theme(layout.entry_start(i), Code::ThemeSpan));
    }
    for k in 0..extent.count {
        if !is_row(layout, number_at(layout, bytes, extent.offset, k)) {
            return Err(Place::in_theme(extent.offset as usize + k as usize * size, Code::ThemeRow));
        }
    }
    Ok(())
}

/// The rows of a list are rows of the table.
fn check_list(layout: &Layout, bytes: &[u8], i: u32, extent: Extent) -> Result<(), Place>
    requires values { HasValues layout.now }
    ensures { Faults result (list_line layout.now bytes.now i extent) }
{
    if extent.count > 0 {
        return check_numbers(layout, bytes, i, extent);
    }
    if !is_row(layout, extent.offset) {
        return Err(Place::in_theme(layout.entry_start(i), Code::ThemeRow));
    }
    Ok(())
}

/// Whether a bitmap has a byte for each 8 rows, and its bytes lie behind the directory.
fn is_bitmap(layout: &Layout, bytes: &[u8], extent: Extent) -> bool
    requires values { HasValues layout.now }
    ensures { result ≡ is_bitmap layout.now bytes.now extent }
{
    let count = extent.count as usize;
    count == (layout.rows as usize + 7) / 8 && is_data(layout, bytes, extent.offset, count)
}

/// A bitmap lies behind the directory, and no bit past the rows is set.
fn check_bitmap(layout: &Layout, bytes: &[u8], i: u32, extent: Extent) -> Result<(), Place>
    requires values { HasValues layout.now }
    ensures { Faults result (bitmap_line layout.now bytes.now i extent) }
{
    if !is_bitmap(layout, bytes, extent) {
        return Err(Place::in_theme(layout.entry_start(i), Code::ThemeSpan));
    }
    for k in u64::from(layout.rows)..8 * u64::from(extent.count) {
        if is_marked(bytes, extent.offset, k) {
            return Err(Place::in_theme(extent.offset as usize + k as usize / 8, Code::ThemePad));
        }
    }
    Ok(())
}

/// The rows of entry `i` are rows of the table, and their data lie behind the directory.
fn check_rows(layout: &Layout, bytes: &[u8], i: u32, extent: Extent) -> Result<(), Place>
    requires values { HasValues layout.now }
    ensures { Faults result (entry_rows_line layout.now.form layout.now bytes.now i extent) }
{
    match layout.form {
        Form::List => check_list(layout, bytes, i, extent),
        Form::Bitmap => check_bitmap(layout, bytes, i, extent),
    }
}

/// Entry `i` has no fault.
#[tactic(auto, unfolding(crate::specs::Reading::entry_line))]
fn check_entry(layout: &Layout, bytes: &[u8], i: u32) -> Result<(), Place>
    requires values { HasValues layout.now }
    ensures { Faults result (entry_line layout.now bytes.now i) }
{
    check_whole(layout, bytes, i)?;
    check_order(layout, bytes, i)?;
    check_rows(layout, bytes, i, extent_at(layout, bytes, i))
}

/// No entry has a fault, or this is the first.
#[tactic(auto, unfolding(crate::specs::Reading::entries_line))]
pub fn check_entries(layout: &Layout, bytes: &[u8]) -> Result<(), Place>
    requires values { HasValues layout.now }
    ensures { Faults result (entries_line layout.now bytes.now) }
{
    for i in 0..layout.entries {
        check_entry(layout, bytes, i)?;
    }
    Ok(())
}
