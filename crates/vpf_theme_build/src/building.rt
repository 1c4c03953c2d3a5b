//! Thematic indexes of columns.

ghost use Rattle.std.specs.Prelude.{◌≡◌, ◌<◌, ◌≤◌, ◌+◌, ◌++◌, ◌^◌, All, IfOk, OnOk, Some, length, map, slice_get};
ghost use Rattle.vpf_base.specs.Limits.{most_bytes};
ghost use Rattle.vpf_triplet.specs.declared.kinds.Count.{Count};
ghost use Rattle.vpf_head.specs.Head.{Col};
ghost use Rattle.vpf_theme.specs.Layouts.{HasValues, directory_end, is_indexed};
ghost use Rattle.vpf_theme.specs.Findings.{cells_of};
ghost use Rattle.vpf_theme_build.specs.Grouping.{IsGroup, entry_in};
ghost use Rattle.vpf_theme_build.specs.Text.{all_data, directory_text, index_len, index_text};
ghost use Rattle.vpf_theme_build.specs.Inner.Writing.{AreEntries, FitsSpot};
ghost use Rattle.vpf_theme_build.specs.Building.{AgreeAt, AreRead, Builds, CanBuild, built_by, within_limit};

use crate::errors::BuildError;
use crate::grouping::{Group, Spot, groups_of, sorted_spots};
use crate::heading::put_header;
use crate::laws::{built_indexes_agree, built_indexes_are_read};
use crate::writing::{data_len, put_data, put_entry, row_size_for};
use std::alloc::{AllocError, Global};
use vpf_base::limits::MOST_FILE_BYTES;
use vpf_table::TableView;
use vpf_theme::{Form, Layout};
use vpf_triplet::{Count, Kind};

/// Whether a kind can be indexed.
fn is_indexed(kind: Kind) -> bool
    ensures { result ≡ is_indexed kind }
{
    !matches!(
        kind,
        Kind::X | Kind::K | Kind::C | Kind::B | Kind::Z | Kind::Y
    )
}

/// How many bytes the index has.
fn index_len(layout: &Layout, spots: &[Spot<'_>], groups: &[Group]) -> u64
    requires values { HasValues layout.now }
    requires groups { All (IsGroup spots.now) groups.now }
    requires spots { length spots.now < 2 ^ 24 }
    requires few { length groups.now < 2 ^ 24 }
    requires rows { layout.now.rows < 2 ^ 24 }
    ensures { result ≡ index_len layout.now (map (entry_in spots.now) groups.now) }
{
    let mut len = layout.directory_end() as u64;
    for group in groups {
        len += data_len(layout, group.end - group.start) as u64;
    }
    len
}

/// Appends the directory, whose data begin at `at`.
fn put_directory(
    layout: &Layout,
    at: u32,
    spots: &[Spot<'_>],
    groups: &[Group],
    out: &mut Vec<u8>,
) -> Result<(), AllocError>
    requires groups { All (IsGroup spots.now) groups.now }
    requires fits { All (FitsSpot layout.now) spots.now }
    requires spots { length spots.now < 2 ^ 24 }
    requires small { at + length (all_data layout.now (map (entry_in spots.now) groups.now)) < 2 ^ 32 }
    ensures { OnOk result (out.new.items ≡ out.old.items ++ directory_text layout.now at (map (entry_in spots.now) groups.now)) }
{
    let mut behind = at;
    for group in groups {
        let entry = &spots[group.start..group.end];
        put_entry(layout, behind, entry, out)?;
        behind += data_len(layout, group.end - group.start) as u32;
    }
    Ok(())
}

/// Appends the data of the entries.
fn put_all_data(
    layout: &Layout,
    spots: &[Spot<'_>],
    groups: &[Group],
    out: &mut Vec<u8>,
) -> Result<(), AllocError>
    requires groups { All (IsGroup spots.now) groups.now }
    requires rows { AreEntries layout.now spots.now groups.now }
    ensures { OnOk result (out.new.items ≡ out.old.items ++ all_data layout.now (map (entry_in spots.now) groups.now)) }
{
    for group in groups {
        put_data(layout, &spots[group.start..group.end], out)?;
    }
    Ok(())
}

/// The bytes of an index, of which there are so many.
fn write_index(
    alloc: Global,
    size: usize,
    layout: &Layout,
    table: &[u8],
    column: &[u8],
    spots: &[Spot<'_>],
    groups: &[Group],
) -> Result<Vec<u8>, AllocError>
    requires values { HasValues layout.now }
    requires groups { All (IsGroup spots.now) groups.now }
    requires fits { All (FitsSpot layout.now) spots.now }
    requires spots { length spots.now < 2 ^ 24 }
    requires rows { AreEntries layout.now spots.now groups.now }
    requires small { index_len layout.now (map (entry_in spots.now) groups.now) ≤ most_bytes }
    ensures { IfOk result (λ out. out.items ≡ index_text layout.now table.now column.now (map (entry_in spots.now) groups.now)) }
{
    let mut out = Vec::with_capacity(alloc, size)?;
    put_header(layout, table, column, &mut out)?;
    put_directory(
        layout,
        layout.directory_end() as u32,
        spots,
        groups,
        &mut out,
    )?;
    put_all_data(layout, spots, groups, &mut out)?;
    Ok(out)
}

/// The bytes of an index, unless they are too many.
fn finish(
    alloc: Global,
    layout: &Layout,
    table: &[u8],
    column: &[u8],
    spots: &[Spot<'_>],
    groups: &[Group],
) -> Result<Vec<u8>, BuildError>
    requires values { HasValues layout.now }
    requires groups { All (IsGroup spots.now) groups.now }
    requires fits { All (FitsSpot layout.now) spots.now }
    requires spots { length spots.now < 2 ^ 24 }
    requires few { length groups.now < 2 ^ 24 }
    requires some { layout.now.rows < 2 ^ 24 }
    requires rows { AreEntries layout.now spots.now groups.now }
    ensures { Builds (λ v. v.items) result (within_limit (index_len layout.now (map (entry_in spots.now) groups.now))
        (index_text layout.now table.now column.now (map (entry_in spots.now) groups.now))) }
{
    let size = index_len(layout, spots, groups);
    if size > MOST_FILE_BYTES {
        return Err(BuildError::Limit { size });
    }
    let size = size as usize;
    Ok(write_index(alloc, size, layout, table, column, spots, groups)?)
}

/// The index of a column that can be indexed.
fn build_fixed(
    alloc: Global,
    table: &TableView<'_>,
    table_name: &[u8],
    column: usize,
    count: u32,
    form: Form,
) -> Result<Vec<u8>, BuildError>
    requires { CanBuild table.now column count }
    ensures bytes { (c : Col) → slice_get table.now.head.columns column ≡ Some c
        → Builds (λ v. v.items) result (built_by table.now.head.order table_name.now form c (cells_of table.now column) (Count.Fixed count)) }
    ensures opened { IfOk result (λ v. AreRead table.now column form v.items) }
    ensures agrees { IfOk result (λ v. AgreeAt table.now column v.items) }
{
    built_indexes_are_read();
    built_indexes_agree();
    let header = table.header();
    // What is true of each header, and of the rows of each table.
    let _columns = header.len();
    let _rows = table.rows();
    let found = header.at(column);
    let spots = sorted_spots(alloc, table, column)?;
    let groups = groups_of(alloc, &spots)?;
    let layout = Layout {
        order: header.order(),
        form,
        kind: found.kind,
        count,
        row_size: row_size_for(table.len()),
        rows: table.len(),
        entries: groups.len() as u32,
        sorted: true,
    };
    finish(alloc, &layout, table_name, found.name, &spots, &groups)
}

/// The thematic index of a column, in the order of its table: an entry for each value, sorted and marked so, with the data in
/// the order of the entries right behind the directory; a list of one row as a count of 0; and row numbers of 2 bytes where
/// the table has at most 32,767 rows. The names of the table's file and of the column are cut or filled with spaces.
/// Refused where the kind can't be indexed or each row says how many values its cell holds, and then where the index would
/// pass 67,108,864 bytes. The rows are passed once and sorted.
pub fn build(
    alloc: Global,
    table: &TableView<'_>,
    table_name: &[u8],
    column: usize,
    form: Form,
) -> Result<Vec<u8>, BuildError>
    requires { column < length table.now.head.columns }
    // The bytes of the index, or why there are none.
    ensures bytes { (c : Col) → slice_get table.now.head.columns column ≡ Some c
        → Builds (λ v. v.items) result (built_by table.now.head.order table_name.now form c (cells_of table.now column) c.count) }
    // These bytes are read as the index of the column's cells.
    ensures opened { IfOk result (λ v. AreRead table.now column form v.items) }
    // The index that they are read as agrees with the column.
    ensures agrees { IfOk result (λ v. AgreeAt table.now column v.items) }
{
    let header = table.header();
    let found = header.at(column);
    let Count::Fixed(count) = found.count else {
        return Err(BuildError::Kind);
    };
    if !is_indexed(found.kind) {
        return Err(BuildError::Kind);
    }
    build_fixed(alloc, table, table_name, column, count, form)
}
