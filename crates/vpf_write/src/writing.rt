//! Writing a table from its header and its cells.

ghost use Rattle.std.specs.Prelude.{◌≡◌, ◌<◌, ◌+◌, ◌-◌, ◌%◌, ◌^◌, [], min, OnOk, length, map, All};
ghost use Rattle.vpf_value.specs.Values.{view};
ghost use Rattle.vpf_head.specs.Canonical.{canonical_text, canonical_header};
ghost use Rattle.vpf_head.specs.Head.{varies_in};
ghost use Rattle.vpf_write.specs.declared.writing.WriteError.TheVariants.{NoMemory};
ghost use Rattle.vpf_table.specs.Canonical.{FitsRow, row_text};
ghost use Rattle.vpf_write.specs.Inner.Cuts.{cut, grid_of_cells};
ghost use Rattle.vpf_write.specs.Inner.Tallies.{Holds};
ghost use Rattle.vpf_write.specs.Writing.{past, limit_by, Writes};

use crate::cell_list::CellList;
use crate::table_writer::TableWriter;
use std::alloc::{AllocError, Global};
use thiserror::Error;
use vpf_base::limits;
use vpf_base::limits::{LONGEST_TEXT, MOST_FILE_BYTES};
use vpf_head::Header;
use vpf_source::Bytes;
use vpf_table::{Bound, Limit};
use vpf_triplet::Part;
use vpf_value::{Cell, spelled_len};

/// The most bytes of a header text.
pub(crate) const MOST_TEXT: u64 = LONGEST_TEXT as u64;

/// The most rows of a table.
const MOST_ROWS: u64 = limits::MOST_ROWS as u64;

/// The most bytes of a file.
pub(crate) const MOST_BYTES: u64 = MOST_FILE_BYTES;

/// What is written of a table.
#[derive(Debug, Drop)]
pub struct Written {
    /// The bytes of the table's file.
    pub table: Bytes,
    /// The bytes of its variable-length index, which it has where its rows may vary.
    pub index: Option<Bytes>,
}

/// Why a table isn't written.
#[derive(Clone, Copy, Debug, PartialEq, Eq, Error)]
pub enum WriteError {
    /// The table, or its index, would pass this limit.
    #[error("past the limit: {1}")]
    Limit(Part, Limit),
    /// Memory ran out.
    #[error("out of memory")]
    NoMemory,
}

impl From<AllocError> for WriteError {
    ghost from_gives = { λ _ error. error ≡ NoMemory };

    fn from(_: AllocError) -> Self {
        WriteError::NoMemory
    }
}

fn past(part: Part, what: Bound, found: u64) -> Option<(Part, Limit)>
    ensures { result ≡ past part what found }
{
    Some((part, Limit { what, found }))
}

#[tactic(auto, unfolding(crate::specs::Writing::limit_by))]
fn limit_by(text: u64, rows: u64, size: u64, varies: bool) -> Option<(Part, Limit)>
    ensures { result ≡ limit_by text rows size varies }
{
    if text > MOST_TEXT {
        return past(Part::Table, Bound::Header, text);
    }
    if rows > MOST_ROWS {
        return past(Part::Table, Bound::Rows, rows);
    }
    if size > MOST_BYTES {
        return past(Part::Table, Bound::File, size);
    }
    let index = 8 + 8 * rows;
    if varies && index > MOST_BYTES {
        return past(Part::Index, Bound::File, index);
    }
    None
}

/// The first limit that is passed by a table whose header text has so many bytes, and its rows, so many, so many.
pub(crate) fn limit_of(text: u64, rows: u64, rows_len: u64, varies: bool) -> Option<(Part, Limit)>
    ensures { result ≡ limit_by text rows (4 + text + rows_len) varies }
{
    let size = rows_len.saturating_add(4).saturating_add(text);
    limit_by(text, rows, size, varies)
}

/// The first limit that is passed by a table of this header and so many rows, which have so many bytes.
pub(crate) fn first_limit(header: &Header<'_>, rows: usize, rows_len: u64) -> Option<(Part, Limit)>
    ensures { result ≡ limit_by (length (canonical_text header.now)) rows (length (canonical_header header.now) + rows_len) (varies_in header.now.columns) }
{
    limit_of(header.text_len(), rows as u64, rows_len, header.varies())
}

/// How many bytes a row of these cells has, or the last number of 64 bits where they are more.
pub(crate) fn cells_len(header: &Header<'_>, cells: &[Cell<'_>]) -> u64
    requires { FitsRow header.now.columns (map view cells.now) }
    ensures { result ≡ min (length (row_text header.now.order header.now.columns (map view cells.now))) (2 ^ 64 - 1) }
{
    let mut sum: u64 = 0;
    for c in 0..header.len() {
        let column = header.at(c);
        let len = spelled_len(column.kind, column.count, &cells[c]);
        sum = sum.saturating_add(len as u64);
    }
    sum
}

/// Puts so many rows of so many cells.
fn put_rows(
    writer: &mut TableWriter<'_, '_>,
    width: usize,
    cells: &CellList<'_>,
    rows: usize,
) -> Result<(), AllocError>
    requires some { 0 < width }
    requires width { width ≡ length writer.old.head.columns }
    requires fits { All (FitsRow writer.old.head.columns) (cut (length writer.old.head.columns) rows cells.now) }
    requires begun { Holds writer.old [] }
    ensures head { writer.new.head ≡ writer.old.head }
    ensures put { OnOk result (Holds writer.new (cut (length writer.old.head.columns) rows cells.now)) }
{
    let _all = cells.len();
    let mut from = 0;
    for _r in 0..rows {
        let next = from + width;
        writer.put_row(cells.between(from, next))?;
        from = next;
    }
    Ok(())
}

/// The canonical table of this header whose rows are the cells, cut after each last column, and its variable-length index,
/// which it has exactly where its rows may vary. `Limit` exactly where the header text would pass 65,536 bytes, the rows
/// 16,777,215, or the table or the index 67,108,864 bytes: the first of them, the index told as `Part::Index`, with the
/// number that passes, or 2^64 - 1 where that is more.
pub fn write(
    alloc: Global,
    header: &Header<'_>,
    cells: &CellList<'_>,
) -> Result<Written, WriteError>
    // There is a cell for each column of each row.
    requires whole { length cells.now % length header.now.columns ≡ 0 }
    // Each cell fits its column.
    requires fits { All (FitsRow header.now.columns) (grid_of_cells header.now cells.now).rows }
    ensures { Writes (grid_of_cells header.now cells.now) result }
{
    let width = header.len();
    let mut writer = TableWriter::new(alloc, header)?;
    put_rows(&mut writer, width, cells, cells.len() / width)?;
    writer.finish()
}
