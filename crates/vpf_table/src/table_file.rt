//! A table in its file, before it has an index.

ghost use Rattle.std.specs.Prelude.{◌≡◌, ◌≤◌, IfOk, Ok, length};
ghost use Rattle.vpf_triplet.specs.Places.{Answers};
ghost use Rattle.vpf_head.specs.Reading.{header_of};
ghost use Rattle.vpf_table.specs.Inner.Counts.{IsCountOf};
ghost use Rattle.vpf_table.specs.Reading.{table_of};

use crate::counted::Counted;
use crate::counting::count_rows;
use crate::fixed_rows::{FixedRows, fixed_rows, most_len};
use crate::indexing::bytes_are_bytes;
use crate::iteration::Rows;
use crate::laws::cells_and_headers;
use crate::placed_header::PlacedHeader;
use crate::row::RowView;
use crate::walking::row_width;
use std::alloc::{AllocError, Global};
use std::marker::Model;
use std::rc::Rc;
use vpf_head::Header;
use vpf_triplet::{Place, PlaceError};
use vpf_varindex::IndexView;

/// A table whose header and rows stay in the file (MIL-STD-2407, 5.4, VPF table encoding), to be seen without its
/// variable-length index or with it. Contracts see it as the bytes of the file and the table that they spell.
#[derive(Drop)]
pub struct TableFile<'a> {
    pub(crate) header: Rc<PlacedHeader<'a>>,
    pub(crate) bytes: &'a [u8],
    pub(crate) start: usize,
    rows: u32,
    pub(crate) width: Option<usize>,
}

impl<'a> Model for TableFile<'a> {
    ghost use Rattle.vpf_table.specs.Inner.FileTables.{FileTable};

    ghost Value = { FileTable };

    ghost use Rattle.vpf_table.specs.Inner.TableFiles.{file_of, IsRead};

    ghost view = { file_of };

    ghost invariant = { IsRead };
}

/// A header with its offsets, to be shared.
fn shared<'a>(alloc: Global, header: Header<'a>) -> Result<Rc<PlacedHeader<'a>>, AllocError>
    ensures { IfOk result (λ shared. shared.value ≡ header.entry) }
{
    let placed = PlacedHeader::new(alloc, header)?;
    match Rc::new(alloc, placed) {
        Ok(shared) => Ok(shared),
        Err(_full) => Err(AllocError),
    }
}

/// The header that a file begins with, to be shared, and where it ends.
fn header_in<'a>(
    alloc: Global,
    bytes: &'a [u8],
) -> Result<(Rc<PlacedHeader<'a>>, usize), PlaceError>
    ensures inside { IfOk result (λ found. found.1 ≤ length bytes.now) }
    ensures exact { Answers (λ found. (found.0.value, found.1)) result (header_of bytes.now) }
{
    let (header, start) = match Header::read(alloc, bytes) {
        Ok(found) => found,
        Err(error) => return Err(error),
    };
    match shared(alloc, header) {
        Ok(shared) => Ok((shared, start)),
        Err(_full) => Err(PlaceError::NoMemory),
    }
}

/// The table of a file that begins with this header, which ends at `start`.
fn table_behind<'a>(
    header: Rc<PlacedHeader<'a>>,
    bytes: &'a [u8],
    start: usize,
) -> Result<TableFile<'a>, PlaceError>
    requires inside { start ≤ length bytes.now }
    requires begun { header_of bytes.now ≡ Ok (header.value, start) }
    ensures bytes { IfOk result (λ file. file.bytes ≡ bytes.now) }
    ensures exact { Answers (λ file. file.grid) result (table_of bytes.now) }
{
    let width = row_width(header.as_ref());
    let rows = match count_rows(header.as_ref(), bytes, start, width) {
        Ok(rows) => rows,
        Err(place) => return Err(PlaceError::Place(place)),
    };
    Ok(TableFile {
        header,
        bytes,
        start,
        rows,
        width,
    })
}

/// The table of bytes that were counted, which begin with this header.
fn table_counted<'a>(
    header: Rc<PlacedHeader<'a>>,
    bytes: &'a [u8],
    start: usize,
    counted: Counted,
) -> TableFile<'a>
    requires begun { header_of bytes.now ≡ Ok (header.value, start) }
    requires counted { IsCountOf bytes.now counted }
    ensures bytes { result.bytes ≡ bytes.now }
    ensures exact { table_of bytes.now ≡ Ok result.grid }
{
    TableFile {
        header,
        bytes,
        start,
        rows: counted.rows,
        width: counted.width,
    }
}

impl<'a> TableFile<'a> {
    ghost use Rattle.std.specs.Prelude.{◌≡◌, ◌≤◌, ◌<◌, ◌^◌, ℕ, All, false, IfOk, IfSome, IsSome, IsTrue, Ok, Some, length, slice_get};
    ghost use Rattle.vpf_base.specs.Bytes.{IsBytes};
    ghost use Rattle.vpf_triplet.specs.Places.{Answers, Gives};
    ghost use Rattle.vpf_base.specs.declared.orders.Order.{Order};
    ghost use Rattle.vpf_head.specs.Head.{varies_in};
    ghost use Rattle.vpf_table.specs.Canonical.{FitsRow, rows_text};
    ghost use Rattle.vpf_table.specs.Opening.{opened_of, row_spans};
    ghost use Rattle.vpf_base.specs.Limits.{most_rows};
    ghost use Rattle.vpf_table.specs.Reading.{table_of};
    ghost use Rattle.vpf_table.specs.Inner.Widths.{width_of};

    /// The table of a file: its header, and one row after another up to the end. Refused exactly where the bytes are no
    /// table, at the first fault, as `TableView::open` tells. Rows of one width are counted without a look at them. Takes
    /// memory for the header alone.
    pub fn read(alloc: Global, bytes: &'a [u8]) -> Result<TableFile<'a>, PlaceError>
        ensures bytes { IfOk result (λ file. file.bytes ≡ bytes.now) }
        // The table, or the first fault, unless memory ran out.
        ensures exact { Answers (λ file. file.grid) result (table_of bytes.now) }
    {
        match header_in(alloc, bytes) {
            Ok((header, start)) => table_behind(header, bytes, start),
            Err(error) => Err(error),
        }
    }

    /// This table's header, shared, and where it ends, where the bytes begin with it.
    fn header_like(&self, bytes: &[u8]) -> Option<(Rc<PlacedHeader<'a>>, usize)>
        ensures inside { IfSome result (λ found. found.1 ≤ length bytes.now) }
        ensures read { IfSome result (λ found. header_of bytes.now ≡ Ok (found.0.value, found.1)) }
    {
        cells_and_headers();
        bytes_are_bytes(self.bytes);
        if !bytes.starts_with(&self.bytes[..self.start]) {
            return None;
        }
        match self.header.clone() {
            Ok(header) => Some((header, self.start)),
            Err(_many) => None,
        }
    }

    /// The table of a file, exactly as `read` tells it. Where the file begins with the bytes of this table's header, that
    /// header is shared, and no memory is taken.
    pub(crate) fn read_like(
        &self,
        alloc: Global,
        bytes: &'a [u8],
    ) -> Result<TableFile<'a>, PlaceError>
        ensures bytes { IfOk result (λ file. file.bytes ≡ bytes.now) }
        ensures exact { Answers (λ file. file.grid) result (table_of bytes.now) }
    {
        match self.header_like(bytes) {
            Some((header, start)) => table_behind(header, bytes, start),
            None => TableFile::read(alloc, bytes),
        }
    }

    /// What counting found, to be kept beside the bytes.
    pub fn counted(&self) -> Counted
        ensures { IsCountOf self.now.bytes result }
    {
        Counted {
            start: self.start,
            rows: self.rows,
            width: self.width,
        }
    }

    /// The table of bytes that were counted, as `read` tells it: the header is read once more, and no row is looked at. Fails
    /// only where there is no memory for the header.
    pub fn read_counted(
        alloc: Global,
        bytes: &'a [u8],
        counted: Counted,
    ) -> Result<TableFile<'a>, AllocError>
        requires { IsCountOf bytes.now counted }
        ensures bytes { IfOk result (λ file. file.bytes ≡ bytes.now) }
        ensures exact { IfOk result (λ file. table_of bytes.now ≡ Ok file.grid) }
    {
        match header_in(alloc, bytes) {
            Ok((header, start)) => Ok(table_counted(header, bytes, start, counted)),
            Err(PlaceError::NoMemory) => Err(AllocError),
            Err(PlaceError::Place(_)) => unreachable!(),
        }
    }

    /// The table of bytes that were counted. Where the file begins with the bytes of this table's header, that header is
    /// shared, and no memory is taken.
    pub(crate) fn counted_like(
        &self,
        alloc: Global,
        bytes: &'a [u8],
        counted: Counted,
    ) -> Result<TableFile<'a>, AllocError>
        requires { IsCountOf bytes.now counted }
        ensures bytes { IfOk result (λ file. file.bytes ≡ bytes.now) }
        ensures exact { IfOk result (λ file. table_of bytes.now ≡ Ok file.grid) }
    {
        match self.header_like(bytes) {
            Some((header, start)) => Ok(table_counted(header, bytes, start, counted)),
            None => TableFile::read_counted(alloc, bytes, counted),
        }
    }

    /// The header.
    pub fn header(&self) -> &Header<'a>
        ensures { result.now ≡ self.now.grid.head }
    {
        self.header.as_ref().header()
    }

    /// The number of rows.
    pub(crate) fn len(&self) -> u32
        ensures value { result ≡ length self.now.grid.rows }
        ensures most { result ≤ most_rows }
    {
        self.rows
    }

    /// Whether the rows have one width, which fits a number.
    pub(crate) fn has_width(&self) -> bool
        ensures found { IsTrue result → IsSome (width_of self.now.grid.head.columns) }
        ensures known { (w : ℕ) → width_of self.now.grid.head.columns ≡ Some w → w < 2 ^ 64 → IsTrue result }
    {
        self.width.is_some()
    }

    /// What the file holds are bytes.
    pub(crate) fn bytes_are_bytes(&self)
        ensures { IsBytes self.now.bytes }
    {
        bytes_are_bytes(self.bytes);
    }

    /// The entries of an index, which must be these rows' own. Else its first fault.
    pub(crate) fn own_index<'i>(&self, index: &'i [u8]) -> Result<IndexView<'i>, Place>
        ensures own { IfOk result (λ entries. entries ≡ row_spans self.now.bytes self.now.grid) }
        ensures exact { Gives (λ _. self.now.grid) result (opened_of self.now.bytes (Some index.now)) }
    {
        // What is true of each table in its file.
        let _start = self.start;
        self.own_entries(index)
    }

    /// Row `k`, counted from 0: in constant time where rows have one width or an index, and else by a walk from the first.
    pub(crate) fn row(&self, index: &Option<IndexView<'_>>, k: u32) -> RowView<'_, 'a>
        requires own { IfSome index.now (λ entries. entries ≡ row_spans self.now.bytes self.now.grid) }
        requires within { k < length self.now.grid.rows }
        ensures row { slice_get self.now.grid.rows k ≡ Some result }
        ensures width { length result ≡ length self.now.grid.head.columns }
    {
        let at = self.place_of_row(index, k);
        RowView::new(self.header.as_ref(), self.bytes, at)
    }

    /// Each row once, in order.
    pub(crate) fn rows(&self) -> Rows<'_, 'a>
        ensures rows { result ≡ self.now.grid.rows }
        ensures width { All (λ row. length row ≡ length self.now.grid.head.columns) result }
        ensures fits { All (FitsRow self.now.grid.head.columns) result }
    {
        Rows::new(self.header.as_ref(), self.bytes, self.start, self.width)
    }

    /// No fewer bytes than the rows have in canonical spelling, in either order.
    pub(crate) fn most_len(&self) -> usize
        ensures { (order : Order) → length (rows_text order self.now.grid.head.columns self.now.grid.rows) ≤ result }
    {
        most_len(self.header.as_ref(), self.bytes, self.start)
    }

    /// The rows as they lie in the file, where they have one width, of some bytes: in their canonical spelling.
    pub(crate) fn fixed_rows(&self) -> Option<FixedRows<'_>>
        ensures known { (w : ℕ) → width_of self.now.grid.head.columns ≡ Some w → 0 < w → w < 2 ^ 64 → varies_in self.now.grid.head.columns ≡ false
            → IsSome result }
        ensures some { IfSome result (λ rows. 0 < rows.width) }
        ensures width { IfSome result (λ rows. width_of self.now.grid.head.columns ≡ Some rows.width) }
        ensures alike { IfSome result (λ rows. varies_in self.now.grid.head.columns ≡ false) }
        ensures bytes { IfSome result (λ rows. rows.bytes.now ≡ rows_text self.now.grid.head.order self.now.grid.head.columns self.now.grid.rows) }
        ensures fits { IfSome result (λ rows. All (FitsRow self.now.grid.head.columns) self.now.grid.rows) }
    {
        fixed_rows(self.header.as_ref(), self.bytes, self.start, self.width)
    }
}
