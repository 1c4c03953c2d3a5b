//! A table, seen in its file.

use crate::counted::Counted;
use crate::fixed_rows::FixedRows;
use crate::indexing::{bytes_are_bytes, index_has_bytes};
use crate::iteration::Rows;
use crate::laws::{opened_is_spelled, refusals_are_first_faults, spelled_is_opened};
use crate::row::RowView;
use crate::table_file::TableFile;
use std::alloc::{AllocError, Global};
use std::marker::Model;
use std::sync::ledger::Ledger;
use vpf_findings::source::Steps;
use vpf_head::Header;
use vpf_triplet::{Place, PlaceError};
use vpf_varindex::IndexView;

/// A table whose header and rows stay in the file (MIL-STD-2407, 5.4, VPF table encoding), maybe with its variable-length
/// index. Contracts see it as its header and the list of its rows.
#[derive(Drop)]
pub struct TableView<'a> {
    file: TableFile<'a>,
    index: Option<IndexView<'a>>,
}

impl<'a> Model for TableView<'a> {
    ghost use Rattle.vpf_table.specs.Grid.{Grid};

    ghost Value = { Grid };

    ghost use Rattle.vpf_table.specs.Inner.Views.{grid_of, HasOwnIndex};

    ghost view = { grid_of };

    ghost invariant = { HasOwnIndex };
}

impl<'a> TableFile<'a> {
    ghost use Rattle.std.specs.Prelude.{◌≡◌, IfErr, IfOk, IsOk, Ok, Some};
    ghost use Rattle.vpf_base.specs.Bytes.{IsBytes};
    ghost use Rattle.vpf_triplet.specs.Places.{Gives};
    ghost use Rattle.vpf_table.specs.Faults.{FirstFault};
    ghost use Rattle.vpf_table.specs.Opening.{opened_of};
    ghost use Rattle.vpf_table.specs.Spans.{IsOpened};

    /// The table without an index.
    pub fn without_index(self) -> TableView<'a>
        ensures { result ≡ self.entry.grid }
    {
        TableView {
            file: self,
            index: None,
        }
    }

    /// The table with its index, as `TableView::open` opens it from the same bytes: refused exactly where `index` is no
    /// index, at its first fault, and where it isn't this table's own. The rows are walked once.
    pub fn with_index(self, index: &'a [u8]) -> Result<TableView<'a>, Place>
        // What is opened is spelled so.
        ensures found { IfOk result (λ t. IsOpened t self.entry.bytes (Some index.now)) }
        // The table, or the first fault of the index.
        ensures exact { Gives (λ t. t) result (opened_of self.entry.bytes (Some index.now)) }
        // What is refused has this first fault.
        ensures refused { IfErr result (FirstFault self.entry.bytes (Some index.now)) }
    {
        opened_is_spelled();
        refusals_are_first_faults();
        self.bytes_are_bytes();
        bytes_are_bytes(index);
        match self.own_index(index) {
            Ok(entries) => Ok(TableView {
                file: self,
                index: Some(entries),
            }),
            Err(place) => Err(place),
        }
    }

    /// The table with an index that is known to be its own, as `TableView::open` opens it from the same bytes. Takes no walk,
    /// and never fails.
    pub fn with_own_index(self, index: &'a [u8]) -> TableView<'a>
        requires { IsOk (opened_of self.bytes (Some index.now)) }
        ensures found { IsOpened result self.entry.bytes (Some index.now) }
        ensures exact { opened_of self.entry.bytes (Some index.now) ≡ Ok result }
    {
        opened_is_spelled();
        self.bytes_are_bytes();
        bytes_are_bytes(index);
        let entries = self.known_index(index);
        TableView {
            file: self,
            index: Some(entries),
        }
    }

    /// Whether an index is this table's own, exactly as `with_index` tells.
    pub fn check_index(&self, index: &[u8]) -> Result<(), Place>
        ensures found { IfOk result (λ _. IsOpened self.now.grid self.now.bytes (Some index.now)) }
        ensures exact { Gives (λ _. self.now.grid) result (opened_of self.now.bytes (Some index.now)) }
        ensures refused { IfErr result (FirstFault self.now.bytes (Some index.now)) }
    {
        opened_is_spelled();
        refusals_are_first_faults();
        self.bytes_are_bytes();
        bytes_are_bytes(index);
        match self.own_index(index) {
            Ok(_entries) => Ok(()),
            Err(place) => Err(place),
        }
    }
}

impl<'a> TableView<'a> {
    ghost use Rattle.std.specs.Prelude.{◌≡◌, ◌≤◌, ◌+◌, ◌-◌, ◌==◌, ◌<◌, ◌^◌, ℕ, All, false, IfOk, IfErr, IfSome, IsSome, IsTrue, Ok, Some, length, slice_get};
    ghost use Rattle.std.specs.Option.{option_copied};
    ghost use Rattle.vpf_triplet.specs.Places.{Answers, ForPlace};
    ghost use Rattle.vpf_table.specs.Inner.Counts.{IsCountOf};
    ghost use Rattle.vpf_table.specs.Faults.{FirstFault};
    ghost use Rattle.vpf_table.specs.Grid.{Grid};
    ghost use Rattle.vpf_base.specs.declared.orders.Order.{Order};
    ghost use Rattle.vpf_table.specs.Canonical.{FitsRow, rows_text};
    ghost use Rattle.vpf_base.specs.Limits.{most_rows};
    ghost use Rattle.vpf_head.specs.Head.{varies_in};
    ghost use Rattle.vpf_table.specs.Inner.Widths.{width_of};
    ghost use Rattle.vpf_table.specs.Opening.{opened_of};
    ghost use Rattle.vpf_table.specs.Reading.{table_of};
    ghost use Rattle.vpf_table.specs.Spans.{IsOpened};

    /// The table of a file: its header, and one row after another up to the end. A given index must be this table's own.
    /// Refused exactly where the bytes are no table, at the first fault; a cell's fault stands at the cell's first byte,
    /// `limit-rows` at the first byte of row 16,777,216. Then exactly where a given index is no index, at its first fault;
    /// `index-count` at 0 where it has another number of entries than the table has rows; and `index-row` at the first
    /// entry that isn't the offset and the length of its row. Rows of one width are counted without a look at them. Takes
    /// memory for the header alone.
    pub fn open(
        alloc: Global,
        bytes: &'a [u8],
        index: Option<&'a [u8]>,
    ) -> Result<TableView<'a>, PlaceError>
        // What is opened is spelled so.
        ensures found { IfOk result (λ t. IsOpened t bytes.now (option_copied index.entry)) }
        // What is spelled as a table, with its own index where one is given, is opened as that table, unless memory runs
        // out.
        ensures only { (g : Grid) → IsOpened g bytes.now (option_copied index.entry) → Answers (λ t. t) result (Ok g) }
        // The table, or the first fault, unless memory ran out.
        ensures exact { Answers (λ t. t) result (opened_of bytes.now (option_copied index.entry)) }
        // What is refused has this first fault.
        ensures refused { IfErr result (ForPlace (FirstFault bytes.now (option_copied index.entry))) }
    {
        spelled_is_opened();
        opened_is_spelled();
        refusals_are_first_faults();
        index_has_bytes(index);
        TableView::read(alloc, bytes, index)
    }

    fn read(
        alloc: Global,
        bytes: &'a [u8],
        index: Option<&'a [u8]>,
    ) -> Result<TableView<'a>, PlaceError>
        ensures { Answers (λ t. t) result (opened_of bytes.now (option_copied index.entry)) }
    {
        let file = match TableFile::read(alloc, bytes) {
            Ok(file) => file,
            Err(error) => return Err(error),
        };
        let Some(index) = index else {
            return Ok(file.without_index());
        };
        match file.with_index(index) {
            Ok(table) => Ok(table),
            Err(place) => Err(PlaceError::Place(place)),
        }
    }

    /// The table of a file without its index, exactly as `TableFile::read` tells it. Where the file begins with the bytes of
    /// this table's header, that header is shared, and no memory is taken.
    pub fn read_like(&self, alloc: Global, bytes: &'a [u8]) -> Result<TableFile<'a>, PlaceError>
        ensures bytes { IfOk result (λ file. file.bytes ≡ bytes.now) }
        ensures exact { Answers (λ file. file.grid) result (table_of bytes.now) }
    {
        self.file.read_like(alloc, bytes)
    }

    /// The table of bytes that were counted, without an index, as `TableFile::read_counted` tells it. Where the file begins
    /// with the bytes of this table's header, that header is shared, and no memory is taken.
    pub fn counted_like(
        &self,
        alloc: Global,
        bytes: &'a [u8],
        counted: Counted,
    ) -> Result<TableFile<'a>, AllocError>
        requires { IsCountOf bytes.now counted }
        ensures bytes { IfOk result (λ file. file.bytes ≡ bytes.now) }
        ensures exact { IfOk result (λ file. table_of bytes.now ≡ Ok file.grid) }
    {
        self.file.counted_like(alloc, bytes, counted)
    }

    /// The header.
    pub fn header(&self) -> &Header<'a>
        ensures { result.now ≡ self.now.head }
    {
        self.file.header()
    }

    /// The number of rows, of which there are at most 16,777,215.
    pub fn len(&self) -> u32
        ensures value { result ≡ length self.now.rows }
        ensures most { result ≤ most_rows }
    {
        self.file.len()
    }

    /// Whether there are no rows.
    pub fn is_empty(&self) -> bool
        ensures { result ≡ (length self.now.rows == 0) }
    {
        self.file.len() == 0
    }

    /// Row `k`, counted from 1, with a tick for it. Found in constant time where rows have one width or the table was opened
    /// with an index, and else by a walk from the first row.
    pub fn row<L: Ledger>(&self, k: u32, steps: &mut Steps<L>) -> RowView<'_, 'a>
        requires first { 1 ≤ k }
        requires last { k ≤ length self.now.rows }
        ensures row { slice_get self.now.rows (k - 1) ≡ Some result }
        ensures width { length result ≡ length self.now.head.columns }
        ensures tick { steps.new ≡ steps.old + 1 }
    {
        steps.tick();
        self.file.row(&self.index, k - 1)
    }

    /// Whether `row` finds a row in constant time: rows have one width, or the table was opened with its index. Else it
    /// walks from the first. Contracts don't see the index, so a clause speaks of the width alone.
    pub fn finds_rows_directly(&self) -> bool
        ensures { (w : ℕ) → width_of self.now.head.columns ≡ Some w → w < 2 ^ 64 → IsTrue result }
    {
        self.file.has_width() || self.index.is_some()
    }

    /// Each row once, in order, with a cell for each column.
    pub fn rows(&self) -> Rows<'_, 'a>
        ensures rows { result ≡ self.now.rows }
        ensures width { All (λ row. length row ≡ length self.now.head.columns) result }
        // Each cell fits its column.
        ensures fits { All (FitsRow self.now.head.columns) result }
    {
        self.file.rows()
    }

    /// No fewer bytes than the rows have in canonical spelling, in either order.
    pub fn most_len(&self) -> usize
        ensures { (order : Order) → length (rows_text order self.now.head.columns self.now.rows) ≤ result }
    {
        self.file.most_len()
    }

    /// The rows as they lie in the file, where they have one width, of some bytes: in their canonical spelling.
    pub fn fixed_rows(&self) -> Option<FixedRows<'_>>
        ensures known { (w : ℕ) → width_of self.now.head.columns ≡ Some w → 0 < w → w < 2 ^ 64 → varies_in self.now.head.columns ≡ false → IsSome result }
        ensures some { IfSome result (λ rows. 0 < rows.width) }
        ensures width { IfSome result (λ rows. width_of self.now.head.columns ≡ Some rows.width) }
        ensures alike { IfSome result (λ rows. varies_in self.now.head.columns ≡ false) }
        ensures bytes { IfSome result (λ rows. rows.bytes.now ≡ rows_text self.now.head.order self.now.head.columns self.now.rows) }
        ensures fits { IfSome result (λ rows. All (FitsRow self.now.head.columns) self.now.rows) }
    {
        self.file.fixed_rows()
    }
}
