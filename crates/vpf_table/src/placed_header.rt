//! A header, and where the cells of its first columns begin.

ghost use Rattle.std.specs.Prelude.{◌≡◌, ◌+◌, ℕ, IfSome, Some};
ghost use Rattle.vpf_findings.specs.Widths.{cell_width};

use std::alloc::{AllocError, Global};
use std::marker::Model;
use vpf_findings::value::cell_width;
use vpf_head::{Column, Header};
use vpf_triplet::Order;

/// A header, with the offsets of the columns before which nothing varies. Contracts see it as the header.
#[derive(Drop)]
pub(crate) struct PlacedHeader<'a> {
    header: Header<'a>,
    /// How far behind the start of a row the cell of each column begins, up to the first column whose cells vary.
    offsets: Vec<usize>,
}

impl<'a> Model for PlacedHeader<'a> {
    ghost use Rattle.vpf_head.specs.Head.{Head};

    ghost Value = { Head };

    ghost use Rattle.vpf_table.specs.Inner.PlacedHeaders.{placed_head, HasOffsets};

    ghost view = { placed_head };

    ghost invariant = { HasOffsets };
}

/// The offset behind a column at this offset, where its cells have one width and the sum fits a number.
fn past_column(column: &Column<'_>, offset: usize) -> Option<usize>
    ensures { IfSome result (λ past. (w : ℕ) × (cell_width column.now.kind column.now.count ≡ Some w) × (past ≡ offset + w)) }
{
    let width = cell_width(column.kind, column.count)?;
    offset.checked_add(width)
}

impl<'a> PlacedHeader<'a> {
    ghost use Rattle.std.specs.Prelude.{◌≡◌, ◌≤◌, ◌<◌, IfOk, Some, length, slice_get, take};
    ghost use Rattle.vpf_head.specs.Head.{varies_in};
    ghost use Rattle.vpf_head.specs.Inner.Soundness.{IsSound};
    ghost use Rattle.vpf_head.specs.Inner.Views.{col};
    ghost use Rattle.vpf_table.specs.Inner.Offsets.{AreOffsets};
    ghost use Rattle.vpf_table.specs.Inner.Widths.{width_of};

    /// How many bytes the columns before each have, up to the first column whose cells vary.
    fn offsets_of(alloc: Global, header: &Header<'_>) -> Result<Vec<usize>, AllocError>
        ensures { IfOk result (λ offsets. AreOffsets header.now.columns offsets.items) }
    {
        let mut offsets = Vec::new(alloc);
        let mut offset: usize = 0;
        for c in 0..header.len() {
            offsets.push(offset)?;
            let Some(past) = past_column(header.at(c), offset) else {
                return Ok(offsets);
            };
            offset = past;
        }
        Ok(offsets)
    }

    /// The header, with its offsets.
    pub(crate) fn new(alloc: Global, header: Header<'a>) -> Result<PlacedHeader<'a>, AllocError>
        ensures { IfOk result (λ placed. placed ≡ header.entry) }
    {
        let offsets = PlacedHeader::offsets_of(alloc, &header)?;
        Ok(PlacedHeader { header, offsets })
    }

    /// The header alone.
    pub(crate) fn header(&self) -> &Header<'a>
        ensures { result.now ≡ self.now }
    {
        &self.header
    }

    /// A column no later than `c` before which nothing varies, and how many bytes those before it have.
    pub(crate) fn placed(&self, c: usize) -> (usize, usize)
        ensures behind { result.0 ≤ c }
        ensures width { width_of (take result.0 self.now.columns) ≡ Some result.1 }
    {
        let column = c.min(self.offsets.len().saturating_sub(1));
        match self.offsets.get(column) {
            Some(width) => (column, *width),
            None => (0, 0),
        }
    }

    /// The order of the table's numbers.
    pub(crate) fn order(&self) -> Order
        ensures { result ≡ self.now.order }
    {
        self.header.order()
    }

    /// How many columns there are.
    pub(crate) fn len(&self) -> usize
        ensures value { result ≡ length self.now.columns }
        // What is true of each header.
        ensures sound { IsSound self.now }
    {
        self.header.len()
    }

    /// The column at this position, from 0.
    pub(crate) fn at(&self, c: usize) -> &Column<'a>
        requires { c < length self.now.columns }
        ensures { slice_get self.now.columns c ≡ Some (col result.now) }
    {
        self.header.at(c)
    }

    /// Whether rows may differ in length.
    pub(crate) fn varies(&self) -> bool
        ensures { result ≡ varies_in self.now.columns }
    {
        self.header.varies()
    }
}
