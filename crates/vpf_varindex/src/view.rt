//! A variable-length index, seen in its file.

ghost use Rattle.std.specs.Prelude.{◌≡◌, ◌≤◌, ◌+◌, length};
ghost use Rattle.vpf_varindex.specs.Reading.{index_entry};

use crate::laws::{read_is_spelled, spelled_is_read};
use std::marker::Model;
use vpf_triplet::{Code, Order, Place};

/// The bytes before the first entry: the number of entries, and a second number.
const HEAD_BYTES: usize = 8;

/// The bytes of an entry: an offset and a length.
const ENTRY_BYTES: usize = 8;

/// A variable-length index, whose entries stay in the file (MIL-STD-2407, 5.4, variable-length index file). Contracts see
/// it as the list of its entries, each the offset and the length of a row.
#[derive(Drop)]
pub struct IndexView<'a> {
    order: Order,
    bytes: &'a [u8],
    count: u32,
}

impl<'a> Model for IndexView<'a> {
    ghost use Rattle.std.specs.Prelude.{ℕ, List};

    ghost Value = { List (ℕ × ℕ) };

    ghost use Rattle.vpf_varindex.specs.Inner.Views.{entries, IsIndexRead};

    ghost view = { entries };

    ghost invariant = { IsIndexRead };
}

/// The offset and the length that the entry at `at` has.
fn entry_in(order: Order, bytes: &[u8], at: usize) -> (u32, u32)
    requires { at + 8 ≤ length bytes.now }
    ensures { result ≡ index_entry order bytes.now at }
{
    let _end = bytes.len();
    let offset = order.u32_from(&bytes[at..]);
    let length = order.u32_from(&bytes[at + 4..]);
    (offset, length)
}

impl<'a> IndexView<'a> {
    ghost use Rattle.std.specs.Prelude.{◌≡◌, ◌≤◌, ◌-◌, ◌==◌, ℕ, List, IfOk, IfErr, Ok, Some, length, slice_get};
    ghost use Rattle.vpf_triplet.specs.Places.{Gives};
    ghost use Rattle.vpf_varindex.specs.Faults.{FirstIndexFault};
    ghost use Rattle.vpf_varindex.specs.Reading.{index_at};
    ghost use Rattle.vpf_varindex.specs.RowIndex.{IsRowIndex};

    /// The index of these bytes, its numbers in the order of its table. Refused exactly where the bytes are no index:
    /// `index-cut` at 0 where they are fewer than 8, and else at the entry that isn't whole; `index-extra` at the first
    /// byte after the last entry. The second number may be any.
    pub fn open(bytes: &'a [u8], order: Order) -> Result<IndexView<'a>, Place>
        // What is opened is spelled so.
        ensures found { IfOk result (λ view. IsRowIndex order view bytes.now) }
        // What is spelled as an index is opened as that index.
        ensures only { (spans : List (ℕ × ℕ)) → IsRowIndex order spans bytes.now → Gives (λ view. view) result (Ok spans) }
        // The index, or the first fault.
        ensures exact { Gives (λ view. view) result (index_at order bytes.now) }
        // What is refused has this first fault.
        ensures refused { IfErr result (λ p. FirstIndexFault order bytes.now p) }
    {
        spelled_is_read();
        read_is_spelled();
        IndexView::read(bytes, order)
    }

    fn read(bytes: &'a [u8], order: Order) -> Result<IndexView<'a>, Place>
        ensures { Gives (λ view. view) result (index_at order bytes.now) }
    {
        if bytes.len() < HEAD_BYTES {
            return Err(Place::in_index(0, Code::IndexCut));
        }
        let count = order.u32_from(bytes);
        let room = bytes.len() - HEAD_BYTES;
        let wanted = count as usize * ENTRY_BYTES;
        if room < wanted {
            let at = HEAD_BYTES + room / ENTRY_BYTES * ENTRY_BYTES;
            return Err(Place::in_index(at, Code::IndexCut));
        }
        if room > wanted {
            return Err(Place::in_index(HEAD_BYTES + wanted, Code::IndexExtra));
        }
        Ok(IndexView {
            order,
            bytes,
            count,
        })
    }

    /// The number of entries.
    pub fn len(&self) -> u32
        ensures { result ≡ length self.now }
    {
        self.count
    }

    /// Whether there are no entries.
    pub fn is_empty(&self) -> bool
        ensures { result ≡ (length self.now == 0) }
    {
        self.count == 0
    }

    /// Entry `k`, counted from 1: how many bytes from the start of the table's file the row begins, and how many it has.
    pub fn entry(&self, k: u32) -> (u32, u32)
        requires first { 1 ≤ k }
        requires last { k ≤ length self.now }
        ensures { slice_get self.now (k - 1) ≡ Some result }
    {
        let _end = self.bytes.len();
        let at = HEAD_BYTES + (k as usize - 1) * ENTRY_BYTES;
        entry_in(self.order, self.bytes, at)
    }
}
