//! An index against the rows that it must stand for.

ghost use Rattle.std.specs.Prelude.{◌≡◌, ◌≤◌, ◌-◌, ◌==◌, ◌&&◌, IfSome};
ghost use Rattle.std.specs.Option.{option_copied};
ghost use Rattle.vpf_base.specs.Bytes.{IsBytes};

use crate::table_file::TableFile;
use crate::walking::next_row;
use vpf_triplet::{Code, Place};
use vpf_varindex::IndexView;

/// What a slice of bytes holds are bytes.
pub fn bytes_are_bytes(bytes: &[u8])
    ensures { IsBytes bytes.now }
{}

/// What a given index holds are bytes.
pub fn index_has_bytes(index: Option<&[u8]>)
    ensures { IfSome (option_copied index.entry) IsBytes }
{
    if let Some(bytes) = index {
        bytes_are_bytes(bytes);
    }
}

/// Whether the entry is the offset and the length of the bytes from `at` to `past`.
fn is_span(entry: (u32, u32), at: usize, past: usize) -> bool
    requires { at ≤ past }
    ensures { result ≡ (entry.0 == at && entry.1 == past - at) }
{
    let (offset, length) = entry;
    offset as usize == at && length as usize == past - at
}

impl<'a> TableFile<'a> {
    ghost use Rattle.std.specs.Prelude.{◌≡◌, IfOk, IsOk, Ok, Some, length};
    ghost use Rattle.vpf_triplet.specs.Places.{Gives};
    ghost use Rattle.vpf_table.specs.Opening.{first_other, opened_of, own_entries, row_spans, unless_other};

    /// Whether each entry of an index is the offset and the length of its row.
    fn check_entries(&self, index: &IndexView<'_>) -> Result<(), Place>
        requires { length index.now ≡ length self.now.grid.rows }
        ensures { result ≡ unless_other tt (first_other 0 index.now (row_spans self.now.bytes self.now.grid)) }
    {
        let _end = self.bytes.len();
        let mut at = self.start;
        for k in 0..index.len() {
            let past = next_row(self.header.as_ref(), self.bytes, at, self.width);
            if !is_span(index.entry(k + 1), at, past) {
                return Err(Place::in_index(8 + 8 * k as usize, Code::IndexRow));
            }
            at = past;
        }
        Ok(())
    }

    /// The entries of an index of these rows: as many as there are rows, each its row's offset and length. Else its first
    /// fault.
    pub(crate) fn own_entries<'i>(&self, index: &'i [u8]) -> Result<IndexView<'i>, Place>
        ensures own { IfOk result (λ entries. entries ≡ row_spans self.now.bytes self.now.grid) }
        ensures exact { Gives (λ entries. Some entries) result (own_entries self.now.grid.head.order (row_spans self.now.bytes self.now.grid)
            (Some index.now)) }
    {
        let entries = match IndexView::open(index, self.header().order()) {
            Ok(entries) => entries,
            Err(place) => return Err(place),
        };
        if entries.len() != self.len() {
            return Err(Place::in_index(0, Code::IndexCount));
        }
        match self.check_entries(&entries) {
            Ok(()) => Ok(entries),
            Err(place) => Err(place),
        }
    }

    /// The entries of an index that is known to be these rows' own.
    pub(crate) fn known_index<'i>(&self, index: &'i [u8]) -> IndexView<'i>
        requires { IsOk (opened_of self.now.bytes (Some index.now)) }
        ensures own { result ≡ row_spans self.now.bytes self.now.grid }
        ensures exact { opened_of self.now.bytes (Some index.now) ≡ Ok self.now.grid }
    {
        // What is true of each table in its file.
        let _start = self.start;
        match IndexView::open(index, self.header().order()) {
            Ok(entries) => entries,
            Err(_) => unreachable!(),
        }
    }
}
