//! The entries of a directory, seen in their file.

ghost use Rattle.std.specs.Prelude.{◌≡◌, ◌≤◌, ◌<◌, ◌+◌, ◌*◌, ◌/◌, ◌^◌, length};
ghost use Rattle.vpf_value.specs.Values.{view};
ghost use Rattle.vpf_theme.specs.Layouts.{HasValues, row_bytes};
ghost use Rattle.vpf_theme.specs.Entries.{IsWhole, extent_of, is_marked, number_at, number_start, value_of};

use crate::layout::{Layout, RowSize, u32_at};
use vpf_triplet::Count;
use vpf_value::laws::fixed_cells;
use vpf_value::{Cell, cell_at};

/// Where the rows of an entry lie. Where a list has a count of 0, the offset is itself the one row.
#[derive(Clone, Copy)]
pub struct Extent {
    /// Where their data begin, in bytes from the start of the file.
    pub offset: u32,
    /// How many numbers a list has, or how many bytes a bitmap.
    pub count: u32,
}

/// The value of entry `i`, counted from 0.
#[tactic(auto, unfolding(crate::specs::Entries::value_of))]
pub fn value_at<'a>(layout: &Layout, bytes: &'a [u8], i: u32) -> Cell<'a>
    requires values { HasValues layout.now }
    requires whole { IsWhole layout.now bytes.now i }
    ensures { view result ≡ value_of layout.now bytes.now i }
{
    fixed_cells();
    let at = layout.entry_start(i);
    match cell_at(
        layout.order,
        layout.kind,
        Count::Fixed(layout.count),
        bytes,
        at,
    ) {
        Ok((cell, _)) => cell,
        Err(_) => unreachable!(),
    }
}

/// The offset and the count of entry `i`, counted from 0.
#[tactic(auto, unfolding(crate::specs::Entries::extent_of))]
pub fn extent_at(layout: &Layout, bytes: &[u8], i: u32) -> Extent
    requires values { HasValues layout.now }
    requires whole { IsWhole layout.now bytes.now i }
    ensures { result ≡ extent_of layout.now bytes.now i }
{
    let _end = bytes.len();
    let at = layout.entry_start(i) + layout.value_bytes();
    Extent {
        offset: u32_at(layout.order, bytes, at),
        count: u32_at(layout.order, bytes, at + 4),
    }
}

/// Number `k` of a list, counted from 0.
#[tactic(auto, unfolding(crate::specs::Entries::number_at))]
pub fn number_at(layout: &Layout, bytes: &[u8], offset: u32, k: u32) -> u32
    requires { number_start layout.now offset k + row_bytes layout.now.row_size ≤ length bytes.now }
    ensures { result ≡ number_at layout.now bytes.now offset k }
{
    let _end = bytes.len();
    let rest = &bytes[offset as usize + k as usize * layout.row_size.bytes()..];
    match layout.row_size {
        RowSize::Short => u32::from(layout.order.u16_from(rest)),
        RowSize::Long => layout.order.u32_from(rest),
    }
}

/// Bit `k` of a bitmap, counted from 0.
#[tactic(auto, unfolding(crate::specs::Entries::is_marked))]
pub fn is_marked(bytes: &[u8], offset: u32, k: u64) -> bool
    requires { offset + k / 8 < length bytes.now }
    ensures { result ≡ is_marked bytes.now offset k }
{
    let byte = bytes[offset as usize + k as usize / 8];
    (byte >> (k % 8)) & 1 == 1
}
