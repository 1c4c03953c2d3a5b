//! Rows as bytes: those of one width, and how many bytes rows have at most.

ghost use Rattle.std.specs.Prelude.{◌≡◌, ◌≤◌, ◌<◌, ℕ, All, false, IfSome, IsOk, IsSome, Some, length};
ghost use Rattle.vpf_base.specs.Limits.{most_rows};
ghost use Rattle.vpf_base.specs.declared.orders.Order.{Order};
ghost use Rattle.vpf_head.specs.Head.{varies_in};
ghost use Rattle.vpf_table.specs.Canonical.{FitsRow, rows_text};
ghost use Rattle.vpf_table.specs.Reading.{rows_at};
ghost use Rattle.vpf_table.specs.Walking.{rows_of};
ghost use Rattle.vpf_table.specs.Inner.Widths.{width_of};

use crate::laws::cells_and_headers;
use crate::placed_header::PlacedHeader;
use vpf_findings::value::laws::{fitting_is_written, spelled_fits};

/// Rows that have one width, as they lie in their file.
#[derive(Clone, Copy)]
pub struct FixedRows<'a> {
    /// How many bytes each row has.
    pub width: usize,
    /// All rows, one after another.
    pub bytes: &'a [u8],
}

/// No fewer bytes than the rows from `at` on have in canonical spelling, which is the shortest.
pub fn most_len(header: &PlacedHeader<'_>, bytes: &[u8], at: usize) -> usize
    requires inside { at ≤ length bytes.now }
    requires read { IsOk (rows_at most_rows header.now.order header.now.columns bytes.now at) }
    ensures { (order : Order) → length (rows_text order header.now.columns (rows_of
        (rows_at most_rows header.now.order header.now.columns bytes.now at))) ≤ result }
{
    cells_and_headers();
    fitting_is_written();
    bytes.len() - at
}

/// The rows from `at` on where they have one width, of some bytes: they stand there in their canonical spelling.
pub fn fixed_rows<'a>(
    header: &PlacedHeader<'_>,
    bytes: &'a [u8],
    at: usize,
    width: Option<usize>,
) -> Option<FixedRows<'a>>
    requires inside { at ≤ length bytes.now }
    requires read { IsOk (rows_at most_rows header.now.order header.now.columns bytes.now at) }
    requires fixed { IfSome width (λ w. width_of header.now.columns ≡ Some w) }
    ensures known { (w : ℕ) → width ≡ Some w → 0 < w → varies_in header.now.columns ≡ false → IsSome result }
    ensures some { IfSome result (λ rows. 0 < rows.width) }
    ensures width { IfSome result (λ rows. width_of header.now.columns ≡ Some rows.width) }
    ensures alike { IfSome result (λ rows. varies_in header.now.columns ≡ false) }
    ensures bytes { IfSome result (λ rows. rows.bytes.now
        ≡ rows_text header.now.order header.now.columns (rows_of (rows_at most_rows header.now.order header.now.columns bytes.now at))) }
    ensures fits { IfSome result (λ rows. All (FitsRow header.now.columns) (rows_of (rows_at most_rows header.now.order header.now.columns bytes.now at))) }
{
    cells_and_headers();
    fitting_is_written();
    spelled_fits();
    // What is true of each header.
    let _columns = header.len();
    let width = width?;
    if width == 0 || header.varies() {
        return None;
    }
    Some(FixedRows {
        width,
        bytes: &bytes[at..],
    })
}
