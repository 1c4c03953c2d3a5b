//! How many rows there are, or the first fault among them.

ghost use Rattle.std.specs.Prelude.{◌≡◌, ◌≤◌, ◌<◌, Some, IfSome, length};
ghost use Rattle.vpf_base.specs.Limits.{most_rows};
ghost use Rattle.vpf_table.specs.Reading.{rows_at};
ghost use Rattle.vpf_table.specs.Walking.{counted};
ghost use Rattle.vpf_table.specs.Inner.Widths.{width_of};

use crate::placed_header::PlacedHeader;
use crate::walking::skip_row;
use vpf_base::limits::MOST_ROWS;
use vpf_findings::value::laws::fixed_cells;
use vpf_triplet::{Code, Place};

/// The row past the most.
const TOO_MANY_ROWS: u64 = MOST_ROWS as u64 + 1;

fn walked_count(header: &PlacedHeader<'_>, bytes: &[u8], at: usize) -> Result<u32, Place>
    requires { at ≤ length bytes.now }
    ensures { result ≡ counted 0 (rows_at most_rows header.now.order header.now.columns bytes.now at) }
{
    let mut here = at;
    let mut rows: u32 = 0;
    while here < bytes.len() {
        if rows == MOST_ROWS {
            return Err(Place::in_table(here, Code::LimitRows(TOO_MANY_ROWS)));
        }
        let past = skip_row(header, bytes, here)?;
        here = past;
        rows += 1;
    }
    Ok(rows)
}

/// How many rows of one width there are: the whole ones, and none that is cut.
fn fixed_count(
    header: &PlacedHeader<'_>,
    bytes: &[u8],
    at: usize,
    width: usize,
) -> Result<u32, Place>
    requires inside { at ≤ length bytes.now }
    requires some { 0 < width }
    requires fixed { width_of header.now.columns ≡ Some width }
    ensures { result ≡ counted 0 (rows_at most_rows header.now.order header.now.columns bytes.now at) }
{
    fixed_cells();
    let room = bytes.len() - at;
    let whole = (room / width).min(MOST_ROWS as usize);
    let past = at + whole * width;
    if past == bytes.len() {
        return Ok(whole as u32);
    }
    if whole == MOST_ROWS as usize {
        return Err(Place::in_table(past, Code::LimitRows(TOO_MANY_ROWS)));
    }
    match skip_row(header, bytes, past) {
        Ok(_) => unreachable!(),
        Err(place) => Err(place),
    }
}

/// How many rows there are from `at` on, or the first fault: a cell that isn't spelled, or a row past the most.
pub fn count_rows(
    header: &PlacedHeader<'_>,
    bytes: &[u8],
    at: usize,
    width: Option<usize>,
) -> Result<u32, Place>
    requires inside { at ≤ length bytes.now }
    requires fixed { IfSome width (λ w. width_of header.now.columns ≡ Some w) }
    ensures { result ≡ counted 0 (rows_at most_rows header.now.order header.now.columns bytes.now at) }
{
    match width {
        Some(width) if width > 0 => fixed_count(header, bytes, at, width),
        _ => walked_count(header, bytes, at),
    }
}
