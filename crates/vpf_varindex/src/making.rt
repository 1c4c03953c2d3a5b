//! The bytes of a variable-length index.

ghost use Rattle.std.specs.Prelude.{◌≡◌, ◌<◌, ◌^◌, IfOk, length};
ghost use Rattle.vpf_varindex.specs.RowIndex.{row_index};

use std::alloc::{AllocError, Global};
use vpf_triplet::Order;

/// The bytes of the index of rows with these offsets and lengths, in the order of their table. `header_text` is its second
/// number, the length of the table's header text.
pub fn index_of(
    alloc: Global,
    order: Order,
    header_text: u32,
    spans: &[(u32, u32)],
) -> Result<Vec<u8>, AllocError>
    requires { length spans.now < 2 ^ 32 }
    ensures { IfOk result (λ bytes. bytes.items ≡ row_index order header_text spans.now) }
{
    let mut out = Vec::with_capacity(alloc, 8 + 8 * spans.len())?;
    order.put_u32(spans.len() as u32, &mut out)?;
    order.put_u32(header_text, &mut out)?;
    for (offset, length) in spans {
        order.put_u32(*offset, &mut out)?;
        order.put_u32(*length, &mut out)?;
    }
    Ok(out)
}
