//! Indexes of rows: their entries, and how they are written.

use crate::same::same;
use std::test::Fail;
use vpf_triplet::Order;
use vpf_varindex::{IndexView, index_of};

/// One row of 7 bytes behind a header of 28, the most significant byte first.
const ONE: &[u8] = b"\0\0\0\x01\0\0\0\x18\0\0\0\x1c\0\0\0\x07";

/// Two rows, of 22 and of 24 bytes, behind a header of 234, the least significant byte first.
const TWO: &[u8] = b"\x02\0\0\0\xe6\0\0\0\xea\0\0\0\x16\0\0\0\0\x01\0\0\x18\0\0\0";

/// No rows.
const NONE: &[u8] = b"\0\0\0\0\x18\0\0\0";

/// Entry `k`, or nothing where there are fewer.
fn entry_in(index: &IndexView<'_>, k: u32) -> Option<(u32, u32)> {
    if k < 1 || k > index.len() {
        return None;
    }
    Some(index.entry(k))
}

#[test]
fn finds_entries(rt: HostRuntime) -> Result<(), Fail> {
    for (bytes, order, k, want) in [
        (ONE, Order::Big, 1, Some((28, 7))),
        (ONE, Order::Big, 2, None),
        (TWO, Order::Little, 1, Some((234, 22))),
        (TWO, Order::Little, 2, Some((256, 24))),
    ] {
        match IndexView::open(bytes, order) {
            Ok(index) => {
                assert!(rt; !index.is_empty());
                same(&rt, entry_in(&index, k), want, k);
            }
            Err(place) => assert!(rt; false, "{place}"),
        }
    }
    Ok(())
}

#[test]
fn writes_indexes(rt: HostRuntime) -> Result<(), Fail> {
    let alloc = rt.alloc();
    let made = index_of(alloc, Order::Big, 24, &[(28, 7)])?;
    same(&rt, made.as_slice(), ONE, "one row");
    let made = index_of(alloc, Order::Little, 230, &[(234, 22), (256, 24)])?;
    same(&rt, made.as_slice(), TWO, "two rows");
    let made = index_of(alloc, Order::Little, 24, &[])?;
    same(&rt, made.as_slice(), NONE, "no rows");
    Ok(())
}
