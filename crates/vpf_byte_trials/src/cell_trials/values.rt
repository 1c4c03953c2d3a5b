//! What cells say, by bytes that are written out by hand.

mod values;

use vpf_triplet::{Count, Order};

const L: Order = Order::Little;

const M: Order = Order::Big;

const ONE: Count = Count::Fixed(1);

const STAR: Count = Count::Star;

const DATE: &[u8] = b"20260131120000.00000";

const LARGEST_PART: u32 = 2_147_483_647;
