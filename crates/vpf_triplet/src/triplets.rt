//! Triplet ids.

ghost use Rattle.std.specs.Prelude.{◌≡◌, ◌≤◌, ◌&&◌, ◌++◌, OnOk, length, drop, take, vec_len};
ghost use Rattle.vpf_triplet.specs.Canonical.{canonical};
ghost use Rattle.vpf_triplet.specs.Places.{Reads};
ghost use Rattle.vpf_triplet.specs.Reading.{triplet_at, is_small};

use crate::places::{Code, Place};
use crate::sizes::{first_part, least_size, named_size, put_part};
use std::alloc::AllocError;
use vpf_base::Order;

/// A triplet id: a reference across tiles (MIL-STD-2407, 5.4, triplet id field type). `id` is a number in this tile, `tile`
/// another tile, and `ext` the number there; each may be absent.
#[derive(Clone, Copy, Debug, PartialEq, Eq)]
pub struct Triplet {
    pub id: Option<u32>,
    pub tile: Option<u32>,
    pub ext: Option<u32>,
}

const PART_LIMIT: u32 = 0x8000_0000;

fn is_small(part: Option<u32>) -> bool
    ensures { result ≡ is_small part }
{
    match part {
        None => true,
        Some(n) => n < PART_LIMIT,
    }
}

fn are_small(id: Option<u32>, tile: Option<u32>, ext: Option<u32>) -> bool
    ensures { result ≡ is_small id && is_small tile && is_small ext }
{
    is_small(id) && is_small(tile) && is_small(ext)
}

#[tactic(auto, unfolding(crate::specs::Reading::triplet_at, crate::specs::Reading::parts_at))]
fn read_at(order: Order, bytes: &[u8], at: usize) -> Result<(Triplet, usize), Place>
    requires { at ≤ length bytes.now }
    ensures { Reads at result (triplet_at order (drop at bytes.now)) }
{
    let Some((&first, rest)) = bytes[at..].split_first() else {
        return Err(Place::in_table(at, Code::CellCut));
    };
    if first % 4 != 0 {
        return Err(Place::in_table(at, Code::Triplet));
    }
    let (a, b, c) = (
        named_size(first / 64),
        named_size(first / 16 % 4),
        named_size(first / 4 % 4),
    );
    if rest.len() < a.bytes() + b.bytes() + c.bytes() {
        return Err(Place::in_table(at, Code::CellCut));
    }
    let id = first_part(order, a, rest);
    let tile = first_part(order, b, &rest[a.bytes()..]);
    let ext = first_part(order, c, &rest[a.bytes() + b.bytes()..]);
    if !are_small(id, tile, ext) {
        return Err(Place::in_table(at, Code::Triplet));
    }
    let past = at + 1 + a.bytes() + b.bytes() + c.bytes();
    Ok((Triplet { id, tile, ext }, past))
}

/// Appends the canonical spelling; after an error some of it may stand behind what stood there.
#[tactic(auto, unfolding(crate::specs::Canonical::canonical))]
fn put_parts(id: &Triplet, order: Order, out: &mut Vec<u8>) -> Result<(), AllocError>
    ensures ok { OnOk result (out.new.items ≡ out.old.items ++ canonical order id.now) }
    ensures kept { take (vec_len out.old) out.new.items ≡ out.old.items }
{
    let (a, b, c) = (
        least_size(id.id).bits(),
        least_size(id.tile).bits(),
        least_size(id.ext).bits(),
    );
    out.push(64 * a + 16 * b + 4 * c)?;
    put_part(order, id.id, out)?;
    put_part(order, id.tile, out)?;
    put_part(order, id.ext, out)?;
    Ok(())
}

impl Triplet {
    ghost use Rattle.std.specs.Prelude.{◌≡◌, ◌≤◌, ◌+◌, ◌++◌, ℕ, List, length, drop, slice_range, IfOk, IfErr, OnOk, OnErr, Ok};
    ghost use Rattle.vpf_base.specs.declared.orders.Order.{Order};
    ghost use Rattle.vpf_triplet.specs.Canonical.{canonical, HasSmallParts};
    ghost use Rattle.vpf_triplet.specs.Spelling.{IsTriplet};
    ghost use Rattle.vpf_triplet.specs.Inner.Deciding.{BeginsTriplet};
    ghost use Rattle.vpf_triplet.specs.Faults.{FirstTripletFault};
    ghost use Rattle.vpf_triplet.specs.Places.{Reads};
    ghost use Rattle.vpf_triplet.specs.Reading.{triplet_at};

    /// The triplet id that begins `at` bytes from the start, and the offset past it. Refused exactly where no spelling
    /// of one begins there, at that offset: `cell-cut` where the bytes end inside it, `triplet` where the reserved
    /// bits of the type byte are set or a part is 2^31 or more. The reserved bits come before cut parts.
    pub fn read(order: Order, bytes: &[u8], at: usize) -> Result<(Triplet, usize), Place>
        requires { at ≤ length bytes.now }
        // What is read is spelled so, up to the offset.
        ensures found { IfOk result (λ r. (at ≤ r.1) × (r.1 ≤ length bytes.now) × IsTriplet order r.0 (slice_range bytes.now at r.1)) }
        // What is spelled so is read, whatever follows.
        ensures only { (t : Triplet) (text rest : List ℕ) → BeginsTriplet order (drop at bytes.now) t text rest → result ≡ Ok (t, at + length text) }
        // The value and its end, or the code of the first fault.
        ensures exact { Reads at result (triplet_at order (drop at bytes.now)) }
        // What is refused has this first fault.
        ensures refused { IfErr result (λ p. FirstTripletFault order (drop at bytes.now) p.code) }
    {
        read_at(order, bytes, at)
    }

    /// How many bytes the canonical spelling has, 1 to 13, in either order.
    pub fn width(&self) -> usize
        ensures value { (order : Order) → length (canonical order self.now) ≡ result }
        ensures most { (1 ≤ result) × (result ≤ 13) }
    {
        1 + least_size(self.id).bytes()
            + least_size(self.tile).bytes()
            + least_size(self.ext).bytes()
    }

    /// Appends the canonical spelling: the type byte, and each part that is there in the least of 1, 2 and 4 bytes that
    /// hold it. After an error nothing is appended.
    pub fn put(&self, order: Order, out: &mut Vec<u8>) -> Result<(), AllocError>
        // Each part is below 2^31.
        requires { HasSmallParts self.now }
        ensures ok { OnOk result (out.new.items ≡ out.old.items ++ canonical order self.now) }
        ensures err { OnErr result (out.new.items ≡ out.old.items) }
    {
        let before = out.len();
        if put_parts(self, order, out).is_err() {
            out.truncate(before);
            return Err(AllocError);
        }
        Ok(())
    }
}
