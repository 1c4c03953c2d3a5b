//! The first rings of faces.

ghost use Rattle.std.specs.Prelude.{◌≡◌, ℕ, ◌+◌, ◌<◌, ◌≤◌, ◌^◌, ◌==◌, ◌&&◌, All, IfOk, length, map, nat_lt, slice_index};
ghost use Rattle.vpf_cut_rings.specs.Inner.Rings.{first_rings_of, first_with, ring_of};

use crate::rings::CutRing;
use std::alloc::{AllocError, Global};

/// Takes a ring as the first of its face, where there is a place for this face and none is taken yet.
fn put_first(firsts: &mut [u32], face: u32, number: u32)
    ensures { (i : ℕ) → slice_index firsts.new i ≡ first_with (slice_index firsts.old i) (nat_lt i (length firsts.old) && (face == i + 1)) number }
{
    let place = face as usize;
    if 1 <= place && place <= firsts.len() && firsts[place - 1] == 0 {
        firsts[place - 1] = number;
    }
}

/// For each of so many faces of a tile, from 1 on, the number of its first ring, counted from 1, and 0 where it has none. The rings are passed
/// once.
pub fn first_rings(alloc: Global, faces: u32, rings: &[CutRing]) -> Result<Vec<u32>, AllocError>
    requires { length rings.now < 2 ^ 32 }
    ensures firsts { IfOk result (λ firsts. firsts.items ≡ first_rings_of faces (map ring_of rings.now)) }
    ensures few { IfOk result (λ firsts. All (λ first. first ≤ length rings.now) firsts.items) }
{
    let mut firsts = vec![in alloc; 0u32; faces as usize]?;
    for (k, ring) in rings.iter().enumerate() {
        put_first(&mut firsts, ring.face, k as u32 + 1);
    }
    Ok(firsts)
}
