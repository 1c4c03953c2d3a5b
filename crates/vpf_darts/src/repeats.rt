//! Whether nexts are a permutation.

ghost use Rattle.std.specs.Prelude.{◌≡◌, ◌%◌, ◌^◌, ◌<◌, All, IfOk, MatchOption, [], length};
ghost use Rattle.vpf_darts.specs.Darts.{dart_code};
ghost use Rattle.vpf_darts.specs.Maps.{IsMap};
ghost use Rattle.vpf_darts.specs.MapLists.{IsInRange, IsFirstRepeat, dart_map, lists_of};

use crate::darts::Dart;
use crate::maps::FIRST;
use std::alloc::{AllocError, Global};

/// The least dart whose next an earlier dart has.
pub fn first_repeat(alloc: Global, next: &[Dart]) -> Result<Option<Dart>, AllocError>
    requires few { length next.now < 2 ^ 33 }
    requires even { length next.now % 2 ≡ 0 }
    requires in_range { All (IsInRange (length next.now)) next.now }
    ensures { let m = dart_map (lists_of next.now [] []) in IfOk result (λ found. MatchOption found (IsMap m) (λ dart. IsFirstRepeat m (dart_code dart))) }
{
    // By the numbers of darts, of which the least is 2.
    let mut taken = vec![in alloc; false; next.len() + FIRST]?;
    for (place, dart) in next.iter().enumerate() {
        let number = dart.number();
        if taken[number] {
            return Ok(Some(Dart::of_number(place + FIRST)));
        }
        taken[number] = true;
    }
    Ok(None)
}
