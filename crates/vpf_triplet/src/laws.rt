//! Laws about the definitions of triplet ids alone.

ghost use Rattle.std.specs.Prelude.{◌≡◌, ◌≤◌, ◌++◌, ℕ, List, length, Ok, Err};
ghost use Rattle.vpf_base.specs.Bytes.{IsBytes};
ghost use Rattle.vpf_base.specs.declared.orders.Order.{Order};
ghost use Rattle.vpf_triplet.specs.declared.places.Code.{Code};
ghost use Rattle.vpf_triplet.specs.declared.triplets.Triplet.{Triplet};
ghost use Rattle.vpf_triplet.specs.Canonical.{canonical, HasSmallParts};
ghost use Rattle.vpf_triplet.specs.Reading.{triplet_at};
ghost use Rattle.vpf_triplet.specs.Spelling.{IsTriplet};
ghost use Rattle.vpf_triplet.specs.Inner.Deciding.{DecidesTriplet};
ghost use Rattle.vpf_triplet.specs.Faults.{FirstTripletFault};

/// Each list of bytes begins with the spelling of exactly one triplet id, or is refused with exactly one code, and
/// never both. So no spelling is a proper beginning of another.
pub fn triplets_decide()
    ensures { (order : Order) (bytes : List ℕ) → IsBytes bytes → DecidesTriplet order bytes }
{}

/// The code that bytes are refused with is that of their first fault, and only that one.
pub fn refusals_are_first_faults()
    ensures only { (order : Order) (bytes : List ℕ) (code : Code) → IsBytes bytes → triplet_at order bytes ≡ Err code → FirstTripletFault order bytes code }
    ensures each { (order : Order) (bytes : List ℕ) (code : Code) → FirstTripletFault order bytes code → triplet_at order bytes ≡ Err code }
{}

/// The canonical spelling of a triplet id whose parts are below 2^31 is one of its spellings, is read again whatever
/// follows, and no spelling of the triplet id is shorter.
pub fn canonical_is_spelled()
    ensures spelled { (order : Order) (t : Triplet) → HasSmallParts t → IsTriplet order t (canonical order t) }
    ensures read_again { (order : Order) (t : Triplet) (rest : List ℕ) → HasSmallParts t
        → triplet_at order (canonical order t ++ rest) ≡ Ok (t, length (canonical order t)) }
    ensures shortest { (order : Order) (t : Triplet) (bytes : List ℕ) → IsTriplet order t bytes → length (canonical order t) ≤ length bytes }
    ensures small { (order : Order) (t : Triplet) (bytes : List ℕ) → IsTriplet order t bytes → HasSmallParts t }
{}
