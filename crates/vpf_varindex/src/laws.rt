//! Laws about the definitions of variable-length indexes alone.

ghost use Rattle.std.specs.Prelude.{◌≡◌, ◌<◌, ◌^◌, ℕ, All, List, Ok, Err, length};
ghost use Rattle.vpf_base.specs.Bytes.{IsBytes};
ghost use Rattle.vpf_base.specs.declared.orders.Order.{Order};
ghost use Rattle.vpf_triplet.specs.declared.places.Place.{Place};
ghost use Rattle.vpf_varindex.specs.Inner.Deciding.{DecidesIndex};
ghost use Rattle.vpf_varindex.specs.Faults.{FirstIndexFault};
ghost use Rattle.vpf_varindex.specs.Reading.{index_at};
ghost use Rattle.vpf_varindex.specs.RowIndex.{row_index, HasSpan, IsRowIndex};

/// Each list of bytes is the index of exactly one list of offsets and lengths, or has exactly one first fault, and never
/// both.
pub fn indexes_decide()
    ensures { (order : Order) (bytes : List ℕ) → IsBytes bytes → DecidesIndex order bytes }
{}

/// The place where bytes are refused is their first fault, and only that one.
pub fn refusals_are_first_faults()
    ensures only { (order : Order) (bytes : List ℕ) (place : Place) → index_at order bytes ≡ Err place → FirstIndexFault order bytes place }
    ensures each { (order : Order) (bytes : List ℕ) (place : Place) → FirstIndexFault order bytes place → index_at order bytes ≡ Err place }
{}

/// What is spelled as an index is read as that index.
pub fn spelled_is_read()
    ensures { (order : Order) (spans : List (ℕ × ℕ)) (bytes : List ℕ) → IsRowIndex order spans bytes → index_at order bytes ≡ Ok spans }
{}

/// What is read as an index is spelled so.
pub fn read_is_spelled()
    ensures { (order : Order) (spans : List (ℕ × ℕ)) (bytes : List ℕ) → IsBytes bytes → index_at order bytes ≡ Ok spans → IsRowIndex order spans bytes }
{}

/// The index that is written for rows whose offsets and lengths have 4 bytes is theirs, and is read again whatever its
/// second number.
pub fn written_is_read()
    ensures spelled { (order : Order) (second : ℕ) (spans : List (ℕ × ℕ)) → second < 2 ^ 32 → length spans < 2 ^ 32 → All HasSpan spans
        → IsRowIndex order spans (row_index order second spans) }
    ensures read_again { (order : Order) (second : ℕ) (spans : List (ℕ × ℕ)) → length spans < 2 ^ 32 → All HasSpan spans
        → index_at order (row_index order second spans) ≡ Ok spans }
{}
