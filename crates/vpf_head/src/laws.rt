//! Laws about the definitions of headers alone.

ghost use Rattle.std.specs.Prelude.{◌≡◌, ◌≤◌, ◌++◌, ℕ, List, length, slice_get, take, IfSome, IsTrue, Ok, Err};
ghost use Rattle.vpf_base.specs.Limits.{longest_text};
ghost use Rattle.vpf_base.specs.Bytes.{IsBytes};
ghost use Rattle.vpf_triplet.specs.declared.kinds.Count.TheVariants.{Fixed};
ghost use Rattle.vpf_triplet.specs.declared.kinds.Kind.{Kind};
ghost use Rattle.vpf_base.specs.declared.orders.Order.{Order};
ghost use Rattle.vpf_triplet.specs.declared.places.Place.{Place};
ghost use Rattle.vpf_head.specs.Canonical.{canonical_header, canonical_text};
ghost use Rattle.vpf_head.specs.Inner.Deciding.{BeginsHeader, DecidesHeader};
ghost use Rattle.vpf_head.specs.Faults.{FirstHeaderFault};
ghost use Rattle.vpf_head.specs.Head.{Head, names_rows, with_kind};
ghost use Rattle.vpf_head.specs.Making.{new_of};
ghost use Rattle.vpf_head.specs.Reading.{header_of};
ghost use Rattle.vpf_head.specs.Inner.Soundness.{IsSound};
ghost use Rattle.vpf_head.specs.Spelling.{IsHeader};

/// Each list of bytes begins with the spelling of exactly one header, or has exactly one first
/// fault, and never both. So no spelling is a proper beginning of another.
pub fn headers_decide()
    ensures { (bytes : List ℕ) → IsBytes bytes → DecidesHeader bytes }
{}

/// What is spelled as a header is read as that header, whatever follows, and the first row begins where the spelling ends.
pub fn spelled_is_read()
    ensures { (bytes : List ℕ) (h : Head) (text rest : List ℕ) → BeginsHeader bytes h text rest → header_of bytes ≡ Ok (h, length text) }
{}

/// What is read as a header is spelled so, up to where the first row begins.
pub fn read_is_spelled()
    ensures { (bytes : List ℕ) (h : Head) (start : ℕ) → IsBytes bytes → header_of bytes ≡ Ok (h, start)
        → (start ≤ length bytes) × IsHeader h (take start bytes) }
{}

/// A header that is read has from 1 to 256 columns, one at least of which holds data. Their counts are from 1 up and such
/// as their kinds allow, and their names differ. Each part is spelled by its item.
pub fn read_headers_are_sound()
    ensures { (bytes : List ℕ) (h : Head) (start : ℕ) → header_of bytes ≡ Ok (h, start) → IsSound h }
{}

/// A header that is read is sound in either order. A sound header stays sound in the other order, and where a column of one
/// value takes a kind that names rows.
pub fn sound_headers_stay_sound()
    ensures as_read { (bytes : List ℕ) (h : Head) (start : ℕ) (order : Order) → header_of bytes ≡ Ok (h, start) → IsSound (record h { order = order }) }
    ensures in_each_order { (h : Head) (order : Order) → IsSound h → IsSound (record h { order = order }) }
    ensures in_each_kind { (h : Head) (c : ℕ) (kind : Kind) → IfSome (slice_get h.columns c) (λ column. column.count ≡ Fixed 1) → IsTrue (names_rows kind)
        → IsSound h → IsSound (record h { columns = with_kind c kind h.columns }) }
{}

/// The canonical text of a sound header, where it isn't too long, spells the header behind its length number, and is read
/// again as it, whatever follows. It is as long in the other order.
pub fn canonical_is_read()
    ensures spelled { (h : Head) → IsSound h → length (canonical_text h) ≤ longest_text → IsHeader h (canonical_header h) }
    ensures read_again { (h : Head) (rest : List ℕ) → IsSound h → length (canonical_text h) ≤ longest_text
        → header_of (canonical_header h ++ rest) ≡ Ok (h, length (canonical_header h)) }
    ensures as_long { (h : Head) (order : Order) → length (canonical_text (record h { order = order })) ≡ length (canonical_text h) }
{}

/// The place where bytes are refused is their first fault, and only that one: the parts before it are spelled, and the next
/// part is refused there by the first of its rules that applies.
pub fn refusals_are_first_faults()
    ensures only { (bytes : List ℕ) (place : Place) → header_of bytes ≡ Err place → FirstHeaderFault bytes place }
    ensures each { (bytes : List ℕ) (place : Place) → FirstHeaderFault bytes place → header_of bytes ≡ Err place }
{}

/// Parts make a header exactly where the file of their canonical text spells them, and then it has these parts. So sound parts
/// make one, where their text isn't too long.
pub fn spelled_parts_make_a_header()
    ensures as_given { (given made : Head) → new_of given ≡ Ok made → (made ≡ given) × IsSound given × IsHeader given (canonical_header given) }
    ensures spelled { (given : Head) → IsHeader given (canonical_header given) → new_of given ≡ Ok given }
    ensures sound { (given : Head) → IsSound given → length (canonical_text given) ≤ longest_text → new_of given ≡ Ok given }
{}
