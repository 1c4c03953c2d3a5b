//! Laws about the definitions of cells alone.

ghost use Rattle.std.specs.Prelude.{◌≡◌, ◌≢◌, ◌≤◌, ◌<◌, ◌↔◌, ℕ, List, ◌++◌, length, take, Some, Ok, Err, IsTrue};
ghost use Rattle.vpf_triplet.specs.Bytes.{IsBytes};
ghost use Rattle.vpf_base.specs.declared.orders.Order.{Order};
ghost use Rattle.vpf_triplet.specs.declared.kinds.Kind.{Kind};
ghost use Rattle.vpf_triplet.specs.declared.kinds.Count.{Count};
ghost use Rattle.vpf_triplet.specs.declared.places.Code.{Code};
ghost use Rattle.vpf_triplet.specs.Kinds.{allows};
ghost use Rattle.vpf_value.specs.Values.{Value};
ghost use Rattle.vpf_value.specs.Reading.{cell_from};
ghost use Rattle.vpf_value.specs.Spelling.{IsCell};
ghost use Rattle.vpf_value.specs.Widths.{cell_width, TakesWidth};
ghost use Rattle.vpf_value.specs.Inner.Deciding.{DecidesCell};
ghost use Rattle.vpf_value.specs.Faults.{FirstCellFault};
ghost use Rattle.vpf_value.specs.Inner.Fitting.{FitsCell, HasSpelling};
ghost use Rattle.vpf_value.specs.Canonical.{spelled};
ghost use Rattle.vpf_value.specs.Inner.Turning.{word_size, turned_cell};

use vpf_triplet::laws as triplets;

/// Each list of bytes begins with the spelling of exactly one value, or is refused with exactly one code, and never
/// both. So no spelling is a proper beginning of another.
pub fn cells_decide()
    ensures { (order : Order) (kind : Kind) (count : Count) (bytes : List ℕ) → IsBytes bytes → DecidesCell order kind count bytes }
{
    triplets::refusals_are_first_faults();
}

/// The code that bytes are refused with is that of their first fault, and only that one.
pub fn refusals_are_first_faults()
    ensures only { (order : Order) (kind : Kind) (count : Count) (bytes : List ℕ) (code : Code) → IsBytes bytes
        → cell_from order kind count bytes ≡ Err code → FirstCellFault order kind count bytes code }
    ensures each { (order : Order) (kind : Kind) (count : Count) (bytes : List ℕ) (code : Code) → FirstCellFault order kind count bytes code
        → cell_from order kind count bytes ≡ Err code }
{
    triplets::refusals_are_first_faults();
}

/// What is spelled so is read, whatever follows.
pub fn spelled_is_read()
    ensures { (order : Order) (kind : Kind) (count : Count) (v : Value) (text rest : List ℕ) → IsCell order kind count v text
        → cell_from order kind count (text ++ rest) ≡ Ok (v, length text) }
{}

/// What is read is spelled so.
pub fn read_is_spelled()
    ensures { (order : Order) (kind : Kind) (count : Count) (bytes : List ℕ) (v : Value) (n : ℕ) → IsBytes bytes
        → cell_from order kind count bytes ≡ Ok (v, n) → (n ≤ length bytes) × IsCell order kind count v (take n bytes) }
{}

/// Where cells have one width, each ends there, or is cut where fewer bytes are left.
pub fn fixed_cells()
    ensures { (order : Order) (kind : Kind) (count : Count) (bytes : List ℕ) (width : ℕ) → cell_width kind count ≡ Some width
        → TakesWidth width bytes (cell_from order kind count bytes) }
{}

/// A cell has at least one byte, unless its kind holds nothing or its count is 0.
pub fn cells_have_room()
    ensures { (order : Order) (kind : Kind) (count : Count) (v : Value) (text : List ℕ) → kind ≢ Kind.X → count ≢ Count.Fixed 0
        → IsCell order kind count v text → 0 < length text }
{}

/// The values that fit a field are those that some bytes spell there, in either order.
pub fn fitting_is_spelled()
    ensures { (kind : Kind) (count : Count) (v : Value) → FitsCell kind count v ↔ HasSpelling kind count v }
{}

/// The canonical spelling of a value that fits is one of its spellings, and is read again whatever follows. No spelling
/// is shorter, and but for triplet ids there is no other. It has as many bytes in either order, and those of the field's
/// width where cells have one.
pub fn fitting_is_written()
    ensures spelled { (order : Order) (kind : Kind) (count : Count) (v : Value) → FitsCell kind count v
        → IsCell order kind count v (spelled order kind count v) }
    ensures read_again { (order : Order) (kind : Kind) (count : Count) (v : Value) (rest : List ℕ) → FitsCell kind count v
        → cell_from order kind count (spelled order kind count v ++ rest) ≡ Ok (v, length (spelled order kind count v)) }
    ensures shortest { (order : Order) (kind : Kind) (count : Count) (v : Value) (bytes : List ℕ) → IsCell order kind count v bytes
        → length (spelled order kind count v) ≤ length bytes }
    ensures alone { (order : Order) (kind : Kind) (count : Count) (v : Value) (bytes : List ℕ) → kind ≢ Kind.K → IsCell order kind count v bytes
        → bytes ≡ spelled order kind count v }
    ensures either { (order other : Order) (kind : Kind) (count : Count) (v : Value)
        → length (spelled order kind count v) ≡ length (spelled other kind count v) }
    ensures width { (order : Order) (kind : Kind) (count : Count) (v : Value) (width : ℕ) → cell_width kind count ≡ Some width → FitsCell kind count v
        → length (spelled order kind count v) ≡ width }
{}

/// What is spelled in a field, as everything that is read there, fits it where the kind allows the count.
pub fn spelled_fits()
    ensures { (order : Order) (kind : Kind) (count : Count) (v : Value) (bytes : List ℕ) → IsTrue (allows kind count) → IsCell order kind count v bytes
        → FitsCell kind count v }
{}

/// In the other order a cell of one width has the bytes that it has in this one, with each of its words turned round.
pub fn turned_is_other_order()
    ensures { (order other : Order) (kind : Kind) (count : Count) (v : Value) (width : ℕ) → order ≢ other → cell_width kind count ≡ Some width
        → FitsCell kind count v → spelled other kind count v ≡ turned_cell (word_size kind) (spelled order kind count v) }
{}
