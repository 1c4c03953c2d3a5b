//! Laws of what stays of the grammar and of reading when bytes follow.

ghost use Rattle.std.specs.Prelude.{◌≡◌, ◌≤◌, ◌≢◌, ◌⊎◌, ◌++◌, ℕ, List, None, Ok, Err, length};
ghost use Rattle.vpf_base.specs.Bytes.{IsBytes};
ghost use Rattle.vpf_base.specs.declared.orders.Order.{Order};
ghost use Rattle.vpf_triplet.specs.declared.kinds.Kind.{Kind};
ghost use Rattle.vpf_triplet.specs.declared.kinds.Count.{Count};
ghost use Rattle.vpf_triplet.specs.declared.places.Place.{Place};
ghost use Rattle.vpf_triplet.specs.declared.places.Code.{Code};
ghost use Rattle.vpf_triplet.specs.declared.places.Code.TheVariants as codes;
ghost use Rattle.vpf_value.specs.Values.{Value};
ghost use Rattle.vpf_value.specs.Reading.{cell_from};
ghost use Rattle.vpf_head.specs.Head.{Head};
ghost use Rattle.vpf_head.specs.Reading.{header_of};
ghost use Rattle.vpf_table.specs.Faults.{FirstFault};
ghost use Rattle.vpf_table.specs.Inner.Lower.{CellAndHeaderLaws};
ghost use Rattle.vpf_feed.specs.Inner.Staying.Staying.{order_bytes, MayGoOn};

use vpf_head::laws as headers;
use vpf_value::laws as cells;

/// The laws of cells and headers, together.
pub fn cells_and_headers()
    ensures { CellAndHeaderLaws }
{
    cells::spelled_is_read();
    cells::read_is_spelled();
    cells::cells_have_room();
    cells::refusals_are_first_faults();
    headers::spelled_is_read();
    headers::read_is_spelled();
    headers::read_headers_are_sound();
    headers::refusals_are_first_faults();
}

/// The first fault of a file of 6 bytes or more is that of every file that begins so, but where the file ends inside its
/// header text or inside a cell.
pub fn faults_stay()
    ensures { (bytes more : List ℕ) (place : Place) → order_bytes ≤ length bytes → FirstFault bytes None place
        → place.code ≢ codes.HeaderCut → place.code ≢ codes.CellCut → FirstFault (bytes ++ more) None place }
{}

/// What is read of a header or of a cell is read whatever follows. So is what is refused for more than that the bytes end.
pub fn reading_stays()
    ensures header { (bytes more : List ℕ) (h : Head) (start : ℕ) → IsBytes bytes → header_of bytes ≡ Ok (h, start)
        → header_of (bytes ++ more) ≡ Ok (h, start) }
    ensures refused_header { (bytes more : List ℕ) (place : Place) → order_bytes ≤ length bytes → header_of bytes ≡ Err place
        → place.code ≢ codes.HeaderCut → header_of (bytes ++ more) ≡ Err place }
    ensures cell { (order : Order) (kind : Kind) (count : Count) (bytes more : List ℕ) (v : Value) (n : ℕ) → IsBytes bytes
        → cell_from order kind count bytes ≡ Ok (v, n) → cell_from order kind count (bytes ++ more) ≡ Ok (v, n) }
    ensures refused_cell { (order : Order) (kind : Kind) (count : Count) (bytes more : List ℕ) (code : Code) → IsBytes bytes
        → cell_from order kind count bytes ≡ Err code → code ≢ codes.CellCut → cell_from order kind count (bytes ++ more) ≡ Err code }
{
    cells_and_headers();
}
