//! Laws about the definitions of tables alone.

ghost use Rattle.std.specs.Prelude.{◌≡◌, ◌<◌, ◌+◌, ◌^◌, ℕ, All, List, Option, IfSome, Ok, Err, Some, length, slice_get, slice_range};
ghost use Rattle.vpf_base.specs.Bytes.{IsBytes};
ghost use Rattle.vpf_base.specs.declared.orders.Order.{Order};
ghost use Rattle.vpf_triplet.specs.declared.places.Place.{Place};
ghost use Rattle.vpf_varindex.specs.RowIndex.{row_index, HasSpan};
ghost use Rattle.vpf_table.specs.Grid.{Grid, Row};
ghost use Rattle.vpf_head.specs.Head.{Col};
ghost use Rattle.vpf_table.specs.Canonical.{IsSmall, IsWritable, canonical_table, canonical_spans, canonical_index, in_order, rows_text};
ghost use Rattle.vpf_table.specs.Inner.Widths.{width_of};
ghost use Rattle.vpf_table.specs.Reading.{table_of};
ghost use Rattle.vpf_table.specs.Spelling.{IsRow, IsRows, IsTable};
ghost use Rattle.vpf_table.specs.Inner.Deciding.{Decides};
ghost use Rattle.vpf_table.specs.Faults.{FirstFault};
ghost use Rattle.vpf_table.specs.Opening.{opened_of, row_spans};
ghost use Rattle.vpf_table.specs.Spans.{IsOpened};
ghost use Rattle.vpf_table.specs.Inner.Lower.{CellAndHeaderLaws, IndexLaws};

use vpf_findings::value::laws as cells;
use vpf_head::laws as headers;
use vpf_varindex::laws as indexes;

/// The laws of cells and headers, together.
pub(crate) fn cells_and_headers()
    ensures { CellAndHeaderLaws }
{
    cells::spelled_is_read();
    cells::read_is_spelled();
    cells::cells_have_room();
    cells::refusals_are_first_faults();
    headers::spelled_is_read();
    headers::read_is_spelled();
    headers::read_headers_are_sound();
    headers::refusals_are_first_faults();
}

/// The laws of variable-length indexes, together.
fn laws_of_indexes()
    ensures { IndexLaws }
{
    indexes::spelled_is_read();
    indexes::read_is_spelled();
    indexes::written_is_read();
    indexes::refusals_are_first_faults();
}

/// Each list of bytes is the spelling of exactly one table, with its own index where one is given, or has exactly one first
/// fault, and never both.
pub fn tables_decide()
    ensures { (bytes : List ℕ) (index : Option (List ℕ)) → IsBytes bytes → IfSome index IsBytes → Decides bytes index }
{
    cells_and_headers();
    laws_of_indexes();
}

/// What is spelled as a table is read as that table.
pub fn spelled_is_read()
    ensures { (bytes : List ℕ) (g : Grid) → IsTable g bytes → table_of bytes ≡ Ok g }
{
    cells_and_headers();
}

/// What is read as a table is spelled so.
pub fn read_is_spelled()
    ensures { (bytes : List ℕ) (g : Grid) → IsBytes bytes → table_of bytes ≡ Ok g → IsTable g bytes }
{
    cells_and_headers();
}

/// What is read as a table can be written, in either order.
pub fn read_is_writable()
    ensures { (bytes : List ℕ) (g : Grid) (order : Order) → IsBytes bytes → table_of bytes ≡ Ok g → IsWritable (in_order order g) }
{
    cells_and_headers();
    cells::spelled_fits();
    headers::sound_headers_stay_sound();
}

/// The canonical table of a header and rows that are few enough is spelled so, and is read as that table. Its rows lie where
/// its canonical index tells, and it is opened with that index.
pub fn canonical_is_read()
    ensures spelled { (g : Grid) → IsWritable g → IsSmall g → IsTable g (canonical_table g) }
    ensures read_again { (g : Grid) → IsWritable g → IsSmall g → table_of (canonical_table g) ≡ Ok g }
    ensures spans { (g : Grid) → IsWritable g → IsSmall g → row_spans (canonical_table g) g ≡ canonical_spans g }
    ensures opened_again { (g : Grid) → IsWritable g → IsSmall g → opened_of (canonical_table g) (canonical_index g) ≡ Ok g }
{
    own_index_is_taken();
    cells_and_headers();
    cells::fitting_is_written();
    headers::canonical_is_read();
}

/// Rows of one width have no spelling but the canonical one.
pub fn fixed_rows_are_canonical()
    ensures { (order : Order) (columns : List Col) (rows : List Row) (bytes : List ℕ) (width : ℕ) → width_of columns ≡ Some width
        → IsRows order columns rows bytes → bytes ≡ rows_text order columns rows }
{
    cells::fitting_is_written();
}

/// The place where a table is refused, or the index that is given with it, is the first fault, and only that one: the parts
/// before it are spelled, and the next part is refused there by the first of its rules that applies.
pub fn refusals_are_first_faults()
    ensures only { (bytes : List ℕ) (index : Option (List ℕ)) (place : Place) → IsBytes bytes → IfSome index IsBytes → opened_of bytes index ≡ Err place
        → FirstFault bytes index place }
    ensures each { (bytes : List ℕ) (index : Option (List ℕ)) (place : Place) → FirstFault bytes index place → opened_of bytes index ≡ Err place }
{
    cells_and_headers();
    laws_of_indexes();
}

/// What is spelled as a table, with its own index where one is given, is opened as that table.
pub fn spelled_is_opened()
    ensures { (bytes : List ℕ) (index : Option (List ℕ)) (g : Grid) → IsOpened g bytes index → opened_of bytes index ≡ Ok g }
{
    cells_and_headers();
    laws_of_indexes();
}

/// What is opened as a table, with its index where one is given, is spelled so.
pub fn opened_is_spelled()
    ensures { (bytes : List ℕ) (index : Option (List ℕ)) (g : Grid) → IsBytes bytes → IfSome index IsBytes → opened_of bytes index ≡ Ok g
        → IsOpened g bytes index }
{
    cells_and_headers();
    laws_of_indexes();
}

/// What is opened as a table, with an index or without, is read as that table.
pub fn opened_is_read()
    ensures { (bytes : List ℕ) (index : Option (List ℕ)) (g : Grid) → opened_of bytes index ≡ Ok g → table_of bytes ≡ Ok g }
{}

/// Each row of a table has an offset and a length, and the bytes that lie there spell it.
pub fn rows_lie_at_their_spans()
    ensures each { (bytes : List ℕ) (g : Grid) → length (row_spans bytes g) ≡ length g.rows }
    ensures spelled { (bytes : List ℕ) (g : Grid) (k : ℕ) (row : Row) (span : ℕ × ℕ) → IsBytes bytes → table_of bytes ≡ Ok g
        → slice_get g.rows k ≡ Some row → slice_get (row_spans bytes g) k ≡ Some span
        → IsRow g.head.order g.head.columns row (slice_range bytes span.0 (span.0 + span.1)) }
{
    cells_and_headers();
}

/// The index that is written for the offsets and lengths of a table's rows is taken as its own, whatever its second number.
/// In a table of fewer than 2^32 bytes each fits its entry.
pub fn own_index_is_taken()
    ensures taken { (bytes : List ℕ) (g : Grid) (second : ℕ) → table_of bytes ≡ Ok g → All HasSpan (row_spans bytes g)
        → opened_of bytes (Some (row_index g.head.order second (row_spans bytes g))) ≡ Ok g }
    ensures small { (bytes : List ℕ) (g : Grid) → IsBytes bytes → table_of bytes ≡ Ok g → length bytes < 2 ^ 32 → All HasSpan (row_spans bytes g) }
{
    cells_and_headers();
    laws_of_indexes();
}
