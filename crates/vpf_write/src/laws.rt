//! Laws about what is written.

ghost use Rattle.std.specs.Prelude.{◌≡◌, ◌%◌, Ok, None, length};
ghost use Rattle.vpf_base.specs.declared.orders.Order.{Order};
ghost use Rattle.vpf_table.specs.Canonical.{IsWritable, canonical_table, canonical_spans, canonical_index, in_order};
ghost use Rattle.vpf_table.specs.Grid.{Grid};
ghost use Rattle.vpf_table.specs.Opening.{opened_of, row_spans};
ghost use Rattle.vpf_table.specs.Reading.{table_of};
ghost use Rattle.vpf_table.specs.Spelling.{IsTable};
ghost use Rattle.vpf_write.specs.Inner.Cuts.{joined, grid_of_cells};
ghost use Rattle.vpf_write.specs.Writing.{first_limit};

use vpf_head::laws as headers;
use vpf_table::laws as tables;
use vpf_value::laws as cells;

/// The canonical table of a header and rows that pass no limit is spelled so, and is read as that table. Its rows lie where
/// its canonical index tells, and it is opened with that index.
pub fn written_is_read()
    ensures spelled { (g : Grid) → IsWritable g → first_limit g ≡ None → IsTable g (canonical_table g) }
    ensures read_again { (g : Grid) → IsWritable g → first_limit g ≡ None → table_of (canonical_table g) ≡ Ok g }
    ensures spans { (g : Grid) → IsWritable g → first_limit g ≡ None → row_spans (canonical_table g) g ≡ canonical_spans g }
    ensures opened_again { (g : Grid) → IsWritable g → first_limit g ≡ None → opened_of (canonical_table g) (canonical_index g) ≡ Ok g }
{
    tables::canonical_is_read();
}

/// A table passes the same limits in either order. Where it passes none, writing it in one order, reading that, and writing
/// what is read in the table's own order gives its canonical bytes and index.
pub fn written_twice_is_canonical()
    ensures limits { (g : Grid) (order : Order) → first_limit (in_order order g) ≡ first_limit g }
    ensures table { (g h : Grid) (order : Order) → IsWritable g → first_limit g ≡ None → table_of (canonical_table (in_order order g)) ≡ Ok h
        → canonical_table (in_order g.head.order h) ≡ canonical_table g }
    ensures index { (g h : Grid) (order : Order) → IsWritable g → first_limit g ≡ None → table_of (canonical_table (in_order order g)) ≡ Ok h
        → canonical_index (in_order g.head.order h) ≡ canonical_index g }
{
    tables::canonical_is_read();
    cells::fitting_is_written();
    headers::canonical_is_read();
    headers::sound_headers_stay_sound();
}

/// The cells of a table's rows, one row after another, are cut into these rows again.
pub fn joined_rows_are_cut()
    ensures whole { (g : Grid) → IsWritable g → length (joined g.rows) % length g.head.columns ≡ 0 }
    ensures rows { (g : Grid) → IsWritable g → grid_of_cells g.head (joined g.rows) ≡ g }
{}
