//! Laws about the indexes that are built.

ghost use Rattle.std.specs.Prelude.{◌≡◌, ℕ, All, List, Ok, true};
ghost use Rattle.vpf_base.specs.declared.orders.Order.{Order};
ghost use Rattle.vpf_triplet.specs.declared.kinds.Count.{Count};
ghost use Rattle.vpf_value.specs.Values.{Value};
ghost use Rattle.vpf_value.specs.Inner.Fitting.{FitsCell};
ghost use Rattle.vpf_head.specs.Head.{Col};
ghost use Rattle.vpf_theme.specs.declared.layout.Form.{Form};
ghost use Rattle.vpf_theme.specs.Layouts.{is_indexed};
ghost use Rattle.vpf_theme.specs.Reading.{theme_of};
ghost use Rattle.vpf_theme.specs.Spelling.{IsThematicIndex};
ghost use Rattle.vpf_theme.specs.Agreeing.{AgreesWithColumn};
ghost use Rattle.vpf_theme_build.specs.Building.{BuiltIndexesServe, CanIndex, index_for, layout_for};
ghost use Rattle.vpf_theme_build.specs.Grouping.{entries_for};
ghost use Rattle.vpf_theme_build.specs.Text.{index_text};

use vpf_table::laws as tables;
use vpf_theme::laws::{spelled_is_read, values_are_ordered};
use vpf_value::laws::fitting_is_written;

/// The index that is built of a column agrees with it.
pub fn built_indexes_agree()
    ensures { (form : Form) (column : Col) (count : ℕ) (cells : List Value) → column.count ≡ Count.Fixed count → is_indexed column.kind ≡ true
        → All (FitsCell column.kind column.count) cells → AgreesWithColumn (index_for form column count cells) column cells }
{
    values_are_ordered();
}

/// The bytes that are built of the cells of a column are a file of the index of these cells, whatever the table's file is
/// called.
pub fn built_indexes_are_spelled()
    ensures { (order : Order) (form : Form) (column : Col) (count : ℕ) (cells : List Value) (table : List ℕ) → CanIndex order form column count cells
        → IsThematicIndex order (index_for form column count cells) (index_text (layout_for order form column count cells) table column.name
        (entries_for cells)) }
{
    values_are_ordered();
    fitting_is_written();
}

/// They are read as that index.
pub fn built_indexes_are_read()
    ensures { (order : Order) (form : Form) (column : Col) (count : ℕ) (cells : List Value) (table : List ℕ) → CanIndex order form column count cells
        → theme_of order (index_text (layout_for order form column count cells) table column.name (entries_for cells))
        ≡ Ok (index_for form column count cells) }
{
    built_indexes_are_spelled();
    spelled_is_read();
}

/// The index that is built of a column of a table agrees with it, and is no larger than a file.
pub fn built_indexes_serve()
    ensures { BuiltIndexesServe }
{
    fitting_is_written();
    values_are_ordered();
    built_indexes_agree();
    built_indexes_are_read();
    tables::read_is_spelled();
    tables::read_is_writable();
}
