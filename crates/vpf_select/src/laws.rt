//! Laws about the definitions of selection alone.

ghost use Rattle.std.specs.Prelude.{◌≡◌, ◌<◌, ℕ, IsTrue, List, Some, Ok, length};
ghost use Rattle.vpf_triplet.specs.declared.kinds.Kind.{Kind};
ghost use Rattle.vpf_triplet.specs.declared.kinds.Count.{Count};
ghost use Rattle.vpf_triplet.specs.Kinds.{allows};
ghost use Rattle.vpf_value.specs.Values.{Value};
ghost use Rattle.vpf_value.specs.Inner.Fitting.{FitsCell};
ghost use Rattle.vpf_head.specs.Head.{Col};
ghost use Rattle.vpf_table.specs.Grid.{Grid};
ghost use Rattle.vpf_theme.specs.Entries.{Theme};
ghost use Rattle.vpf_theme.specs.Findings.{cells_of};
ghost use Rattle.vpf_theme.specs.Agreeing.{AgreesAt, AgreesWithColumn, scan_of};
ghost use Rattle.vpf_select.specs.Selecting.{selected};
ghost use Rattle.vpf_select.specs.Words.{value_in};

use vpf_theme::laws::listed_is_scan;

/// What a word says fits the column, where its kind allows its count.
pub fn words_fit()
    ensures { (kind : Kind) (count : Count) (word : List ℕ) (v : Value) → IsTrue (allows kind count) → value_in kind count word ≡ Some v
        → FitsCell kind count v }
{}

/// Where the index agrees with the column, what is selected with it is the plain scan. So none of its rows fails the test.
pub fn indexed_selection_is_the_scan()
    ensures column { (t : Theme) (column : Col) (cells : List Value) (v : Value) → AgreesWithColumn t column cells
        → selected (Some t) v cells ≡ Ok (scan_of v cells) }
    ensures table { (t : Theme) (grid : Grid) (c : ℕ) (v : Value) → c < length grid.head.columns → AgreesAt t grid c
        → selected (Some t) v (cells_of grid c) ≡ Ok (scan_of v (cells_of grid c)) }
{
    listed_is_scan();
}
