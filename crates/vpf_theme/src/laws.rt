//! Laws about the definitions of thematic indexes alone.

ghost use Rattle.std.specs.Prelude.{◌≡◌, ◌↔◌, ℕ, List, IsTrue, None, Ok, Err};
ghost use Rattle.std.specs.Cmp.{IsTotalOrder};
ghost use Rattle.std.specs.declared.cmp.Ordering.TheVariants.{Equal};
ghost use Rattle.vpf_base.specs.Bytes.{IsBytes};
ghost use Rattle.vpf_base.specs.declared.orders.Order.{Order};
ghost use Rattle.vpf_triplet.specs.declared.kinds.Kind.{Kind};
ghost use Rattle.vpf_triplet.specs.declared.places.Place.{Place};
ghost use Rattle.vpf_triplet.specs.declared.kinds.Count.{Count};
ghost use Rattle.vpf_value.specs.Values.{Value};
ghost use Rattle.vpf_value.specs.Inner.Fitting.{FitsCell};
ghost use Rattle.vpf_head.specs.Head.{Col};
ghost use Rattle.vpf_theme.specs.Layouts.{is_indexed};
ghost use Rattle.vpf_theme.specs.Ordering.{same_value, value_cmp};
ghost use Rattle.vpf_theme.specs.Entries.{Theme, found_in};
ghost use Rattle.vpf_theme.specs.Findings.{first_finding};
ghost use Rattle.vpf_theme.specs.Agreeing.{AgreesWithColumn, HaveRows, listed, scan_of};
ghost use Rattle.vpf_theme.specs.Reading.{theme_of};
ghost use Rattle.vpf_theme.specs.Spelling.{IsThematicIndex};
ghost use Rattle.vpf_theme.specs.Inner.Deciding.{DecidesTheme};
ghost use Rattle.vpf_theme.specs.Inner.Faults.{FirstThemeFault};

use vpf_value::laws;

/// Where an index agrees with a column, what it lists for a value is the plain scan.
pub fn listed_is_scan()
    ensures { (t : Theme) (column : Col) (cells : List Value) (v : Value) → AgreesWithColumn t column cells → listed (found_in v t.entries) ≡ scan_of v cells }
{}

/// An index agrees with a column exactly where there is no finding.
pub fn agreement_is_no_finding()
    ensures agrees { (t : Theme) (column : Col) (cells : List Value) → HaveRows t → first_finding t column cells ≡ None → AgreesWithColumn t column cells }
    ensures none { (t : Theme) (column : Col) (cells : List Value) → AgreesWithColumn t column cells → first_finding t column cells ≡ None }
{}

/// The order of values is total, and those that fit one field that can be indexed are equal where the order does not tell
/// them apart.
pub fn values_are_ordered()
    ensures total { IsTotalOrder value_cmp }
    ensures equal { (kind : Kind) (count : Count) (v u : Value) → IsTrue (is_indexed kind) → FitsCell kind count v → FitsCell kind count u
        → value_cmp v u ≡ Equal → v ≡ u }
    ensures same { (v u : Value) → IsTrue (same_value v u) ↔ (v ≡ u) }
{}

/// What is spelled as an index is read as that index.
pub fn spelled_is_read()
    ensures { (order : Order) (theme : Theme) (bytes : List ℕ) → IsThematicIndex order theme bytes → theme_of order bytes ≡ Ok theme }
{
    laws::spelled_is_read();
    laws::fixed_cells();
}

/// What is read as an index is spelled so.
pub fn read_is_spelled()
    ensures { (order : Order) (theme : Theme) (bytes : List ℕ) → IsBytes bytes → theme_of order bytes ≡ Ok theme → IsThematicIndex order theme bytes }
{
    laws::read_is_spelled();
    laws::fixed_cells();
}

/// Each list of bytes is a file of exactly one index, or has exactly one first fault, and never both.
pub fn themes_decide()
    ensures { (order : Order) (bytes : List ℕ) → IsBytes bytes → DecidesTheme order bytes }
{
    laws::spelled_is_read();
    laws::read_is_spelled();
    laws::fixed_cells();
}

/// The place where bytes are refused is their first fault, and only that one: a field of the header is wrong, or the entries
/// before it are spelled, and a line applies to the next one.
pub fn refusals_are_first_faults()
    ensures only { (order : Order) (bytes : List ℕ) (place : Place) → IsBytes bytes → theme_of order bytes ≡ Err place → FirstThemeFault order bytes place }
    ensures each { (order : Order) (bytes : List ℕ) (place : Place) → FirstThemeFault order bytes place → theme_of order bytes ≡ Err place }
{
    laws::spelled_is_read();
    laws::read_is_spelled();
    laws::fixed_cells();
}
