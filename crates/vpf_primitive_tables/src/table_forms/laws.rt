//! Laws about tables that are written like others.

ghost use Rattle.std.specs.Prelude.{ℕ, List};
ghost use Rattle.vpf_triplet.specs.declared.kinds.Kind.{Kind};
ghost use Rattle.vpf_head.specs.Head.{Col};
ghost use Rattle.vpf_table.specs.Canonical.{FitsRow};
ghost use Rattle.vpf_table.specs.Grid.{Row};
ghost use Rattle.vpf_write.specs.Revise.Revising.{FitsElsewhere, with_kinds};
ghost use Rattle.vpf_primitive_tables.specs.TableForms.Forms.{EdgeValues, edge_kinds_of, edge_values_of, pair_kinds, pair_values};

use vpf_write::revise::laws::revised_rows_fit;

/// A row that fits its table's columns fits them with their new kinds too, but for the cells that get new values.
pub fn own_rows_fit()
    ensures edges { (kind : Kind) (columns : List Col) (row : Row) → FitsRow columns row → (k : ℕ) (v : EdgeValues)
        → FitsElsewhere (edge_values_of columns k v) (with_kinds (edge_kinds_of kind columns) columns) row }
    ensures pairs { (name : List ℕ) (columns : List Col) (row : Row) → FitsRow columns row → (k n : ℕ)
        → FitsElsewhere (pair_values name columns k n) (with_kinds (pair_kinds name columns) columns) row }
{
    revised_rows_fit();
}
