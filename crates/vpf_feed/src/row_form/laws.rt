//! Laws of rows that are walked by their form.

ghost use Rattle.std.specs.Prelude.{◌≡◌, ◌-◌, ℕ, List, drop};
ghost use Rattle.vpf_base.specs.Limits.{most_rows};
ghost use Rattle.vpf_base.specs.declared.orders.Order.{Order};
ghost use Rattle.vpf_head.specs.Head.{Col};
ghost use Rattle.vpf_table.specs.Reading.{row_at, rows_at};
ghost use Rattle.vpf_table.specs.Walking.{end_of, counted};
ghost use Rattle.vpf_feed.specs.Inner.RowForm.Form.{form_fields};
ghost use Rattle.vpf_feed.specs.Inner.RowForm.Walk.{with_rest, row_left, rows_to_come};

/// What is left of a file comes to what the grammar reads there: a row to its end, and all rows to their number or the first
/// fault. What stands before a row matters by its length alone, and of the header its order and the kinds and counts.
pub fn rows_are_left()
    ensures row { (order : Order) (columns : List Col) (bytes : List ℕ) (at : ℕ) → row_left order (form_fields columns) at (drop at bytes)
        ≡ with_rest bytes (end_of (row_at order columns bytes at)) }
    ensures rows { (few : ℕ) (order : Order) (columns : List Col) (bytes : List ℕ) (done at : ℕ)
        → rows_to_come few order (form_fields columns) done at (drop at bytes) ≡ counted done (rows_at few order columns bytes at) }
{}
