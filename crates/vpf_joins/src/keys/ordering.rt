//! Rows in the order of their keys.

ghost use Rattle.std.specs.Prelude.{◌≡◌, ◌≤◌, OnErr, OnOk, length, map, true};
ghost use Rattle.vpf_value.specs.Values.{Value, view};
ghost use Rattle.vpf_joins.specs.Keys.Keys.{AreBelow, AreByKey, AreUpTo, is_join_key, keyed_of, rows_with};

use crate::keys::keyed::KeyedRow;
use std::alloc::AllocError;
use vpf_theme::compare;
use vpf_theme::laws::values_are_ordered;
use vpf_value::Cell;

/// Whether a cell can be a key: it is a number or a text.
pub(crate) fn is_key(cell: &Cell<'_>) -> bool
    ensures { result ≡ is_join_key (view cell.now) }
{
    matches!(*cell, Cell::Text(_) | Cell::Short(_) | Cell::Long(_))
}

/// Sorts rows by their keys, and leaves those of one key in their order.
pub(crate) fn sort(rows: &mut Vec<KeyedRow<'_>>) -> Result<(), AllocError>
    ensures sorted { OnOk result (AreByKey rows.new.items) }
    ensures kept { OnOk result ((key : Value) →
        rows_with key (map keyed_of rows.new.items) ≡ rows_with key (map keyed_of rows.old.items)) }
    ensures err { OnErr result (rows.new.items ≡ rows.old.items) }
{
    values_are_ordered();
    rows.sort_by(|a, b| compare(&a.key, &b.key))?;
    Ok(())
}

/// How many of the rows, which are sorted, have a key below this one.
fn count_below(rows: &[KeyedRow<'_>], key: &Cell<'_>) -> usize
    requires { AreByKey rows.now }
    ensures within { result ≤ length rows.now }
    ensures below { AreBelow (view key.now) rows.now result }
{
    values_are_ordered();
    rows.partition_point(|row| compare(&row.key, key).is_lt())
}

/// How many of the rows, which are sorted, have a key that is not above this one.
fn count_up_to(rows: &[KeyedRow<'_>], key: &Cell<'_>) -> usize
    requires { AreByKey rows.now }
    ensures within { result ≤ length rows.now }
    ensures up_to { AreUpTo (view key.now) rows.now result }
{
    values_are_ordered();
    rows.partition_point(|row| compare(&row.key, key).is_le())
}

/// Those of the rows, which are sorted, whose key this is. They stand side by side, between two places that are searched for by halves.
pub(crate) fn rows_of<'r, 'a>(rows: &'r [KeyedRow<'a>], key: &Cell<'_>) -> &'r [KeyedRow<'a>]
    requires sorted { AreByKey rows.now }
    requires key { is_join_key (view key.now) ≡ true }
    ensures { map (λ row. row.at) result.now ≡ rows_with (view key.now) (map keyed_of rows.now) }
{
    values_are_ordered();
    let start = count_below(rows, key);
    let end = count_up_to(rows, key);
    &rows[start..end]
}
