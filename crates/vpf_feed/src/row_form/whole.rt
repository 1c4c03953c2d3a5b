//! Whole rows in the bytes at hand.

ghost use Rattle.std.specs.Prelude.{IfSome};
ghost use Rattle.std.specs.List.{All};
ghost use Rattle.vpf_feed.specs.Inner.RowForm.Form.{IsCutEmpty};
ghost use Rattle.vpf_feed.specs.Inner.RowForm.Walk.{IsWholeCell, IsWholeRow};

use crate::row_form::form::{Field, RowForm};
use crate::row_form::looking::{Look, look_at, told};
use vpf_triplet::Order;

/// How many bytes the cell takes that begins with these, where it is whole. Where its kind or its count tells that, no byte is looked at.
fn whole_cell(order: Order, field: Field, bytes: &[u8]) -> Option<usize>
    requires { IsCutEmpty field }
    ensures { IfSome result (IsWholeCell order field bytes.now) }
{
    if let Some(len) = told(order, field, bytes) {
        if len <= bytes.len() as u64 {
            return Some(len as usize);
        }
        return None;
    }
    match look_at(order, field, bytes) {
        Look::Whole(len) => Some(len),
        _ => None,
    }
}

/// How many bytes the row takes that begins with these, where it is whole.
pub fn whole_row(form: &RowForm, bytes: &[u8]) -> Option<usize>
    requires { All IsCutEmpty form.now.fields.items }
    ensures { IfSome result (IsWholeRow form.now.order form.now.fields.items bytes.now) }
{
    let mut used = 0;
    for i in 0..form.fields.len() {
        let len = whole_cell(form.order, form.fields[i], &bytes[used..])?;
        used += len;
    }
    Some(used)
}
