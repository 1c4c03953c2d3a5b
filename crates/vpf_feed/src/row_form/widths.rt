//! Rows of one width.

ghost use Rattle.std.specs.Prelude.{◌≡◌, ◌<◌, ◌^◌, ℕ, IfSome, Some};
ghost use Rattle.vpf_feed.specs.Inner.RowForm.Widths.{told_row};

use crate::row_form::form::Field;
use crate::row_form::looking::told;
use vpf_triplet::Order;

/// How many bytes each row of these cells takes, where that is told and fits a number.
fn told_width(order: Order, fields: &[Field]) -> Option<u64>
    ensures told { IfSome result (λ width. told_row order fields.now ≡ Some width) }
    ensures known { (w : ℕ) → told_row order fields.now ≡ Some w → w < 2 ^ 64 → result ≡ Some w }
{
    let none: &[u8] = &[];
    let mut sum: u64 = 0;
    for i in 0..fields.len() {
        let width = told(order, fields[i], none)?;
        sum = sum.checked_add(width)?;
    }
    Some(sum)
}

/// How many bytes each row of these cells takes; 0 where that isn't told, or fits no number.
pub fn row_width(order: Order, fields: &[Field]) -> u64
    ensures told { 0 < result → told_row order fields.now ≡ Some result }
    ensures known { (w : ℕ) → told_row order fields.now ≡ Some w → w < 2 ^ 64 → result ≡ w }
{
    match told_width(order, fields) {
        Some(width) => width,
        None => 0,
    }
}
