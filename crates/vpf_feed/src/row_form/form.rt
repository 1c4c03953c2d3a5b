//! The form of rows.

ghost use Rattle.std.specs.Prelude.{◌≡◌, ◌<◌, ◌^◌, ◌∷◌, ◌++◌, ℕ, List, IfOk, OnOk, Some};
ghost use Rattle.vpf_head.specs.Head.{Col};
ghost use Rattle.vpf_head.specs.Inner.Views.{col};
ghost use Rattle.vpf_feed.specs.Inner.RowForm.Form.{form_fields};
ghost use Rattle.vpf_feed.specs.Inner.RowForm.Rows.{IsForm};
ghost use Rattle.vpf_feed.specs.Inner.RowForm.Widths.{told_row};

use crate::row_form::widths::row_width;
use std::alloc::{AllocError, Global};
use vpf_head::{Column, Header};
use vpf_triplet::{Count, Kind, Order};

/// What the cells of a column hold.
#[derive(Clone, Copy)]
pub struct Field {
    pub kind: Kind,
    pub count: Count,
}

/// The order of a file's numbers, and the cells of each row that hold something, in their order.
#[derive(Drop)]
pub struct RowForm {
    pub order: Order,
    pub fields: Vec<Field>,
    /// How many bytes each row takes; 0 where rows vary.
    pub width: u64,
}

/// Appends the cells of a column, where they hold something.
fn push_field(fields: &mut Vec<Field>, column: &Column<'_>) -> Result<(), AllocError>
    ensures { OnOk result ((columns : List Col) → fields.new.items ++ form_fields columns ≡ fields.old.items ++ form_fields (col column.now ∷ columns)) }
{
    let Column { kind, count, .. } = *column;
    match kind {
        Kind::X => {}
        _ => fields.push(Field { kind, count })?,
    }
    Ok(())
}

fn fields_in(alloc: Global, header: &Header<'_>) -> Result<Vec<Field>, AllocError>
    ensures { IfOk result (λ fields. fields.items ≡ form_fields header.now.columns) }
{
    let mut fields = Vec::new(alloc);
    for i in 0..header.len() {
        push_field(&mut fields, header.at(i))?;
    }
    Ok(fields)
}

impl RowForm {
    /// The form of the rows of a header.
    pub fn of(alloc: Global, header: &Header<'_>) -> Result<RowForm, AllocError>
        ensures order { IfOk result (λ form. form.order ≡ header.now.order) }
        ensures fields { IfOk result (λ form. form.fields.items ≡ form_fields header.now.columns) }
        // Rows of one width are known to be.
        ensures width { IfOk result (λ form. (w : ℕ) → told_row header.now.order (form_fields header.now.columns) ≡ Some w → w < 2 ^ 64 → form.width ≡ w) }
        ensures sound { IfOk result IsForm }
    {
        let _columns = header.len();
        let order = header.order();
        let fields = fields_in(alloc, header)?;
        let width = row_width(order, &fields);
        Ok(RowForm {
            order,
            fields,
            width,
        })
    }
}
