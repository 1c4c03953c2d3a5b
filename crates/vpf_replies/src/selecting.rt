//! The reply where a thematic index lists a row that hasn't the value.

ghost use Rattle.std.specs.Prelude.{◌≡◌, ◌++◌, IfOk, OnOk, string_bytes};
ghost use Rattle.vpf_value.specs.Values.{view};
ghost use Rattle.vpf_replies.specs.Answer.{refused};
ghost use Rattle.vpf_replies.specs.Selecting.{both_text, wrong_place_text, wrong_row_text};

use crate::reply::Reply;
use crate::verdict::Verdict;
use std::alloc::{AllocError, Global};
use vpf_findings::text::{put_cell, put_printed};
use vpf_triplet::Kind;
use vpf_value::Cell;

fn put_wrong_place(text: &mut String, name: &str, row: u32) -> Result<(), AllocError>
    ensures { OnOk result (string_bytes text.new ≡ string_bytes text.old ++ wrong_place_text name.now row) }
{
    text.push_str("refused index-disagrees ")?;
    put_printed(text, name.as_bytes())?;
    write!(text, " row {row}")
}

/// Puts the two cells of a column, which differ.
fn put_both(
    text: &mut String,
    kind: Kind,
    cell: &Cell<'_>,
    value: &Cell<'_>,
) -> Result<(), AllocError>
    ensures { OnOk result (string_bytes text.new ≡ string_bytes text.old ++ both_text kind (view cell.now) (view value.now)) }
{
    put_cell(text, kind, cell)?;
    text.push_str(", ")?;
    put_cell(text, kind, value)
}

/// The reply where the index in the file of this name lists a row, counted from 1, whose cell isn't the value. Both are of
/// a column of this kind.
pub fn wrong_row(
    alloc: Global,
    name: &str,
    kind: Kind,
    row: u32,
    cell: &Cell<'_>,
    value: &Cell<'_>,
) -> Result<Reply, AllocError>
    ensures { IfOk result (λ reply. reply ≡ refused (wrong_row_text name.now kind row (view cell.now) (view value.now))) }
{
    let mut text = String::new(alloc);
    put_wrong_place(&mut text, name, row)?;
    text.push_str(": ")?;
    put_both(&mut text, kind, cell, value)?;
    text.push_str("\n")?;
    Ok(Reply::new(alloc, Verdict::Refused, text))
}
