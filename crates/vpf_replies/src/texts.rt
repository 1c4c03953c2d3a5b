//! The printed lines of limits and faults.

ghost use Rattle.std.specs.Prelude.{◌≡◌, IfOk};
ghost use Rattle.vpf_table.specs.Limits.{bound_text};
ghost use Rattle.vpf_replies.specs.Answer.{refused, limited};
ghost use Rattle.vpf_replies.specs.Texts.{refused_text, limit_text};
ghost use Rattle.vpf_replies.specs.Tables.{fault_answer};

use crate::reply::Reply;
use crate::verdict::Verdict;
use std::alloc::{AllocError, Global};
use vpf_findings::text::put_printed;
use vpf_table::Bound;
use vpf_triplet::{Code, Place};

/// The reply where a bound is passed.
pub fn limit(alloc: Global, bound: Bound, name: &str, found: u64) -> Result<Reply, AllocError>
    ensures { IfOk result (λ reply. reply ≡ limited (limit_text (bound_text bound) name.now found)) }
{
    let mut text = format!(in alloc; "limit {bound} ")?;
    put_printed(&mut text, name.as_bytes())?;
    write!(text, " {found}\n")?;
    Ok(Reply::new(alloc, Verdict::Limit, text))
}

fn fault_line(alloc: Global, name: &str, place: Place) -> Result<Reply, AllocError>
    ensures { IfOk result (λ reply. reply ≡ refused (refused_text name.now place)) }
{
    let Place { at, code, .. } = place;
    let mut text = format!(in alloc; "refused {code} ")?;
    put_printed(&mut text, name.as_bytes())?;
    write!(text, " at {at}\n")?;
    Ok(Reply::new(alloc, Verdict::Refused, text))
}

/// The reply to the first fault of a file.
pub fn fault(alloc: Global, name: &str, place: Place) -> Result<Reply, AllocError>
    ensures { IfOk result (λ reply. reply ≡ fault_answer name.now place) }
{
    match place.code {
        Code::LimitHeader(found) => limit(alloc, Bound::Header, name, found),
        Code::LimitColumns(found) => limit(alloc, Bound::Columns, name, found),
        Code::LimitName(found) => limit(alloc, Bound::Name, name, found),
        Code::LimitRows(found) => limit(alloc, Bound::Rows, name, found),
        _ => fault_line(alloc, name, place),
    }
}
