//! The replies to findings.

ghost use Rattle.std.specs.Prelude.{◌≡◌, IfOk};
ghost use Rattle.vpf_findings.specs.Findings.{disagreement_of};
ghost use Rattle.vpf_findings.specs.Printing.{disagree_text, own_text};
ghost use Rattle.vpf_replies.specs.Answer.{refused};

use crate::reply::Reply;
use crate::verdict::Verdict;
use std::alloc::{AllocError, Global};
use vpf_findings::{Finding, OwnFinding, put_line};

/// The reply to a finding in the file of this name.
pub fn disagreement(alloc: Global, name: &str, finding: &Finding<'_>) -> Result<Reply, AllocError>
    ensures { IfOk result (λ reply. reply ≡ refused (disagree_text name.now (disagreement_of finding.now))) }
{
    let mut text = String::new(alloc);
    put_line(&mut text, name, finding)?;
    Ok(Reply::new(alloc, Verdict::Refused, text))
}

/// The reply to a finding that was kept, in the file of this name.
pub fn kept_disagreement(
    alloc: Global,
    name: &str,
    finding: &OwnFinding,
) -> Result<Reply, AllocError>
    ensures { IfOk result (λ reply. reply ≡ refused (own_text name.now finding.now)) }
{
    let line = finding.line(alloc, name)?;
    Ok(Reply::of_bytes(alloc, Verdict::Refused, line))
}
