//! What is refused, and how its line is printed.

ghost use Rattle.std.specs.Prelude.{◌≡◌, ◌++◌, IfOk, OnOk, string_bytes};
ghost use Rattle.vpf_replies.specs.Refusals.{reason_of, reason_text, refusal_answer, named_text};

use crate::reply::Reply;
use crate::verdict::Verdict;
use std::alloc::{AllocError, Global};
use vpf_findings::text::put_printed;

/// Why a file or a word isn't taken, with what its line names.
#[derive(Clone, Copy, Debug)]
pub enum Refusal<'a> {
    /// There is no file of this name.
    Missing(&'a str),
    /// The rows of the table in the file of this name aren't of one length.
    Variable(&'a str),
    /// The coverage isn't tiled: it has edges of its own, in the file of this name.
    Untiled(&'a str),
    /// No feature class has this name.
    NoClass(&'a [u8]),
    /// No feature table stands for the class of this name.
    NoTable(&'a [u8]),
    /// The table has no column of this name.
    NoColumn(&'a [u8]),
    /// No thematic index can be made of the column of this name.
    NoIndex(&'a [u8]),
    /// The word is no value of the column of this name.
    BadValue(&'a [u8]),
}

/// Puts a reason and the name that it is about.
fn put_word(text: &mut String, reason: &str, name: &[u8]) -> Result<(), AllocError>
    ensures { OnOk result (string_bytes text.new ≡ string_bytes text.old ++ named_text reason.now name.now) }
{
    text.push_str(reason)?;
    text.push_str(" ")?;
    put_printed(text, name)
}

/// Puts what stands behind `refused` in the line of a refusal.
fn put_reason(text: &mut String, refusal: Refusal<'_>) -> Result<(), AllocError>
    ensures { OnOk result (string_bytes text.new ≡ string_bytes text.old ++ reason_text (reason_of refusal.entry)) }
{
    match refusal {
        Refusal::Missing(name) => put_word(text, "missing", name.as_bytes()),
        Refusal::Variable(name) => put_word(text, "variable", name.as_bytes()),
        Refusal::Untiled(name) => put_word(text, "untiled", name.as_bytes()),
        Refusal::NoClass(name) => put_word(text, "no-class", name),
        Refusal::NoTable(name) => put_word(text, "no-table", name),
        Refusal::NoColumn(name) => put_word(text, "no-column", name),
        Refusal::NoIndex(name) => put_word(text, "no-index", name),
        Refusal::BadValue(name) => put_word(text, "bad-value", name),
    }
}

/// The reply where a file or a word isn't taken: `refused`, the reason, and what it is about, in one line.
pub fn refuse(alloc: Global, refusal: Refusal<'_>) -> Result<Reply, AllocError>
    ensures { IfOk result (λ reply. reply ≡ refusal_answer (reason_of refusal.entry)) }
{
    let mut text = String::from_str(alloc, "refused ")?;
    put_reason(&mut text, refusal)?;
    text.push_str("\n")?;
    Ok(Reply::new(alloc, Verdict::Refused, text))
}
