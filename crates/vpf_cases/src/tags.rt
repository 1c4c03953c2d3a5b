//! What the cases are there for.

use crate::shelf::{Book, Shelf};
use crate::telling::Count;
use std::io;
use vpf_notation::Case;

/// Whether a list has this text.
fn has(texts: &[String], text: &str) -> bool {
    texts.iter().any(|it| it.as_str() == text)
}

/// Whether one of the cases has this tag.
fn is_tag_of(cases: &[Case], tag: &str) -> bool {
    cases.iter().any(|case| has(&case.tags, tag))
}

/// Whether a case that need not differ has this tag.
fn is_tag_in(books: &[Book], tag: &str) -> bool {
    books
        .iter()
        .any(|book| !book.must_differ && is_tag_of(&book.cases, tag))
}

/// Tells the tags of a case that are not listed.
fn tell_unlisted(
    rt: &HostRuntime,
    tags: &[String],
    case: &Case,
    count: &mut Count,
) -> io::Result<()> {
    let title = case.title.as_str();
    for tag in &case.tags {
        if !has(tags, tag.as_str()) {
            let line = format!(in rt.alloc(); "tag {tag}, of {title}: not listed")?;
            count.differs(rt, line.as_str())?;
        }
    }
    Ok(())
}

/// Tells the tags without a case.
fn tell_unused(rt: &HostRuntime, shelf: &Shelf, count: &mut Count) -> io::Result<()> {
    for tag in &shelf.tags {
        if !is_tag_in(&shelf.books, tag.as_str()) {
            let line = format!(in rt.alloc(); "tag {tag}: no case")?;
            count.differs(rt, line.as_str())?;
        }
    }
    Ok(())
}

/// Tells each tag without a case, and each that is not listed.
pub fn tell_tags(rt: &HostRuntime, shelf: &Shelf, count: &mut Count) -> io::Result<()> {
    tell_unused(rt, shelf, count)?;
    for book in &shelf.books {
        for case in &book.cases {
            tell_unlisted(rt, &shelf.tags, case, count)?;
        }
    }
    Ok(())
}
