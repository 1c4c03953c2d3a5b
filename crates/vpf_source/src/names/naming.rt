//! The files that words name.

ghost use Rattle.std.specs.Prelude.{◌≡◌, ◌++◌, IfOk, OnOk, map, string_bytes};
ghost use Rattle.vpf_source.specs.Names.Naming.{is_part, joined_parts, pieces_of, parts_of, file_name, coverage_name};

use crate::Name;
use std::alloc::{AllocError, Global};

/// Whether a piece between slashes is a part of a name: every piece but an empty one and `.`.
fn is_part(piece: &str) -> bool
    ensures { result ≡ is_part piece.now }
{
    !piece.is_empty() && piece != "."
}

/// The pieces between the slashes of a text.
pub fn pieces_of(alloc: Global, text: &str) -> Result<Vec<&str>, AllocError>
    ensures { IfOk result (λ pieces. map (λ piece. piece.now) pieces.items ≡ pieces_of text.now) }
{
    text.split('/').collect(alloc)
}

/// The parts of a word.
fn parts_of(alloc: Global, word: &str) -> Result<Vec<&str>, AllocError>
    ensures { IfOk result (λ parts. map (λ part. part.now) parts.items ≡ parts_of word.now) }
{
    let mut parts = pieces_of(alloc, word)?;
    parts.retain(|piece| is_part(piece));
    Ok(parts)
}

/// Puts parts at the end of a text, with a slash between any two.
fn put_joined(text: &mut String, parts: &[&str]) -> Result<(), AllocError>
    ensures { OnOk result (string_bytes text.new ≡ string_bytes text.old ++ joined_parts (map (λ part. part.now) parts.now)) }
{
    let Some((first, others)) = parts.split_first() else {
        return Ok(());
    };
    text.push_str(first)?;
    for part in others {
        text.push('/')?;
        text.push_str(part)?;
    }
    Ok(())
}

/// The name of the file that a word names: its parts with a slash between any two, and one before them where the word
/// begins at the root. Parts are cut at slashes, and empty ones and `.` are dropped. Nothing where the word has no parts.
pub fn file_name(alloc: Global, word: &str) -> Result<Option<Name>, AllocError>
    ensures { IfOk result (λ name. name ≡ file_name word.now) }
{
    let parts = parts_of(alloc, word)?;
    let mut text = String::new(alloc);
    if word.starts_with('/') {
        text.push('/')?;
    }
    put_joined(&mut text, &parts)?;
    if text.is_empty() {
        return Ok(None);
    }
    Ok(Some(Name::new(text)))
}

/// The name of the coverage that a word names, in the folder of its library: its parts with a slash between any two. A slash before them is
/// dropped. Nothing where the word has no parts.
pub fn coverage_name(alloc: Global, word: &str) -> Result<Option<Name>, AllocError>
    ensures { IfOk result (λ name. name ≡ coverage_name word.now) }
{
    let parts = parts_of(alloc, word)?;
    let mut name = String::new(alloc);
    put_joined(&mut name, &parts)?;
    if name.is_empty() {
        return Ok(None);
    }
    Ok(Some(Name::new(name)))
}
