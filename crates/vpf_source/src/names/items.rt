//! The files that headers name.

ghost use Rattle.std.specs.Prelude.{◌≡◌, ◌++◌, IfOk, OnOk, string_bytes, true};
ghost use Rattle.std.specs.List.{list_all};
ghost use Rattle.vpf_source.specs.Names.Items.{after_padding, before_padding, file_beside, is_dots, is_letter, is_padding, is_plain_name, small, trimmed};

use crate::Name;
use crate::names::folders::put_folder;
use std::alloc::{AllocError, Global};

/// Whether a byte is one that may stand before and behind a name in its item.
fn is_padding(b: u8) -> bool
    ensures { result ≡ is_padding b }
{
    b == b' ' || b == 0
}

/// The item from its first byte on that is no padding.
fn after_padding(item: &[u8]) -> &[u8]
    ensures { result.now ≡ after_padding item.now }
{
    for (i, b) in item.iter().enumerate() {
        if !is_padding(*b) {
            return &item[i..];
        }
    }
    &[]
}

/// The item up to its last byte that is no padding.
fn before_padding(item: &[u8]) -> &[u8]
    ensures { result.now ≡ before_padding item.now }
{
    let mut end = 0;
    for (i, b) in item.iter().enumerate() {
        if !is_padding(*b) {
            end = i + 1;
        }
    }
    &item[..end]
}

/// An item of a header, or a cell, that names a file or a table, without the spaces and zeros around the name.
pub fn trimmed(item: &[u8]) -> &[u8]
    ensures { result.now ≡ trimmed item.now }
{
    before_padding(after_padding(item))
}

/// Whether a file of a folder may have the byte in its name.
fn is_letter(b: u8) -> bool
    ensures { result ≡ is_letter b }
{
    (33..=126).contains(&b) && b != b'/' && b != b'\\'
}

fn are_letters(name: &[u8]) -> bool
    ensures { result ≡ list_all is_letter name.now }
{
    name.iter().all(|b| is_letter(*b))
}

fn is_dots(name: &[u8]) -> bool
    ensures { result ≡ is_dots name.now }
{
    matches!(name, b"." | b"..")
}

/// Whether a file can lie under the name in a folder.
fn is_plain(name: &[u8]) -> bool
    ensures { result ≡ is_plain_name name.now }
{
    !name.is_empty() && !is_dots(name) && are_letters(name)
}

/// Puts a name with its ASCII letters made small.
fn put_small(text: &mut String, name: &[u8]) -> Result<(), AllocError>
    requires { list_all is_letter name.now ≡ true }
    ensures { OnOk result (string_bytes text.new ≡ string_bytes text.old ++ small name.now) }
{
    for b in name {
        text.push(char::from(b.to_ascii_lowercase()))?;
    }
    Ok(())
}

/// The file that an item of a header names, in the folder of the table's file: without the spaces and zeros around it, and
/// with ASCII letters made small. Nothing where no file of a folder can have that name: it is empty, `.` or `..`, or has a
/// slash, a backslash or a byte outside 33 to 126.
pub fn file_beside(alloc: Global, file: &str, item: &[u8]) -> Result<Option<Name>, AllocError>
    ensures { IfOk result (λ name. name ≡ file_beside file.now item.now) }
{
    let name = trimmed(item);
    if !is_plain(name) {
        return Ok(None);
    }
    let mut text = String::new(alloc);
    put_folder(alloc, &mut text, file)?;
    put_small(&mut text, name)?;
    Ok(Some(Name::new(text)))
}
