//! The path that the name of a tile says.

ghost use Rattle.std.specs.Prelude.{◌≡◌, ◌++◌, IfOk, OnOk, map, option_map, string_bytes, true};
ghost use Rattle.std.specs.Option.{option_map};
ghost use Rattle.std.specs.List.{list_all, slice_split};
ghost use Rattle.vpf_source.specs.Names.Items.{after_padding, before_padding, is_dots, is_letter, is_padding, is_plain_name, trimmed};
ghost use Rattle.vpf_library_files.specs.Tileref.Paths.{folders_in, is_path, is_slash, path_of, path_text, text_of_path};

use std::alloc::{AllocError, Global};

/// Whether a byte is one that may stand before and behind a name in its cell.
fn is_padding(b: u8) -> bool
    ensures { result ≡ is_padding b }
{
    b == b' ' || b == 0
}

/// The text from its first byte on that is no padding.
fn after_padding(mut text: &[u8]) -> &[u8]
    ensures { result.now ≡ after_padding text.entry.now }
{
    while let [first, others @ ..] = text
        && is_padding(*first)
    {
        text = others;
    }
    text
}

/// The text up to its last byte that is no padding.
fn before_padding(mut text: &[u8]) -> &[u8]
    ensures { result.now ≡ before_padding text.entry.now }
{
    while let [others @ .., last] = text
        && is_padding(*last)
    {
        text = others;
    }
    text
}

fn trimmed(text: &[u8]) -> &[u8]
    ensures { result.now ≡ trimmed text.now }
{
    before_padding(after_padding(text))
}

/// Whether a byte is a slash of either sort.
fn is_slash(b: u8) -> bool
    ensures { result ≡ is_slash b }
{
    b == b'/' || b == b'\\'
}

/// What stands between the slashes of a text.
fn pieces_of(alloc: Global, text: &[u8]) -> Result<Vec<&[u8]>, AllocError>
    ensures { IfOk result (λ pieces. map (λ piece. piece.now) pieces.items ≡ slice_split is_slash text.now) }
{
    text.split(|b| is_slash(*b)).collect(alloc)
}

/// The names between the slashes of a text, without those that are empty.
fn folders_in(alloc: Global, text: &[u8]) -> Result<Vec<&[u8]>, AllocError>
    ensures { IfOk result (λ folders. map (λ folder. folder.now) folders.items ≡ folders_in text.now) }
{
    let mut folders = pieces_of(alloc, text)?;
    folders.retain(|folder| !folder.is_empty());
    Ok(folders)
}

/// Whether a folder may have the byte in its name.
fn is_letter(b: u8) -> bool
    ensures { result ≡ is_letter b }
{
    (33..=126).contains(&b) && !is_slash(b)
}

fn is_dots(name: &[u8]) -> bool
    ensures { result ≡ is_dots name.now }
{
    matches!(name, b"." | b"..")
}

fn are_letters(name: &[u8]) -> bool
    ensures { result ≡ list_all is_letter name.now }
{
    name.iter().all(|b| is_letter(*b))
}

/// Whether a folder can have the name.
fn is_folder(name: &[u8]) -> bool
    ensures { result ≡ is_plain_name name.now }
{
    !name.is_empty() && !is_dots(name) && are_letters(name)
}

fn are_folders(names: &[&[u8]]) -> bool
    ensures { result ≡ list_all (λ name. is_plain_name name.now) names.now }
{
    names.iter().all(|name| is_folder(name))
}

/// Whether there is a folder, and each has a name that a folder can have.
fn is_path(folders: &[&[u8]]) -> bool
    ensures { result ≡ is_path (map (λ folder. folder.now) folders.now) }
{
    !folders.is_empty() && are_folders(folders)
}

/// Puts the name of a folder at the end of a text.
fn put_folder(text: &mut String, name: &[u8]) -> Result<(), AllocError>
    requires { is_plain_name name.now ≡ true }
    ensures { OnOk result (string_bytes text.new ≡ string_bytes text.old ++ name.now) }
{
    for b in name {
        text.push(char::from(*b))?;
    }
    Ok(())
}

/// Puts a path at the end of a text, with a slash between any two folders.
fn put_path(text: &mut String, folders: &[&[u8]]) -> Result<(), AllocError>
    requires { list_all is_plain_name (map (λ folder. folder.now) folders.now) ≡ true }
    ensures { OnOk result (string_bytes text.new ≡ string_bytes text.old ++ path_text (map (λ folder. folder.now) folders.now)) }
{
    let Some((first, others)) = folders.split_first() else {
        return Ok(());
    };
    put_folder(text, first)?;
    for folder in others {
        text.push('/')?;
        put_folder(text, folder)?;
    }
    Ok(())
}

/// The path that a text names, with a slash between any two folders: its letters are small, and what stands around it, spaces
/// and zeros, is dropped, as are folders without a name. Nothing where there is no folder, or one that is named `.` or `..` or
/// by a byte outside 33 to 126.
pub(crate) fn path_in(alloc: Global, text: &[u8]) -> Result<Option<String>, AllocError>
    ensures { IfOk result (λ path. option_map (λ text. string_bytes text) path ≡ text_of_path (path_of text.now)) }
{
    let name = trimmed(text).to_ascii_lowercase(alloc)?;
    let folders = folders_in(alloc, &name)?;
    if !is_path(&folders) {
        return Ok(None);
    }
    let mut path = String::new(alloc);
    put_path(&mut path, &folders)?;
    Ok(Some(path))
}
