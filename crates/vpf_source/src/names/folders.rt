//! The folder of a file, and its name there.

ghost use Rattle.std.specs.Prelude.{◌≡◌, ◌++◌, IfOk, OnOk, map, option_map, string_bytes};
ghost use Rattle.std.specs.List.{flat_map};
ghost use Rattle.vpf_source.specs.Names.Folders.{IsSplit, folder_of, last_part, opened};

use crate::names::naming::pieces_of;
use std::alloc::{AllocError, Global};

/// The last of the pieces of a name with the folders before it, unless nothing stands behind the last slash.
fn split_last<'n, 'p>(pieces: &'p [&'n str]) -> Option<(&'n str, &'p [&'n str])>
    ensures { IsSplit (map (λ piece. piece.now) pieces.now) (option_map (λ split. (split.0.now, map (λ folder. folder.now) split.1.now)) result) }
{
    let (last, folders) = pieces.split_last()?;
    if last.is_empty() {
        return None;
    }
    Some((last, folders))
}

/// The name of a file in its folder: what stands behind its last slash. The root alone is a name like any other.
pub fn last_part(alloc: Global, name: &str) -> Result<&str, AllocError>
    ensures { IfOk result (λ part. part.now ≡ last_part name.now) }
{
    let pieces = pieces_of(alloc, name)?;
    match split_last(&pieces) {
        Some((last, _)) => Ok(last),
        None => Ok(name),
    }
}

fn put_folders(text: &mut String, folders: &[&str]) -> Result<(), AllocError>
    ensures { OnOk result (string_bytes text.new ≡ string_bytes text.old ++ flat_map opened (map (λ folder. folder.now) folders.now)) }
{
    for folder in folders {
        text.push_str(folder)?;
        text.push('/')?;
    }
    Ok(())
}

/// Puts what stands before a file's name in its folder, with the last slash.
pub fn put_folder(alloc: Global, text: &mut String, name: &str) -> Result<(), AllocError>
    ensures { OnOk result (string_bytes text.new ≡ string_bytes text.old ++ folder_of name.now) }
{
    let pieces = pieces_of(alloc, name)?;
    match split_last(&pieces) {
        Some((_, folders)) => put_folders(text, folders),
        None => Ok(()),
    }
}
