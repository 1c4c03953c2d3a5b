//! The names of the files of a coverage.

ghost use Rattle.std.specs.Prelude.{◌≡◌, IfOk, string_bytes};
ghost use Rattle.vpf_library_files.specs.Loading.Loading.{within};

use std::alloc::{AllocError, Global};

/// A name in a folder, with a slash between the two, unless the folder ends in one.
pub fn within(alloc: Global, folder: &str, name: &str) -> Result<String, AllocError>
    ensures { IfOk result (λ text. string_bytes text ≡ within folder.now name.now) }
{
    let mut text = String::from_str(alloc, folder)?;
    if !folder.ends_with('/') {
        text.push('/')?;
    }
    text.push_str(name)?;
    Ok(text)
}
