//! What is asked for where a library is made of another.

ghost use Rattle.std.specs.Prelude.{◌≡◌, IfOk, map, string_bytes};
ghost use Rattle.vpf_source.specs.Names.Naming.{coverage_name, file_name};
ghost use Rattle.vpf_library_commands.specs.Make.{is_in_folder, make_request, make_request_of};

use std::alloc::{AllocError, Global};
use vpf_source::Name;
use vpf_source::names::{coverage_name, file_name};

/// A coverage of a library of which another library is made, by `tile` and by `glue`.
#[derive(Debug, Drop)]
pub struct MakeRequest {
    /// The folder of the library.
    pub lib: Name,
    /// The coverage in that folder.
    pub cov: Name,
    /// The folder of the library that is made.
    pub out: Name,
}

/// Whether the parts of the name of a folder are the first parts of this name.
fn is_inside(folder: &str, name: &str) -> bool
    ensures { result ≡ is_in_folder folder.now name.now }
{
    let (folder, name) = (folder.as_bytes(), name.as_bytes());
    name.starts_with(folder)
        && (name.len() <= folder.len() || folder.ends_with(b"/") || name[folder.len()] == b'/')
}

/// The request of three words.
fn read_words(
    alloc: Global,
    lib: &str,
    cov: &str,
    out: &str,
) -> Result<Option<MakeRequest>, AllocError>
    ensures { IfOk result (λ request. request ≡ make_request_of (file_name lib.now) (coverage_name cov.now) (file_name out.now)) }
{
    let Some(lib) = file_name(alloc, lib)? else {
        return Ok(None);
    };
    let Some(cov) = coverage_name(alloc, cov)? else {
        return Ok(None);
    };
    let Some(out) = file_name(alloc, out)? else {
        return Ok(None);
    };
    if is_inside(lib.as_str(), out.as_str()) {
        return Ok(None);
    }
    Ok(Some(MakeRequest { lib, cov, out }))
}

impl MakeRequest {
    /// The request that the words after the verb spell, or nothing where they spell none: where the folder that is made is that of the library, or
    /// within it.
    pub fn read(alloc: Global, words: &[String]) -> Result<Option<Self>, AllocError>
        ensures { IfOk result (λ request. request ≡ make_request (map string_bytes words.now)) }
    {
        match words {
            [lib, cov, out] => read_words(alloc, lib, cov, out),
            _ => Ok(None),
        }
    }
}
