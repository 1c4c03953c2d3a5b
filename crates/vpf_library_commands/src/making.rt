//! The files that a command makes in a folder, or the first that would pass a bound.

ghost use Rattle.std.specs.Prelude.{◌≡◌, IfOk, map};
ghost use Rattle.vpf_base.specs.Results.{Meets};
ghost use Rattle.vpf_library_files.specs.TableFiles.Adding.{error_seen};
ghost use Rattle.vpf_feature_writing.specs.Making.{Made};
ghost use Rattle.vpf_library_commands.specs.Made.{IsUnmadeAnswer, file_within, files_answer};

use std::alloc::{AllocError, Global};
use vpf_library_files::loading::within;
use vpf_library_files::table_files::AddError;
use vpf_replies::{Reply, limit, makes};
use vpf_source::{File, Name};

/// A file under its name in a folder.
fn moved(alloc: Global, folder: &str, file: File) -> Result<File, AllocError>
    ensures { IfOk result (λ moved. moved ≡ file_within folder.now file) }
{
    let name = Name::new(within(alloc, folder, file.name.as_str())?);
    Ok(File {
        name,
        bytes: file.bytes,
    })
}

/// The files under their names in a folder.
fn all_within(alloc: Global, folder: &str, files: Vec<File>) -> Result<Vec<File>, AllocError>
    ensures { IfOk result (λ all. all.items ≡ map (file_within folder.now) files.items) }
{
    let mut all = Vec::with_capacity(alloc, files.len())?;
    for file in files {
        all.push(moved(alloc, folder, file)?)?;
    }
    Ok(all)
}

/// The reply where a file would pass a bound.
fn unmade(alloc: Global, out: &str, error: AddError) -> Result<Reply, AllocError>
    ensures { IfOk result (IsUnmadeAnswer out.now error) }
{
    match error {
        AddError::Limit(name, passed) => {
            let name = within(alloc, out, name.as_str())?;
            limit(alloc, passed.what, name.as_str(), passed.found)
        }
        AddError::NoMemory => Err(AllocError),
    }
}

/// The reply that makes these files in a folder, or that tells the first that would pass a bound.
pub(crate) fn made_in(
    alloc: Global,
    out: &str,
    made: Result<Vec<File>, AddError>,
) -> Result<Reply, AllocError>
    ensures { (files : Made) → Meets (λ v. v.items) error_seen made files → IfOk result (λ reply. reply ≡ files_answer out.now files) }
{
    match made {
        Ok(files) => makes(alloc, all_within(alloc, out, files)?),
        Err(error) => unmade(alloc, out, error),
    }
}
