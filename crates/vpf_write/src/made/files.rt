//! The files of a table that is written.

ghost use Rattle.std.specs.Prelude.{◌≡◌, ◌∷◌, IfOk};
ghost use Rattle.vpf_write.specs.Made.Files.{index_files, part_name};

use crate::Written;
use std::alloc::{AllocError, Global};
use vpf_source::names::index_name;
use vpf_source::{File, Name};
use vpf_triplet::Part;

/// A name that is owned.
fn owned(alloc: Global, name: &str) -> Result<Name, AllocError>
    ensures { IfOk result (λ own. own ≡ name.now) }
{
    Ok(Name::new(String::from_str(alloc, name)?))
}

/// The files of a table that is written under a name: its own, and behind it that of its index, where it has one, whose name is the table's
/// with `x` for the last character (MIL-STD-2407, 5.2.1, variable-length indexes).
pub fn files_of(alloc: Global, name: &str, written: Written) -> Result<Vec<File>, AllocError>
    ensures { IfOk result (λ files. files.items ≡ record { name = name.now; bytes = written.table } ∷ index_files name.now written.index) }
{
    let mut files = Vec::new(alloc);
    files.push(File {
        name: owned(alloc, name)?,
        bytes: written.table,
    })?;
    if let Some(bytes) = written.index {
        let name = index_name(alloc, name)?;
        files.push(File { name, bytes })?;
    }
    Ok(files)
}

/// The name of the file that a limit of writing a table names: that of the table, or that of its index.
pub fn part_name(alloc: Global, name: &str, part: Part) -> Result<Name, AllocError>
    ensures { IfOk result (λ file. file ≡ part_name name.now part) }
{
    match part {
        Part::Index => index_name(alloc, name),
        Part::Table | Part::Theme => owned(alloc, name),
    }
}
