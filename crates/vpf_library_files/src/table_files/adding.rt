//! Tables that are written under their names, one behind another.

ghost use Rattle.std.specs.Prelude.{[], ◌∷◌};
ghost use Rattle.vpf_table.specs.Grid.{Grid};
ghost use Rattle.vpf_write.specs.Writing.{Writes};
ghost use Rattle.vpf_library_files.specs.TableFiles.Adding.{Adds, named_table, table_within};

use crate::loading::within;
use crate::table_files::errors::AddError;
use std::alloc::Global;
use vpf_source::File;
use vpf_write::made::{files_of, part_name};
use vpf_write::{WriteError, Written};

/// Adds the files of a table that is written under a name behind others.
fn add_named(
    alloc: Global,
    name: &str,
    written: Result<Written, WriteError>,
    files: &mut Vec<File>,
) -> Result<(), AddError>
    ensures { (grid : Grid) → Writes grid written → Adds (named_table name.now grid ∷ []) files.old.items files.new.items result }
{
    match written {
        Ok(written) => {
            let mut added = files_of(alloc, name, written)?;
            files.append(&mut added)?;
            Ok(())
        }
        Err(WriteError::Limit(part, limit)) => {
            Err(AddError::Limit(part_name(alloc, name, part)?, limit))
        }
        Err(WriteError::NoMemory) => Err(AddError::NoMemory),
    }
}

/// Adds the files of a table that is written under a name within a folder behind others: its own, and that of its index where its rows vary.
/// Where one of them would pass a bound, none is added, and it is the limit, under that file's name.
pub fn add_table(
    alloc: Global,
    folder: &str,
    name: &str,
    written: Result<Written, WriteError>,
    files: &mut Vec<File>,
) -> Result<(), AddError>
    ensures { (grid : Grid) → Writes grid written → Adds (table_within folder.now name.now grid ∷ []) files.old.items files.new.items result }
{
    let name = within(alloc, folder, name)?;
    add_named(alloc, name.as_str(), written, files)
}
