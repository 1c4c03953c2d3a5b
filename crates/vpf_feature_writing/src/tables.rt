//! Tables that are written as they are.

ghost use Rattle.vpf_feature_writing.specs.Inner.Adding.{AddsMade};
ghost use Rattle.vpf_feature_writing.specs.Making.{table_made};

use std::alloc::Global;
use vpf_library_files::table_files::{AddError, add_table};
use vpf_source::File;
use vpf_table::TableView;
use vpf_write::write_in;

/// Adds the files of a table under its name in the folder behind others, in its canonical spelling and its own byte order.
pub(crate) fn add_as_it_is(
    alloc: Global,
    folder: &str,
    name: &str,
    table: &TableView<'_>,
    files: &mut Vec<File>,
) -> Result<(), AddError>
    ensures { AddsMade (table_made folder.now name.now table.now) files.old.items files.new.items result }
{
    let written = write_in(alloc, table, table.header().order());
    add_table(alloc, folder, name, written, files)
}
