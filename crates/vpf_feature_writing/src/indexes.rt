//! Thematic indexes that are built anew.

ghost use Rattle.std.specs.Prelude.{IfOk, List, Result, map, slice_get, ◌≡◌, ℕ};
ghost use Rattle.std.specs.Option.{option_map};
ghost use Rattle.vpf_library_files.specs.Loading.Loading.{within};
ghost use Rattle.vpf_theme_build.specs.Building.{Builds};
ghost use Rattle.vpf_theme_build.specs.declared.errors.BuildError.{BuildError};
ghost use Rattle.vpf_features.specs.Inner.Views.{index_seen, table_seen};
ghost use Rattle.vpf_feature_writing.specs.Inner.Adding.{AddsMade};
ghost use Rattle.vpf_feature_writing.specs.Making.{index_made, index_made_by, indexes_made};

use std::alloc::{AllocError, Global};
use vpf_features::{FeatureView, IndexView};
use vpf_library_files::loading::within;
use vpf_library_files::table_files::AddError;
use vpf_source::{Bytes, File, Name};
use vpf_table::{Bound, Limit};
use vpf_theme_build::{BuildError, build};

/// The name of a file in the folder.
fn name_in(alloc: Global, folder: &str, file: &Name) -> Result<Name, AllocError>
    ensures { IfOk result (λ name. name ≡ within folder.now file.now) }
{
    Ok(Name::new(within(alloc, folder, file.as_str())?))
}

/// Adds the file of an index that is built; of a column that can't be indexed there is none.
fn add_built(
    alloc: Global,
    folder: &str,
    file: &Name,
    built: Result<Vec<u8>, BuildError>,
    files: &mut Vec<File>,
) -> Result<(), AddError>
    ensures { (want : Result (List ℕ) BuildError) → Builds (λ v. v.items) built want
        → AddsMade (index_made_by (within folder.now file.now) want) files.old.items files.new.items result }
{
    match built {
        Ok(items) => {
            let name = name_in(alloc, folder, file)?;
            let bytes = Bytes::new(items);
            files.push(File { name, bytes })?;
            Ok(())
        }
        Err(BuildError::Kind) => Ok(()),
        Err(BuildError::Limit { size }) => {
            let name = name_in(alloc, folder, file)?;
            let limit = Limit {
                what: Bound::File,
                found: size,
            };
            Err(AddError::Limit(name, limit))
        }
        Err(BuildError::NoMemory) => Err(AddError::NoMemory),
    }
}

/// Adds the index of the column at this position, from 0, where there is one: built anew, in its form.
fn add_index(
    alloc: Global,
    folder: &str,
    view: &FeatureView<'_>,
    c: usize,
    index: &Option<IndexView<'_>>,
    files: &mut Vec<File>,
) -> Result<(), AddError>
    ensures { let table = table_seen view.now in
        AddsMade (index_made folder.now table c (slice_get table.grid.head.columns c)
        (option_map index_seen index.now)) files.old.items files.new.items result }
{
    let Some(index) = index else {
        return Ok(());
    };
    if c >= view.table.header().len() {
        return Ok(());
    }
    let name = view.name.as_str().as_bytes();
    let built = build(alloc, &view.table, name, c, index.theme.form());
    add_built(alloc, folder, index.file, built, files)
}

/// Adds the indexes of the columns of a table, in the order of the columns.
pub(crate) fn add_indexes(
    alloc: Global,
    folder: &str,
    view: &FeatureView<'_>,
    files: &mut Vec<File>,
) -> Result<(), AddError>
    ensures { AddsMade (indexes_made folder.now (table_seen view.now) 0 (table_seen view.now).indexes) files.old.items files.new.items result }
{
    for (c, index) in view.indexes.iter().enumerate() {
        add_index(alloc, folder, view, c, index, files)?;
    }
    Ok(())
}
