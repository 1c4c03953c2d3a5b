//! The files of features.

ghost use Rattle.std.specs.Prelude.{map};
ghost use Rattle.vpf_base.specs.Results.{Meets};
ghost use Rattle.vpf_library_files.specs.TableFiles.Adding.{error_seen};
ghost use Rattle.vpf_features.specs.Inner.Views.{table_seen};
ghost use Rattle.vpf_feature_writing.specs.Inner.Adding.{AddsMade};
ghost use Rattle.vpf_feature_writing.specs.Making.{Made, feature_table_made, feature_tables_made, features_made, made_then, then_files};

use crate::indexes::add_indexes;
use crate::tables::add_as_it_is;
use std::alloc::Global;
use vpf_features::{FeatureView, Schema};
use vpf_library_files::table_files::AddError;
use vpf_source::File;

/// Adds the files of a feature table behind others: its own, and then those of its indexes.
fn add_feature_table(
    alloc: Global,
    folder: &str,
    view: &FeatureView<'_>,
    files: &mut Vec<File>,
) -> Result<(), AddError>
    ensures { AddsMade (feature_table_made folder.now (table_seen view.now)) files.old.items files.new.items result }
{
    add_as_it_is(alloc, folder, view.name.as_str(), &view.table, files)?;
    add_indexes(alloc, folder, view, files)
}

/// Adds the files of feature tables, one after another.
fn add_feature_tables(
    alloc: Global,
    folder: &str,
    views: &[FeatureView<'_>],
    files: &mut Vec<File>,
) -> Result<(), AddError>
    ensures { AddsMade (feature_tables_made folder.now (map table_seen views.now)) files.old.items files.new.items result }
{
    for view in views {
        add_feature_table(alloc, folder, view, files)?;
    }
    Ok(())
}

/// The files of the features of a schema that are written into a folder, each under its name in it (MIL-STD-2407, 5.2.3, feature classes).
///
/// They are, in this order: the schema table, `fcs`; then each feature table, in the order of the schema, with its index behind it where its rows
/// vary, and behind these the thematic indexes of its columns that are there, in the order of the columns. Where there is no schema table, no files
/// are made. Tables keep their header, rows and byte order, in their canonical spelling. Thematic indexes are built anew of the cells of their columns,
/// whatever they said: each keeps only its name and its form, lists or bitmaps. Of a column that can't be indexed there is none.
///
/// Where a file would pass a bound, the answer is the limit of the first that would, under its name, and no files are given. Also where there is
/// too little memory: the files are held until all are made.
pub fn feature_files(
    alloc: Global,
    folder: &str,
    schema: &Schema<'_>,
) -> Result<Vec<File>, AddError>
    ensures { Meets (λ files. files.items) error_seen result (features_made folder.now schema.now) }
{
    let mut files = Vec::new(alloc);
    let Some(fcs) = schema.fcs() else {
        return Ok(files);
    };
    add_as_it_is(alloc, folder, "fcs", fcs, &mut files)?;
    add_feature_tables(alloc, folder, schema.tables(), &mut files)?;
    Ok(files)
}

/// These files of tables, and behind them those of the features, in the folder of the coverage; or the first that would pass a bound.
fn behind(
    alloc: Global,
    cov: &str,
    schema: &Schema<'_>,
    mut files: Vec<File>,
) -> Result<Vec<File>, AddError>
    ensures { Meets (λ v. v.items) error_seen result (then_files files.items (features_made cov.now schema.now)) }
{
    let mut features = feature_files(alloc, cov, schema)?;
    files.append(&mut features)?;
    Ok(files)
}

/// The files of tables that were made, and behind them those of the features of a schema, each under its name in the folder of the coverage: what
/// `feature_files` gives. Where a file would pass a bound, the answer is the limit of the first that would, in this order, and no files are given; also
/// where there is too little memory.
pub fn with_features(
    alloc: Global,
    cov: &str,
    schema: &Schema<'_>,
    made: Result<Vec<File>, AddError>,
) -> Result<Vec<File>, AddError>
    ensures { (tables : Made) → Meets (λ v. v.items) error_seen made tables
        → Meets (λ v. v.items) error_seen result (made_then tables (features_made cov.now schema.now)) }
{
    match made {
        Ok(files) => behind(alloc, cov, schema, files),
        Err(error) => Err(error),
    }
}
