//! The features of a class that have a value.

ghost use Rattle.std.specs.Prelude.{◌≡◌, ◌<◌, ℕ, IfOk, List, Some, length, map, option_map, slice_get};
ghost use Rattle.vpf_base.specs.Results.{Meets};
ghost use Rattle.vpf_head.specs.Head.{Col, place_of};
ghost use Rattle.vpf_feature_files.specs.SchemaRows.Joins.{join_of};
ghost use Rattle.vpf_features.specs.Inner.Views.{table_seen};
ghost use Rattle.vpf_joins.specs.Features.{feature_seen};
ghost use Rattle.vpf_feature_commands.specs.Classes.Asking.{by_column, by_place, features_asked, joined_table};
ghost use Rattle.vpf_feature_commands.specs.Classes.Lacks.{lack_seen};

use crate::classes::errors::FeatureError;
use crate::classes::keys::first_absent;
use crate::classes::rows::class_joins;
use crate::classes::selecting::rows_asked;
use std::alloc::{AllocError, Global};
use vpf_coverage::Coverage;
use vpf_feature_files::schema_rows::SchemaRow;
use vpf_features::{FeatureView, Schema};
use vpf_joins::{Feature, features_of};

/// The feature table that some joins are of, where it is there.
fn joined_table<'s, 'a>(
    alloc: Global,
    schema: &'s Schema<'a>,
    joins: &[SchemaRow<'a>],
) -> Result<Option<&'s FeatureView<'a>>, AllocError>
    ensures { IfOk result (λ view. option_map (λ view. table_seen view.now) view ≡ joined_table schema.now (map join_of joins.now)) }
{
    match joins.first() {
        Some(first) => schema.table(alloc, &first.table1),
        None => Ok(None),
    }
}

/// The features that have the value of a word in the column at this position, from 0.
fn of_column<'a>(
    alloc: Global,
    coverage: &Coverage<'_>,
    joins: &[SchemaRow<'a>],
    view: &FeatureView<'a>,
    c: usize,
    word: &[u8],
) -> Result<Vec<Feature>, FeatureError<'a>>
    requires { c < length view.now.table.head.columns }
    ensures { (name : List ℕ) (column : Col) → slice_get view.now.table.head.columns c ≡ Some column
        → Meets (λ features. map feature_seen features.items) lack_seen result
        (by_column coverage.now (map join_of joins.now) (table_seen view.now) name word.now c (Some column)) }
{
    if let Some(key) = first_absent(coverage, view.table.header(), joins) {
        return Err(FeatureError::NoColumn(key.name(alloc)?));
    }
    let rows = rows_asked(alloc, view, c, word)?;
    Ok(features_of(alloc, coverage, joins, &view.table, &rows)?)
}

/// The features of a table that have the value of a word in the column of this name.
fn of_table<'a>(
    alloc: Global,
    coverage: &Coverage<'_>,
    joins: &[SchemaRow<'a>],
    view: &FeatureView<'a>,
    column: &[u8],
    word: &[u8],
) -> Result<Vec<Feature>, FeatureError<'a>>
    ensures { Meets (λ features. map feature_seen features.items) lack_seen result
        (by_place coverage.now (map join_of joins.now) (table_seen view.now) column.now word.now (place_of column.now view.now.table.head.columns)) }
{
    let header = view.table.header();
    // What is so of each header: its names have places below its length.
    let _columns = header.len();
    match header.column(column) {
        Some(c) => of_column(alloc, coverage, joins, view, c, word),
        None => Err(FeatureError::NoColumn(column.to_vec(alloc)?)),
    }
}

/// The features of a class that have a value in a column, with the primitives that the rows of the schema table join to each (MIL-STD-2407, 5.2.3, feature
/// classes), as `features_of` lists them.
///
/// A row of the schema table is of the class where its feature class is that word, without the spaces and zeros around it and in any case. Those rows
/// count whose first table is a feature table, and whose second is one of edges, faces, connected or entity nodes. The first of them tells the feature
/// table; those of another are passed over. The value is what the word says by the kind of the column, and it is looked up in the thematic index of the
/// column where there is one; each row that the index lists is looked at.
///
/// Fails where the first of these isn't there: a row of the class, a row that counts or the file of its feature table, the column, the key columns row by
/// row, that of the features first; where the column's index isn't one of it; where the word says no value; where the index lists a row of another value; or
/// for want of memory. Takes the time of `features_of` and of a search in the index, or of a look at every feature where there is none.
pub fn features<'a>(
    alloc: Global,
    coverage: &Coverage<'_>,
    schema: &Schema<'a>,
    class: &[u8],
    column: &[u8],
    word: &[u8],
) -> Result<Vec<Feature>, FeatureError<'a>>
    ensures { Meets (λ features. map feature_seen features.items) lack_seen result
        (features_asked coverage.now schema.now class.now column.now word.now) }
{
    let joins = class_joins(alloc, schema, class)?;
    match joined_table(alloc, schema, &joins)? {
        Some(view) => of_table(alloc, coverage, &joins, view, column, word),
        None => Err(FeatureError::NoTable),
    }
}
