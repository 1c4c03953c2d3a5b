//! Features, with the primitives that are joined to them.

ghost use Rattle.std.specs.Prelude.{◌≡◌, ◌<◌, [], IfOk, length, map};
ghost use Rattle.std.specs.List.{All};
ghost use Rattle.vpf_prims.specs.Lists.{kth};
ghost use Rattle.vpf_prims.specs.Numbering.{IsRowOf};
ghost use Rattle.vpf_feature_files.specs.SchemaRows.Joins.{join_of};
ghost use Rattle.vpf_joins.specs.Features.{feature_seen, features_in};
ghost use Rattle.vpf_joins.specs.Inner.Prepared.{IsKeyWithin, answers_of};

use crate::joining::{Join, joined, prepare};
use crate::marking::once_rising;
use std::alloc::{AllocError, Global};
use std::marker::Brand;
use std::sync::ledger::{Blank, Ledger};
use vpf_coverage::Coverage;
use vpf_feature_files::schema_rows::SchemaRow;
use vpf_findings::TableName;
use vpf_source::Steps;
use vpf_table::{RowView, TableView};

/// A primitive: a row of a table of primitives.
#[derive(Clone, Copy, Debug, PartialEq, Eq)]
pub struct Primitive {
    /// The number of the tile that the table is in; 0 where the coverage isn't tiled.
    pub tile: u32,
    /// The table: edges, faces, or connected or entity nodes.
    pub table: TableName,
    /// The number of the row, from 1.
    pub row: u32,
}

/// A feature, and the primitives that are joined to it.
#[derive(Drop)]
pub struct Feature {
    /// The number of its row in the feature table, from 1.
    pub row: u32,
    /// The primitives: by the rows of the schema table, for each of these tile by tile, and in a tile by their numbers. One that two rows of the schema
    /// table join stands twice.
    pub primitives: Vec<Primitive>,
}

/// Row `k`, with a counter of its own for it.
fn row_counted<'t, 'a, L: Ledger>(blank: Blank, table: &'t TableView<'a>, k: u32) -> RowView<'t, 'a>
    requires name { blank.name ≡ L.name }
    requires parts { blank.parts ≡ L.parts }
    requires some { 0 < L.parts }
    requires row { IsRowOf (length table.now.rows) k }
    ensures row { result ≡ kth table.now.rows k [] }
    ensures width { length result ≡ length table.now.head.columns }
{
    let mut steps = Steps::<L>::new(blank);
    table.row(k, &mut steps)
}

/// Row `k`, counted from 1.
fn row_of<'t, 'a>(table: &'t TableView<'a>, k: u32) -> RowView<'t, 'a>
    requires { IsRowOf (length table.now.rows) k }
    ensures row { result ≡ kth table.now.rows k [] }
    ensures width { length result ≡ length table.now.head.columns }
{
    row_counted::<Brand>(Blank::new(1), table, k)
}

/// The feature in row `k` of a table.
fn feature_at(
    alloc: Global,
    joins: &[Join<'_>],
    table: &TableView<'_>,
    k: u32,
) -> Result<Feature, AllocError>
    requires row { IsRowOf (length table.now.rows) k }
    requires keys { All (IsKeyWithin (length table.now.head.columns)) joins.now }
    ensures { IfOk result (λ feature. feature_seen feature ≡ record { row = k; primitives = answers_of joins.now (kth table.now.rows k []) }) }
{
    let row = row_of(table, k);
    Ok(Feature {
        row: k,
        primitives: joined(alloc, joins, &row)?,
    })
}

/// The features in rows of a feature table, whose numbers count from 1, with the primitives that the rows of the schema table join to each: those of the
/// tables that they name, in all tiles, whose key cell equals the feature's (MIL-STD-2407, 5.2.3, feature classes). The features rise by their rows, each
/// once, however often `rows` lists it.
///
/// For each row of the schema table the rows of the primitive tables that it names are read once and sorted by their keys, and each feature is looked up among
/// them by binary search: a time of n log n for n primitives and features together, and memory for each, and a byte for each row of the feature table. Of
/// that table only the rows that are asked for are read, each as `TableView::row` finds it: directly, unless rows vary in length and the table was opened
/// without its index. Fails only for want of memory.
pub fn features_of(
    alloc: Global,
    coverage: &Coverage<'_>,
    joins: &[SchemaRow<'_>],
    table: &TableView<'_>,
    rows: &[u32],
) -> Result<Vec<Feature>, AllocError>
    requires { All (IsRowOf (length table.now.rows)) rows.now }
    ensures { IfOk result (λ features. map feature_seen features.items ≡ features_in coverage.now (map join_of joins.now) table.now rows.now) }
{
    let prepared = prepare(alloc, coverage, table.header(), joins)?;
    let numbers = once_rising(alloc, table.len(), rows)?;
    let mut features = Vec::with_capacity(alloc, numbers.len())?;
    for k in &numbers {
        features.push(feature_at(alloc, &prepared, table, *k)?)?;
    }
    Ok(features)
}
