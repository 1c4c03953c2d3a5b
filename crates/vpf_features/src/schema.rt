//! The schema of a coverage, opened.

ghost use Rattle.std.specs.Prelude.{◌≡◌, List, map, option_map};
ghost use Rattle.vpf_feature_files.specs.Schemas.{table_in_file};
ghost use Rattle.vpf_features.specs.Inner.Views.{table_seen};

use std::alloc::{AllocError, Global};
use std::marker::Model;
use vpf_feature_files::schema_rows::{ItemName, SchemaRow, schema_rows};
use vpf_source::Name;
use vpf_table::TableView;
use vpf_theme::ThemeView;

/// A thematic index of a feature table.
#[derive(Drop)]
pub struct IndexView<'a> {
    /// The name of its file in the folder of the coverage.
    pub file: &'a Name,
    /// The index.
    pub theme: ThemeView<'a>,
}

/// A feature table.
#[derive(Drop)]
pub struct FeatureView<'a> {
    /// The name of its file in the folder of the coverage.
    pub name: &'a Name,
    /// The table.
    pub table: TableView<'a>,
    /// For each column, in order, the thematic index that it names, where one is there.
    pub indexes: Vec<Option<IndexView<'a>>>,
}

/// The schema of a coverage: its schema table, where there is one, and the feature tables that it names, as far as they are there. Contracts see it as
/// what these say.
#[derive(Drop)]
pub struct Schema<'a> {
    fcs: Option<TableView<'a>>,
    tables: Vec<FeatureView<'a>>,
}

impl<'a> Model for Schema<'a> {
    ghost use Rattle.vpf_feature_files.specs.Schemas.{Schema};

    ghost Value = { Schema };

    ghost use Rattle.vpf_features.specs.Inner.Views.{schema_seen};

    ghost view = { λ s. schema_seen s.fcs s.tables.items };

    ghost use Rattle.vpf_features.specs.Inner.Views.{HasRightTable};

    ghost invariant = { HasRightTable };
}

/// The feature table in the file of this name.
fn in_file<'s, 'a>(tables: &'s [FeatureView<'a>], name: &Name) -> Option<&'s FeatureView<'a>>
    ensures { option_map (λ view. table_seen view.now) result ≡ table_in_file (map table_seen tables.now) name.now }
{
    for view in tables {
        if view.name.as_str() == name.as_str() {
            return Some(view);
        }
    }
    None
}

impl<'a> Schema<'a> {
    ghost use Rattle.std.specs.Prelude.{◌≡◌, ◌<◌, ◌^◌, IfOk, length, map, option_map};
    ghost use Rattle.vpf_feature_files.specs.SchemaRows.Joins.{join_of};
    ghost use Rattle.vpf_feature_files.specs.Schemas.{joins_of, table_called};
    ghost use Rattle.vpf_features.specs.Inner.Views.{IsRightSchemaTable, schema_seen, table_seen};

    /// The schema of a schema table and feature tables.
    pub(crate) fn new(fcs: Option<TableView<'a>>, tables: Vec<FeatureView<'a>>) -> Schema<'a>
        requires { IsRightSchemaTable fcs }
        ensures { result ≡ schema_seen fcs.entry tables.entry.items }
    {
        Schema { fcs, tables }
    }

    /// The schema table, or nothing where the coverage has none.
    pub fn fcs(&self) -> Option<&TableView<'a>>
        ensures { option_map (λ t. t.now) result ≡ self.now.fcs }
    {
        self.fcs.as_ref()
    }

    /// The feature tables that were read, in the order of reading.
    pub fn tables(&self) -> &[FeatureView<'a>]
        ensures { map table_seen result.now ≡ self.now.tables }
    {
        &self.tables
    }

    /// The rows of the schema table, in their order: none where there is no schema table. Takes memory for each, and fails only for want of it.
    pub fn rows(&self, alloc: Global) -> Result<Vec<SchemaRow<'a>>, AllocError>
        ensures said { IfOk result (λ rows. map join_of rows.items ≡ joins_of self.now.fcs) }
        ensures few { IfOk result (λ rows. length rows.items < 2 ^ 31) }
    {
        match &self.fcs {
            Some(table) => schema_rows(alloc, table),
            None => Ok(Vec::new(alloc)),
        }
    }

    /// The feature table that an item of the schema table names, where its file is there. Fails only for want of memory.
    pub fn table(
        &self,
        alloc: Global,
        item: &ItemName<'_>,
    ) -> Result<Option<&FeatureView<'a>>, AllocError>
        ensures { IfOk result (λ view. option_map (λ view. table_seen view.now) view ≡ table_called self.now item.now.text.now) }
    {
        match item.file(alloc)? {
            Some(name) => Ok(in_file(&self.tables, &name)),
            None => Ok(None),
        }
    }
}
