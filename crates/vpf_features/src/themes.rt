//! The thematic indexes of feature tables.

ghost use Rattle.std.specs.Prelude.{◌≡◌, IfOk, map};
ghost use Rattle.std.specs.Option.{option_map};
ghost use Rattle.vpf_library_files.specs.Loading.Loading.{within};
ghost use Rattle.vpf_features.specs.declared.faults.FeatureFault.TheVariants as faults;
ghost use Rattle.vpf_features.specs.Finding.{TellsNamed, index_finding, indexes_finding, themes_finding};
ghost use Rattle.vpf_features.specs.Inner.Views.{index_seen, table_seen};

use crate::faults::FeatureFault;
use crate::schema::{FeatureView, IndexView, Schema};
use std::alloc::{AllocError, Global};
use vpf_findings::{FindError, Finding};
use vpf_library_files::loading::within;
use vpf_source::Name;
use vpf_table::TableView;
use vpf_theme::agrees;

/// A finding in a file of the folder.
pub(crate) fn named<'a>(
    alloc: Global,
    folder: &str,
    file: &Name,
    finding: Finding<'a>,
) -> Result<FeatureFault<'a>, AllocError>
    ensures { IfOk result (λ fault. fault ≡ faults.Finding (within folder.now file.now) finding.entry) }
{
    let name = Name::new(within(alloc, folder, file.as_str())?);
    Ok(FeatureFault::Finding(name, finding))
}

/// The thematic index of the column at this position, from 0, agrees with it, where there is one.
fn check_index<'a>(
    alloc: Global,
    folder: &str,
    table: &TableView<'a>,
    c: usize,
    index: &Option<IndexView<'a>>,
) -> Result<(), FeatureFault<'a>>
    ensures { TellsNamed result (index_finding folder.now table.now c (option_map index_seen index.now)) }
{
    let Some(index) = index else {
        return Ok(());
    };
    if c >= table.header().len() {
        return Ok(());
    }
    match agrees(alloc, &index.theme, table, c) {
        Ok(()) => Ok(()),
        Err(FindError::Finding(finding)) => Err(named(alloc, folder, index.file, finding)?),
        Err(FindError::NoMemory) => Err(FeatureFault::NoMemory),
    }
}

/// The thematic indexes of a table agree with their columns.
fn check_indexes<'a>(
    alloc: Global,
    folder: &str,
    view: &FeatureView<'a>,
) -> Result<(), FeatureFault<'a>>
    ensures { TellsNamed result (indexes_finding folder.now view.now.table 0 (map (option_map index_seen) view.now.indexes.items)) }
{
    for (c, index) in view.indexes.iter().enumerate() {
        check_index(alloc, folder, &view.table, c, index)?;
    }
    Ok(())
}

/// The thematic indexes of the feature tables agree with their columns: table by table and column by column, or the first finding, with the name of the
/// index's file. `folder` is that of the coverage. Each table is passed once for each of its indexes.
pub fn check_themes<'a>(
    alloc: Global,
    folder: &str,
    schema: &Schema<'a>,
) -> Result<(), FeatureFault<'a>>
    ensures { TellsNamed result (themes_finding folder.now schema.now.tables) }
{
    for view in schema.tables() {
        check_indexes(alloc, folder, view)?;
    }
    Ok(())
}
