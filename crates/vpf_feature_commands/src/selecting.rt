//! `select`: the features of a class that have a value in a column.

ghost use Rattle.std.specs.Prelude.{◌≡◌, IfOk, Some};
ghost use Rattle.vpf_source.specs.Files.{Files};
ghost use Rattle.vpf_numbers.specs.TableLines.{coverage_numbers};
ghost use Rattle.vpf_library_files.specs.Loading.Loading.{within};
ghost use Rattle.vpf_feature_files.specs.Inner.Held.{AreOfSchema, AreSchemaFiles};
ghost use Rattle.vpf_feature_files.specs.Schemas.{Schema as SchemaOf};
ghost use Rattle.vpf_features.specs.Finding.{tables_finding};
ghost use Rattle.vpf_replies.specs.Halting.{ComesTo, TellsFault};
ghost use Rattle.vpf_featured.specs.Inner.Held.{AreFeaturedFiles, AreOfFeatured};
ghost use Rattle.vpf_featured.specs.Reading.{FeaturedCoverage};
ghost use Rattle.vpf_feature_commands.specs.Select.{class_answer, coverage_answer, schema_answer, select_answer};

use crate::classes::features;
use crate::lacks::lacking;
use crate::printing::listed;
use crate::requesting::SelectRequest;
use std::alloc::{AllocError, Global};
use vpf_coverage::{Coverage, open_tables};
use vpf_feature_files::FeatureFiles;
use vpf_featured::load_replies::{named, stopped};
use vpf_featured::{FeaturedFiles, load_featured};
use vpf_features::{FeatureFault, Schema, open_features};
use vpf_findings::FindError;
use vpf_library_files::loading::within;
use vpf_replies::{Halt, Reply, Stop, disagreement};
use vpf_source::Tree;

/// The reply over a coverage and its features, in which nothing disagrees. The folder is that of the coverage.
fn selected(
    alloc: Global,
    folder: &str,
    request: &SelectRequest,
    coverage: &Coverage<'_>,
    schema: &Schema<'_>,
) -> Result<Reply, AllocError>
    ensures { IfOk result (λ reply. reply ≡ class_answer folder.now request.now coverage.now schema.now) }
{
    let (class, column) = (request.class.as_slice(), request.column.as_slice());
    let value = request.value.as_slice();
    match features(alloc, coverage, schema, class, column, value) {
        Ok(features) => listed(alloc, coverage.is_tiled(), &features),
        Err(error) => lacking(alloc, folder, request, error),
    }
}

/// The reply over a coverage whose columns and numbers are right, and the files of its features. The folder is that of the coverage.
fn featured(
    alloc: Global,
    folder: &str,
    files: &FeatureFiles,
    request: &SelectRequest,
    coverage: &Coverage<'_>,
) -> Result<Reply, AllocError>
    requires { AreOfSchema folder.now files.now }
    ensures { (S : SchemaOf) → AreSchemaFiles folder.now S files.now
        → IfOk result (λ reply. reply ≡ schema_answer folder.now request.now coverage.now S (tables_finding folder.now S.tables)) }
{
    match open_features(alloc, folder, files) {
        Ok(schema) => selected(alloc, folder, request, coverage, &schema),
        Err(FeatureFault::Finding(name, finding)) => {
            disagreement(alloc, name.as_str(), &finding)
        }
        Err(FeatureFault::NoMemory) => Err(AllocError),
    }
}

/// The same, in the folder that the request names.
fn opened(
    alloc: Global,
    files: &FeatureFiles,
    request: &SelectRequest,
    coverage: &Coverage<'_>,
) -> Result<Reply, AllocError>
    requires { AreOfSchema (within request.now.lib request.now.cov) files.now }
    ensures { (S : SchemaOf) → AreSchemaFiles (within request.now.lib request.now.cov) S files.now
        → IfOk result (λ reply. reply ≡ schema_answer (within request.now.lib request.now.cov) request.now coverage.now S
        (tables_finding (within request.now.lib request.now.cov) S.tables)) }
{
    let folder = within(alloc, request.lib.as_str(), request.cov.as_str())?;
    featured(alloc, folder.as_str(), files, request, coverage)
}

/// The reply over files that were loaded.
fn read(alloc: Global, files: &FeaturedFiles, request: &SelectRequest) -> Result<Reply, AllocError>
    requires { AreOfFeatured request.now.lib request.now.cov files.now }
    ensures { (read : FeaturedCoverage) → AreFeaturedFiles request.now.lib request.now.cov files.now read
        → IfOk result (λ reply. reply ≡ coverage_answer request.now read (coverage_numbers read.coverage.coverage)) }
{
    match open_tables(
        alloc,
        &files.coverage,
        request.lib.as_str(),
        request.cov.as_str(),
    ) {
        Ok(coverage) => opened(alloc, &files.features, request, &coverage),
        Err(FindError::Finding(finding)) => {
            disagreement(alloc, named(files.coverage.files(), finding.file), &finding)
        }
        Err(FindError::NoMemory) => Err(AllocError),
    }
}

/// Does `select`: lists the features of a class that have a value in a column, each with the primitives that the schema table joins to it
/// (MIL-STD-2407, 5.2.3, feature classes), or tells why there are none to be listed.
///
/// The files of the coverage are read as `check` reads them, and behind them those of its features, each once. Then the columns and numbers of the tables
/// are looked at, those of the coverage before those of the features. No rule on topology is, and no thematic index but that of the column. Features rise
/// by their rows; a line has the row, and then each primitive as `features` of `vpf_classes` lists it: the tile in a coverage in tiles, the table and the
/// row. The last line counts the features.
///
/// Fails where a call on the tree fails, or for want of memory.
pub fn select<T: Tree>(alloc: Global, request: &SelectRequest, tree: &mut T) -> Result<Reply, Halt>
    ensures told { (files : Files) → T.files tree.old ≡ Some files → ComesTo (λ answer. answer ≡ select_answer files request.now) result }
    ensures fault { TellsFault result (Halt.Stop Stop.TreeFault) (T.faults tree.old) (T.faults tree.new) }
    ensures files { T.files tree.new ≡ T.files tree.old }
{
    let mut loaded = 0;
    let (lib, cov) = (request.lib.as_str(), request.cov.as_str());
    match load_featured(alloc, tree, lib, cov, &mut loaded) {
        Ok(files) => Ok(read(alloc, &files, request)?),
        Err(stop) => stopped(alloc, stop),
    }
}
