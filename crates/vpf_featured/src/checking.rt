//! What disagrees first in a coverage and its features, and the file that it is in.

ghost use Rattle.std.specs.Prelude.{◌≡◌, IfOk};
ghost use Rattle.vpf_findings.specs.Findings.{disagreement_of};
ghost use Rattle.vpf_prims.specs.Coverages.{CoverageTables};
ghost use Rattle.vpf_numbers.specs.TableLines.{coverage_numbers};
ghost use Rattle.vpf_library_files.specs.Loading.Holding.{AreCoverageFiles, AreOfCoverage};
ghost use Rattle.vpf_library_files.specs.Loading.Loading.{within};
ghost use Rattle.vpf_cross.specs.CrossFinding.{topology_finding};
ghost use Rattle.vpf_feature_files.specs.Inner.Held.{AreOfSchema, AreSchemaFiles};
ghost use Rattle.vpf_feature_files.specs.Schemas.{Schema as SchemaOf};
ghost use Rattle.vpf_features.specs.declared.faults.FeatureFault.TheVariants as faults;
ghost use Rattle.vpf_features.specs.Finding.{TellsNamed};
ghost use Rattle.vpf_features.specs.FeatureAgreement.Agreeing.{features_finding};
ghost use Rattle.vpf_featured.specs.LoadReplies.Places.{place_name};
ghost use Rattle.vpf_featured.specs.Finding.{featured_finding, placed_finding, tables_or_features_finding};
ghost use Rattle.vpf_featured.specs.Inner.Held.{AreFeaturedFiles, AreOfFeatured};
ghost use Rattle.vpf_featured.specs.Reading.{FeaturedCoverage};

use crate::load_replies::named;
use crate::loading::FeaturedFiles;
use std::alloc::{AllocError, Global};
use vpf_coverage::{Coverage, open_tables};
use vpf_cross::{Checked, check_coverage};
use vpf_feature_files::FeatureFiles;
use vpf_features::{FeatureFault, Schema, check_themes, open_features};
use vpf_findings::{FindError, Finding};
use vpf_library_files::loading::{LoadedTables, within};
use vpf_source::{File, Name};

/// A coverage and its features, opened, in whose tables and thematic indexes nothing disagrees. Of the topology that isn't known.
#[derive(Drop)]
pub struct Featured<'a> {
    /// The tables of primitives.
    pub coverage: Coverage<'a>,
    /// The feature tables, with their thematic indexes.
    pub schema: Schema<'a>,
}

/// A finding in its file among those of the coverage.
fn placed<'a>(
    alloc: Global,
    files: &[File],
    finding: Finding<'a>,
) -> Result<FeatureFault<'a>, AllocError>
    ensures { IfOk result (λ fault. fault ≡ faults.Finding (place_name files.now (disagreement_of finding.entry).file) finding.entry) }
{
    let name = String::from_str(alloc, named(files, finding.file))?;
    Ok(FeatureFault::Finding(Name::new(name), finding))
}

/// The tables of primitives, where nothing disagrees in them.
fn open_primitives<'a>(
    alloc: Global,
    files: &'a LoadedTables,
    lib: &str,
    cov: &str,
) -> Result<Coverage<'a>, FeatureFault<'a>>
    requires { AreOfCoverage lib.now cov.now files.now }
    ensures first { (c : CoverageTables) → AreCoverageFiles lib.now cov.now c files.now → TellsNamed result (placed_finding files.now (coverage_numbers c)) }
    ensures opened { (c : CoverageTables) → AreCoverageFiles lib.now cov.now c files.now → IfOk result (λ coverage. coverage ≡ c) }
{
    match open_tables(alloc, files, lib, cov) {
        Ok(coverage) => Ok(coverage),
        Err(FindError::Finding(finding)) => Err(placed(alloc, files.files(), finding)?),
        Err(FindError::NoMemory) => Err(FeatureFault::NoMemory),
    }
}

/// The feature tables and their thematic indexes, where nothing disagrees in them.
fn open_schema<'a>(
    alloc: Global,
    folder: &str,
    files: &'a FeatureFiles,
) -> Result<Schema<'a>, FeatureFault<'a>>
    requires { AreOfSchema folder.now files.now }
    ensures first { (S : SchemaOf) → AreSchemaFiles folder.now S files.now → TellsNamed result (features_finding folder.now S.tables) }
    ensures opened { (S : SchemaOf) → AreSchemaFiles folder.now S files.now → IfOk result (λ schema. schema ≡ S) }
{
    let schema = open_features(alloc, folder, files)?;
    check_themes(alloc, folder, &schema)?;
    Ok(schema)
}

/// The coverage with its features, where nothing disagrees in their tables and indexes.
fn with_features<'a>(
    alloc: Global,
    coverage: Coverage<'a>,
    lib: &str,
    cov: &str,
    files: &'a FeatureFiles,
) -> Result<Featured<'a>, FeatureFault<'a>>
    requires { AreOfSchema (within lib.now cov.now) files.now }
    ensures first { (S : SchemaOf) → AreSchemaFiles (within lib.now cov.now) S files.now
        → TellsNamed result (features_finding (within lib.now cov.now) S.tables) }
    ensures coverage { IfOk result (λ f. f.coverage ≡ coverage.entry) }
    ensures schema { (S : SchemaOf) → AreSchemaFiles (within lib.now cov.now) S files.now → IfOk result (λ f. f.schema ≡ S) }
{
    let folder = within(alloc, lib, cov)?;
    let schema = open_schema(alloc, folder.as_str(), files)?;
    Ok(Featured { coverage, schema })
}

/// Opens a coverage and its features from the files that were loaded of them, for the same two names.
///
/// The first place where a column, an id, a reference or a mark isn't right is the finding, with the name of its file: in the tables of primitives, as
/// `open_coverage` of vpf_coverage finds it, then in the feature tables, as `open_features` does, and then in their thematic indexes, as `check_themes`
/// (MIL-STD-2407, 5.2.2, primitives, and 5.2.3, feature classes). Each file is opened once.
pub fn open_featured<'a>(
    alloc: Global,
    files: &'a FeaturedFiles,
    lib: &str,
    cov: &str,
) -> Result<Featured<'a>, FeatureFault<'a>>
    requires { AreOfFeatured lib.now cov.now files.now }
    // The first finding, or none.
    ensures first { (read : FeaturedCoverage) → AreFeaturedFiles lib.now cov.now files.now read
        → TellsNamed result (tables_or_features_finding (within lib.now cov.now) read) }
    // The coverage that was read.
    ensures coverage { (read : FeaturedCoverage) → AreFeaturedFiles lib.now cov.now files.now read → IfOk result (λ f. f.coverage ≡ read.coverage.coverage) }
    // Its features.
    ensures schema { (read : FeaturedCoverage) → AreFeaturedFiles lib.now cov.now files.now read → IfOk result (λ f. f.schema ≡ read.schema) }
{
    match open_primitives(alloc, &files.coverage, lib, cov) {
        Ok(coverage) => with_features(alloc, coverage, lib, cov, &files.features),
        Err(fault) => Err(fault),
    }
}

/// The topology of a coverage holds, as `check_coverage` of vpf_cross finds it; or the first finding, with the name of its file, one of these, of which the
/// coverage was opened (MIL-STD-2407, 5.2.2, winged-edge topology, and 5.2.3, cross-tile topology).
pub fn check_topology<'c, 'a>(
    alloc: Global,
    files: &[File],
    coverage: &'c Coverage<'a>,
) -> Result<Checked<'c, 'a>, FeatureFault<'a>>
    ensures first { TellsNamed result (placed_finding files.now (topology_finding coverage.now)) }
    ensures checked { IfOk result (λ checked. checked ≡ coverage.now) }
{
    match check_coverage(alloc, coverage) {
        Ok(checked) => Ok(checked),
        Err(FindError::Finding(finding)) => Err(placed(alloc, files, finding)?),
        Err(FindError::NoMemory) => Err(FeatureFault::NoMemory),
    }
}

/// The same coverage and features, where nothing disagrees in the topology.
fn with_topology<'a>(
    alloc: Global,
    files: &[File],
    featured: Featured<'a>,
) -> Result<Featured<'a>, FeatureFault<'a>>
    ensures first { TellsNamed result (placed_finding files.now (topology_finding featured.entry.coverage)) }
    ensures same { IfOk result (λ f. f ≡ featured.entry) }
{
    check_topology(alloc, files, &featured.coverage)?;
    Ok(featured)
}

/// Opens a coverage and its features from the files that were loaded of them, where nothing disagrees in either: the first finding is that of
/// `open_featured`, or else that of `check_topology`.
pub fn open_agreeing<'a>(
    alloc: Global,
    files: &'a FeaturedFiles,
    lib: &str,
    cov: &str,
) -> Result<Featured<'a>, FeatureFault<'a>>
    requires { AreOfFeatured lib.now cov.now files.now }
    // The first finding, or none.
    ensures first { (read : FeaturedCoverage) → AreFeaturedFiles lib.now cov.now files.now read
        → TellsNamed result (featured_finding (within lib.now cov.now) read) }
    // The coverage that was read.
    ensures coverage { (read : FeaturedCoverage) → AreFeaturedFiles lib.now cov.now files.now read → IfOk result (λ f. f.coverage ≡ read.coverage.coverage) }
    // Its features.
    ensures schema { (read : FeaturedCoverage) → AreFeaturedFiles lib.now cov.now files.now read → IfOk result (λ f. f.schema ≡ read.schema) }
{
    match open_featured(alloc, files, lib, cov) {
        Ok(featured) => with_topology(alloc, files.coverage.files(), featured),
        Err(fault) => Err(fault),
    }
}
