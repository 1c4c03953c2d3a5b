//! The files of a coverage and of its features.

ghost use Rattle.std.specs.Prelude.{◌≡◌, ◌≤◌, IfOk, IsErrOf, Some};
ghost use Rattle.vpf_source.specs.Causes.{Rose, Stood};
ghost use Rattle.vpf_source.specs.Files.{Files};
ghost use Rattle.vpf_library_files.specs.Loading.Loading.{most_loaded};
ghost use Rattle.vpf_library_files.specs.Loading.Loads.{ReadsAs};
ghost use Rattle.vpf_featured.specs.Reading.{read_featured};
ghost use Rattle.vpf_featured.specs.Inner.Held.{AreFeaturedFiles, AreOfFeatured};

use std::alloc::Global;
use vpf_feature_files::{FeatureFiles, load_features};
use vpf_library_files::loading::{LoadStop, LoadedTables, load_coverage_tables, within};
use vpf_source::Tree;

/// What is read: a coverage, and its features.
#[derive(Drop)]
pub struct FeaturedFiles {
    /// The tables of primitives.
    pub coverage: LoadedTables,
    /// The schema table, the feature tables and their thematic indexes.
    pub features: FeatureFiles,
}

/// The files that are read, in reading order, each once: those of the coverage, and then those of its features.
pub fn load_featured<T: Tree>(
    alloc: Global,
    tree: &mut T,
    lib: &str,
    cov: &str,
    loaded: &mut u64,
) -> Result<FeaturedFiles, LoadStop>
    requires { loaded.old ≤ most_loaded }
    ensures told { (held : Files) → T.files tree.old ≡ Some held
        → ReadsAs (λ files read. AreFeaturedFiles lib.now cov.now files read) result loaded.new (read_featured held lib.now cov.now loaded.old) }
    ensures are { IfOk result (AreOfFeatured lib.now cov.now) }
    ensures fault { IsErrOf result LoadStop.Fault → Rose (T.faults tree.old) (T.faults tree.new) }
    ensures stood { ¬ IsErrOf result LoadStop.Fault → Stood (T.faults tree.old) (T.faults tree.new) }
    ensures later { T.faults tree.old ≤ T.faults tree.new }
    ensures files { T.files tree.new ≡ T.files tree.old }
{
    let coverage = load_coverage_tables(alloc, tree, lib, cov, loaded)?;
    let folder = within(alloc, lib, cov)?;
    let features = load_features(alloc, tree, folder.as_str(), loaded)?;
    Ok(FeaturedFiles { coverage, features })
}
