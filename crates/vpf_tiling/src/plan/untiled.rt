//! The tables of an untiled coverage, read once and kept.

ghost use Rattle.std.specs.Prelude.{◌≡◌, ◌≤◌, ℕ, IfOk, IsErrOf, Ok, Some, codes};
ghost use Rattle.vpf_base.specs.Results.{Meets};
ghost use Rattle.vpf_source.specs.Files.{Files};
ghost use Rattle.vpf_library_files.specs.Loading.Holding.{AreOfCoverage, AreUntiledFiles};
ghost use Rattle.vpf_library_files.specs.Loading.Loading.{CountsAs, LoadedCoverage, loaded_read, most_loaded, stop_seen, within};
ghost use Rattle.vpf_library_files.specs.Loading.Loads.{LoadsAs};
ghost use Rattle.vpf_library_files.specs.Inner.Loading.Only.{OnlyLoads};
ghost use Rattle.vpf_tiling.specs.Plan.Untiled.{AreOfUntiled, LoadsUntiled, read_untiled};

use std::alloc::{AllocError, Global};
use vpf_library_files::loading::{LoadStop, LoadedTables, load_folder, within};
use vpf_source::{Name, Tree};

/// The name of the edges of a coverage.
fn edges_name(alloc: Global, lib: &str, cov: &str) -> Result<Name, AllocError>
    ensures { IfOk result (λ name. name ≡ within (within lib.now cov.now) (codes "edg")) }
{
    let folder = within(alloc, lib, cov)?;
    Ok(Name::new(within(alloc, folder.as_str(), "edg")?))
}

/// The tables of a coverage's own folder, which has to have edges.
fn load_tables<T: Tree>(
    alloc: Global,
    tree: &mut T,
    lib: &str,
    cov: &str,
    loaded: &mut u64,
) -> Result<LoadedTables, LoadStop>
    requires { loaded.old ≤ most_loaded }
    ensures reads { LoadsAs (T.files tree.old) (λ held. read_untiled held lib.now cov.now loaded.old)
        (λ v c. LoadsUntiled lib.now cov.now v c) result loaded.new }
    ensures only { OnlyLoads T.files T.faults tree.old tree.new loaded.old loaded.new (IsErrOf result LoadStop.Fault) }
{
    let mut tables = LoadedTables::new(alloc);
    if load_folder(alloc, tree, lib, cov, loaded, &mut tables)? {
        return Ok(tables);
    }
    Err(LoadStop::Missing(edges_name(alloc, lib, cov)?))
}

/// The tables of an untiled coverage of a library, in reading order, those of its own folder, `edg`, `fac`, `rng` and `cnd`, which have
/// to be there, and `end`, which may be; each with its variable-length index right after it where its rows vary.
///
/// Where there is no `edg`, that file is `Missing`. The other stops are those of `load_coverage`, but for those of the table of tiles, and
/// `loaded` counts as it does there.
pub fn load_untiled<T: Tree>(
    alloc: Global,
    tree: &mut T,
    lib: &str,
    cov: &str,
    loaded: &mut u64,
) -> Result<LoadedTables, LoadStop>
    requires { loaded.old ≤ most_loaded }
    // What is loaded, or what stops it, where the tree tells its files.
    ensures told { (files : Files) → T.files tree.old ≡ Some files
        → Meets (λ v. v) stop_seen result (loaded_read (read_untiled files lib.now cov.now loaded.old)) }
    // The bytes that were read are counted.
    ensures counted { (files : Files) → T.files tree.old ≡ Some files → CountsAs result (read_untiled files lib.now cov.now loaded.old) loaded.new }
    // The files are those of the coverage that is read.
    ensures held { (files : Files) → T.files tree.old ≡ Some files → (c : LoadedCoverage) (n : ℕ) → read_untiled files lib.now cov.now loaded.old ≡ (Ok c, n)
        → IfOk result (λ v. AreUntiledFiles lib.now cov.now c.coverage v) }
    // These hold over every tree.
    ensures are { IfOk result (λ files. AreOfUntiled lib.now cov.now files) }
    ensures coverage { IfOk result (λ files. AreOfCoverage lib.now cov.now files) }
    ensures only { OnlyLoads T.files T.faults tree.old tree.new loaded.old loaded.new (IsErrOf result LoadStop.Fault) }
{
    load_tables(alloc, tree, lib, cov, loaded)
}
