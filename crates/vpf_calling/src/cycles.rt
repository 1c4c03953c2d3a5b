//! The boundary cycles of a coverage that agrees.

ghost use Rattle.std.specs.Prelude.{◌≡◌, ℕ, Err, IsErr, IsErrOf, Ok, Some};
ghost use Rattle.vpf_source.specs.Causes.{Rose, Stood};
ghost use Rattle.vpf_source.specs.Files.{Files};
ghost use Rattle.vpf_prims.specs.Coverages.{CoverageTables};
ghost use Rattle.vpf_library_files.specs.Loading.Holding.{AreCoverageFiles, AreOfCoverage};
ghost use Rattle.vpf_library_files.specs.Loading.Loading.{LoadedCoverage, read_coverage};
ghost use Rattle.vpf_library_files.specs.declared.loading.loading.LoadStop.{LoadStop as Stopped};
ghost use Rattle.vpf_calling.specs.Inner.Learning.{IsUnread, Learns};

use std::alloc::{AllocError, Global};
use vpf_coverage::open_coverage;
use vpf_cross::check_coverage;
use vpf_findings::FindError;
use vpf_library_files::loading::{LoadStop, load_coverage};
use vpf_source::{File, Tree};
use vpf_trace::trace;

/// Why the cycles of a coverage aren't known.
#[derive(Clone, Copy, Debug, PartialEq, Eq)]
pub enum Unknown {
    /// A file is absent, no table, or too large, or the table of tiles isn't right.
    NotThere,
    /// A column, an id, a reference or the topology doesn't agree.
    Disagrees,
    /// A call of the tree failed: what it holds isn't known.
    Fault,
    /// Memory ran out.
    NoMemory,
}

impl From<AllocError> for Unknown {
    ghost use Rattle.vpf_calling.specs.declared.cycles.Unknown.TheVariants as unknown;

    ghost from_gives = { λ _ why. why ≡ unknown.NoMemory };

    fn from(_: AllocError) -> Self {
        Unknown::NoMemory
    }
}

impl From<FindError<'_>> for Unknown {
    ghost use Rattle.vpf_calling.specs.Inner.Learning.{IsUnfound};

    ghost from_gives = { IsUnfound };

    fn from(error: FindError<'_>) -> Self {
        match error {
            FindError::Finding(_) => Unknown::Disagrees,
            FindError::NoMemory => Unknown::NoMemory,
        }
    }
}

/// Why a load that stopped says nothing of cycles.
fn unread(stop: &LoadStop) -> Unknown
    ensures { IsUnread stop.now result }
{
    match stop {
        LoadStop::Fault => Unknown::Fault,
        LoadStop::NoMemory => Unknown::NoMemory,
        _ => Unknown::NotThere,
    }
}

/// How many boundary cycles the coverage of these files has, its lines between tiles passed over, where it agrees.
fn cycles_of(alloc: Global, files: &[File], lib: &str, cov: &str) -> Result<usize, Unknown>
    requires { AreOfCoverage lib.now cov.now files.now }
    ensures learned { (c : CoverageTables) → AreCoverageFiles lib.now cov.now c files.now → Learns c result }
    ensures no_fault { ¬ IsErrOf result Unknown.Fault }
{
    let coverage = open_coverage(alloc, files, lib, cov)?;
    let checked = check_coverage(alloc, &coverage)?;
    let listing = trace(alloc, &checked)?;
    Ok(listing.len())
}

/// How many boundary cycles a coverage of a library has, its lines between tiles passed over; or why that isn't known.
///
/// The files are loaded, their tables opened, their topology checked, and only then its cycles listed and counted.
pub fn count_cycles<T: Tree>(
    alloc: Global,
    tree: &mut T,
    lib: &str,
    cov: &str,
) -> Result<usize, Unknown>
    // Of the coverage that the tree holds this is learned.
    ensures learned { (files : Files) → T.files tree.old ≡ Some files
        → (c : LoadedCoverage) (n : ℕ) → read_coverage files lib.now cov.now 0 ≡ (Ok c, n) → Learns c.coverage result }
    // Where it holds none, nothing is counted.
    ensures unread { (files : Files) → T.files tree.old ≡ Some files
        → (stop : Stopped) (n : ℕ) → read_coverage files lib.now cov.now 0 ≡ (Err stop, n) → IsErr result }
    // A fault is told exactly where a call of the tree failed.
    ensures fault { IsErrOf result Unknown.Fault → Rose (T.faults tree.old) (T.faults tree.new) }
    ensures stood { ¬ IsErrOf result Unknown.Fault → Stood (T.faults tree.old) (T.faults tree.new) }
{
    let mut loaded = 0;
    match load_coverage(alloc, tree, lib, cov, &mut loaded) {
        Ok(files) => cycles_of(alloc, &files, lib, cov),
        Err(stop) => Err(unread(&stop)),
    }
}
