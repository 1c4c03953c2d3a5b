//! The files of a coverage, read once and kept.

ghost use Rattle.std.specs.Prelude.{◌≡◌, ◌≤◌, ℕ, List, Ok, IfOk, IsErrOf, Some, codes, slice_index_or, []};
ghost use Rattle.vpf_base.specs.Results.{Meets};
ghost use Rattle.vpf_source.specs.Causes.{Rose, Stood};
ghost use Rattle.vpf_source.specs.Files.{Files};
ghost use Rattle.vpf_library_files.specs.Loading.Holding.{AreCoverageFiles, AreOfCoverage};
ghost use Rattle.vpf_library_files.specs.Loading.Loading.{LoadedCoverage, most_loaded, read_coverage, read_tiled, loaded_read, stop_seen, within, CountsAs};
ghost use Rattle.vpf_library_files.specs.Loading.Loads.{LoadsAs, LoadsCoverage, LoadsTiled};
ghost use Rattle.vpf_library_files.specs.Inner.Loading.Only.{OnlyLoads};

mod files;
mod loaded;
mod names;
mod tables;
mod tileref;
mod tiles;

use crate::tileref::TilePaths;
use crate::tileref::laws::stops_decide;
pub use files::optional_file;
pub use loaded::LoadedTables;
pub use names::within;
use std::alloc::{AllocError, Global};
pub use tables::{kept, required_table, table_beside};
pub use tileref::load_tileref;
pub use tiles::load_folder;
use tiles::load_tiles;
use vpf_findings::OwnFinding;
use vpf_source::{File, Name, Tree};
use vpf_table::Limit;
use vpf_table::laws::{opened_is_read, spelled_is_opened};
use vpf_triplet::Place;

/// Why the files of a library aren't taken.
#[derive(Debug, Drop)]
pub enum LoadStop {
    /// The tree failed.
    Fault,
    /// There is no file of this name.
    Missing(Name),
    /// The file of this name has this first fault.
    Place(Name, Place),
    /// The file of this name passes a bound.
    Limit(Name, Limit),
    /// The table of tiles, the plan or the schema table of this name disagrees here first.
    Finding(Name, OwnFinding),
    /// The rows of the schema table of this name aren't of one length; a coverage that is loaded has none of it.
    Varies(Name),
    /// There was too little memory.
    NoMemory,
}

impl From<AllocError> for LoadStop {
    ghost use Rattle.vpf_library_files.specs.declared.loading.loading.LoadStop.TheVariants as stops;

    ghost from_gives = { λ _ stop. stop ≡ stops.NoMemory };

    fn from(_: AllocError) -> Self {
        LoadStop::NoMemory
    }
}

/// The name of the edges of the first tile.
fn first_edges(alloc: Global, folder: &str, paths: &TilePaths) -> Result<Name, AllocError>
    ensures { IfOk result (λ name. name ≡ within (within folder.now (slice_index_or paths.now 0 [])) (codes "edg")) }
{
    let tile = within(alloc, folder, paths.path(1).unwrap_or(""))?;
    Ok(Name::new(within(alloc, tile.as_str(), "edg")?))
}

/// The tables of a tiled coverage, by the folders of its library and its own.
fn load_tiled<T: Tree>(
    alloc: Global,
    tree: &mut T,
    lib: &str,
    folder: &str,
    loaded: &mut u64,
) -> Result<LoadedTables, LoadStop>
    requires { loaded.old ≤ most_loaded }
    ensures reads { (cov : List ℕ) → folder.now ≡ within lib.now cov
        → LoadsAs (T.files tree.old) (λ held. read_tiled held lib.now cov loaded.old) (λ v c. LoadsTiled lib.now cov v c) result loaded.new }
    ensures only { OnlyLoads T.files T.faults tree.old tree.new loaded.old loaded.new (IsErrOf result LoadStop.Fault) }
{
    stops_decide();
    spelled_is_opened();
    opened_is_read();
    let mut tables = LoadedTables::new(alloc);
    let paths = load_tileref(alloc, tree, lib, loaded, &mut tables)?;
    if !load_tiles(alloc, tree, folder, &paths, loaded, &mut tables)? {
        return Err(LoadStop::Missing(first_edges(alloc, folder, &paths)?));
    }
    Ok(tables.naming(paths))
}

/// The tables of a coverage, tiled or not.
fn load_tables<T: Tree>(
    alloc: Global,
    tree: &mut T,
    lib: &str,
    cov: &str,
    loaded: &mut u64,
) -> Result<LoadedTables, LoadStop>
    requires { loaded.old ≤ most_loaded }
    ensures reads { LoadsAs (T.files tree.old) (λ held. read_coverage held lib.now cov.now loaded.old)
        (λ v c. LoadsCoverage lib.now cov.now v c) result loaded.new }
    ensures only { OnlyLoads T.files T.faults tree.old tree.new loaded.old loaded.new (IsErrOf result LoadStop.Fault) }
{
    let mut tables = LoadedTables::new(alloc);
    if load_folder(alloc, tree, lib, cov, loaded, &mut tables)? {
        return Ok(tables);
    }
    let folder = within(alloc, lib, cov)?;
    load_tiled(alloc, tree, lib, folder.as_str(), loaded)
}

/// The tables of a coverage of a library, in reading order, as `load_coverage` gives their files, with what counting the rows of each found, and the paths
/// that a table of tiles names: so they are opened without reading either again. The stops are those of `load_coverage`, and `loaded` counts as it does there.
pub fn load_coverage_tables<T: Tree>(
    alloc: Global,
    tree: &mut T,
    lib: &str,
    cov: &str,
    loaded: &mut u64,
) -> Result<LoadedTables, LoadStop>
    requires { loaded.old ≤ most_loaded }
    // What is loaded, or what stops it, where the tree tells its files.
    ensures told { (files : Files) → T.files tree.old ≡ Some files
        → Meets (λ v. v) stop_seen result (loaded_read (read_coverage files lib.now cov.now loaded.old)) }
    // The bytes that were read are counted.
    ensures counted { (files : Files) → T.files tree.old ≡ Some files → CountsAs result (read_coverage files lib.now cov.now loaded.old) loaded.new }
    // The files are those of the coverage that is read.
    ensures held { (files : Files) → T.files tree.old ≡ Some files → (c : LoadedCoverage) (n : ℕ) → read_coverage files lib.now cov.now loaded.old ≡ (Ok c, n)
        → IfOk result (λ v. AreCoverageFiles lib.now cov.now c.coverage v) }
    // These hold over every tree.
    ensures are { IfOk result (λ tables. AreOfCoverage lib.now cov.now tables) }
    ensures only { OnlyLoads T.files T.faults tree.old tree.new loaded.old loaded.new (IsErrOf result LoadStop.Fault) }
{
    load_tables(alloc, tree, lib, cov, loaded)
}

/// The files of a coverage of a library, in reading order.
///
/// A coverage whose own folder has a table `edg` isn't tiled: its files are the tables of that folder. Else it is tiled: first come the
/// files of `tileref/tileref.aft` of the library, which is looked at by the rules of tables of tiles, and then tile by tile those of the
/// folders that it names, within the coverage. A tile without `edg` is empty; where all are, the `edg` of the first is missing. The
/// tables of a folder are `edg`, `fac`, `rng` and `cnd`, which have to be there, and `end`, which may be; each with its variable-length
/// index right after it where its rows vary.
///
/// `loaded` is the number of bytes that the run has read; each file that is read whole adds its length. A file is looked at when it is
/// read: that it is there, that neither it nor all files of the run pass their bounds, and that it is a table, or that table's own
/// index. The first file that isn't stops the load: `Missing`, `Limit` with the size or the sum, or `Place` with its first fault. So
/// does a bound of the table of tiles that is passed, as `Limit`, or what disagrees in it first, as `Finding`. `Fault` comes exactly
/// where the tree's count of faults rises.
pub fn load_coverage<T: Tree>(
    alloc: Global,
    tree: &mut T,
    lib: &str,
    cov: &str,
    loaded: &mut u64,
) -> Result<Vec<File>, LoadStop>
    requires { loaded.old ≤ most_loaded }
    // What is loaded, or what stops it, where the tree tells its files.
    ensures told { (files : Files) → T.files tree.old ≡ Some files
        → Meets (λ v. v.items) stop_seen result (loaded_read (read_coverage files lib.now cov.now loaded.old)) }
    // The bytes that were read are counted.
    ensures counted { (files : Files) → T.files tree.old ≡ Some files → CountsAs result (read_coverage files lib.now cov.now loaded.old) loaded.new }
    // The files are those of the coverage that is read.
    ensures held { (files : Files) → T.files tree.old ≡ Some files → (c : LoadedCoverage) (n : ℕ) → read_coverage files lib.now cov.now loaded.old ≡ (Ok c, n)
        → IfOk result (λ v. AreCoverageFiles lib.now cov.now c.coverage v.items) }
    // These hold over every tree.
    ensures are { IfOk result (λ files. AreOfCoverage lib.now cov.now files.items) }
    ensures rising { loaded.old ≤ loaded.new }
    ensures most { loaded.new ≤ most_loaded }
    ensures fault { IsErrOf result LoadStop.Fault → Rose (T.faults tree.old) (T.faults tree.new) }
    ensures stood { ¬ IsErrOf result LoadStop.Fault → Stood (T.faults tree.old) (T.faults tree.new) }
    ensures later { T.faults tree.old ≤ T.faults tree.new }
    ensures files { T.files tree.new ≡ T.files tree.old }
{
    match load_coverage_tables(alloc, tree, lib, cov, loaded) {
        Ok(tables) => Ok(tables.into_files()),
        Err(stop) => Err(stop),
    }
}
