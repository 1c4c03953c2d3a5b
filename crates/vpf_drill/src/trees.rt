//! Files in memory, of which no call fails: what is made is there, and what is there is read.

ghost use Rattle.std.specs.Prelude.{◌≡◌, IfOk, None, OnOk, Ok, Some};
ghost use Rattle.vpf_source.specs.Files.{Files};
ghost use Rattle.vpf_source.specs.Making.{with_all};
ghost use Rattle.vpf_prims.specs.Coverages.{CoverageTables};
ghost use Rattle.vpf_library_files.specs.Loading.Holding.{AreCoverageFiles, AreOfCoverage};
ghost use Rattle.vpf_library_files.specs.Loading.Loading.{LoadedCoverage, read_coverage};
ghost use Rattle.vpf_numbers.specs.TableLines.{coverage_numbers};
ghost use Rattle.vpf_drill.specs.Request.{CanBeAsked};
ghost use Rattle.vpf_drill.specs.Inner.Trees.{CanBeRead};
ghost use Rattle.vpf_drill.specs.GridCutting.Held.{grid_held};

use crate::grid_cutting::laws::grid_is_held;
use std::alloc::{AllocError, Global};
use vpf_coverage::{Coverage, open_coverage};
use vpf_findings::FindError;
use vpf_library_files::loading::{LoadStop, load_coverage};
use vpf_source::{DeviceError, File, SureTree, Tree, make_all};
use vpf_vectors::grid;

/// Makes files one after another.
pub(crate) fn make_here(tree: &mut SureTree, files: &[File]) -> Result<(), AllocError>
    ensures { OnOk result (⟦<SureTree as Tree>⟧.files tree.new ≡ with_all files.now (⟦<SureTree as Tree>⟧.files tree.old)) }
{
    match make_all(tree, files) {
        Ok(()) => Ok(()),
        Err(DeviceError::NoMemory) => Err(AllocError),
        Err(DeviceError::Failed) => unreachable!(),
    }
}

/// A tree that holds the library of the grid, and nothing else.
pub(crate) fn grid_tree(alloc: Global, cells: u32) -> Result<SureTree, AllocError>
    requires { CanBeAsked cells }
    ensures { IfOk result (λ tree. ⟦<SureTree as Tree>⟧.files tree ≡ Some (grid_held cells)) }
{
    grid_is_held();
    let files = grid(alloc, cells)?;
    let mut tree = SureTree::new(alloc);
    make_here(&mut tree, &files)?;
    Ok(tree)
}

/// The files of a coverage that the tree holds.
pub(crate) fn load_here(
    alloc: Global,
    tree: &mut SureTree,
    lib: &str,
    cov: &str,
) -> Result<Vec<File>, AllocError>
    requires { CanBeRead (⟦<SureTree as Tree>⟧.files tree.old) lib.now cov.now }
    ensures held { (held : Files) (c : LoadedCoverage) → ⟦<SureTree as Tree>⟧.files tree.old ≡ Some held
        → (read_coverage held lib.now cov.now 0).0 ≡ Ok c → IfOk result (λ files. AreCoverageFiles lib.now cov.now c.coverage files.items) }
    ensures are { IfOk result (λ files. AreOfCoverage lib.now cov.now files.items) }
    ensures files { ⟦<SureTree as Tree>⟧.files tree.new ≡ ⟦<SureTree as Tree>⟧.files tree.old }
{
    let mut loaded = 0;
    match load_coverage(alloc, tree, lib, cov, &mut loaded) {
        Ok(files) => Ok(files),
        Err(LoadStop::NoMemory) => Err(AllocError),
        Err(_) => unreachable!(),
    }
}

/// The coverage of these files, in whose columns and numbers nothing disagrees.
pub(crate) fn open_here<'a>(
    alloc: Global,
    files: &'a [File],
    lib: &str,
    cov: &str,
) -> Result<Coverage<'a>, AllocError>
    requires { (c : CoverageTables) × AreCoverageFiles lib.now cov.now c files.now × (coverage_numbers c ≡ None) }
    ensures { (c : CoverageTables) → AreCoverageFiles lib.now cov.now c files.now → IfOk result (λ coverage. coverage ≡ c) }
{
    match open_coverage(alloc, files, lib, cov) {
        Ok(coverage) => Ok(coverage),
        Err(FindError::NoMemory) => Err(AllocError),
        Err(FindError::Finding(_)) => unreachable!(),
    }
}
