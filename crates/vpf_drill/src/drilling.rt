//! The grid cut into tiles, checked and traced.

ghost use Rattle.std.specs.Prelude.{◌≡◌, IfOk, Ok, Some, None};
ghost use Rattle.vpf_source.specs.Files.{Files};
ghost use Rattle.vpf_source.specs.Making.{with_all};
ghost use Rattle.vpf_darts.specs.Listings.{numbers_of};
ghost use Rattle.vpf_prims.specs.Libraries.{library_of};
ghost use Rattle.vpf_library_files.specs.Loading.Loading.{LoadedCoverage, read_coverage};
ghost use Rattle.vpf_library_commands.specs.TraceTracing.{IsTrace};
ghost use Rattle.vpf_cross.specs.CrossFinding.{topology_finding};
ghost use Rattle.vpf_drill.specs.GridCutting.Held.{grid_held};
ghost use Rattle.vpf_drill.specs.GridCutting.Reading.{grid_request};
ghost use Rattle.vpf_drill.specs.Drill.{IsDrill, cut_grid};
ghost use Rattle.vpf_drill.specs.Digest.{digest};
ghost use Rattle.vpf_drill.specs.Numbers.{source_numbers, tiled_numbers};
ghost use Rattle.vpf_drill.specs.Request.{CanBeAsked};
ghost use Rattle.vpf_drill.specs.Inner.Traced.{IsOfTiled};

use crate::counting::{dart_count, line_count, longest};
use crate::digest::Digest;
use crate::laws::grid_is_tiled;
use crate::numbers::{SourceNumbers, TiledNumbers, numbers_text};
use crate::request::DrillRequest;
use crate::trees::{grid_tree, load_here, make_here, open_here};
use std::alloc::{AllocError, Global};
use vpf_coverage::Coverage;
use vpf_cross::check_coverage;
use vpf_darts::Listing;
use vpf_findings::FindError;
use vpf_library_commands::vpf_trace::trace;
use vpf_library_commands::{MakeRequest, tile, totals_of};
use vpf_replies::{Reply, Stop, Verdict, listed, settle};
use vpf_source::{File, Name, SureTree, Tree};

/// The folder of the library of the grid.
const LIBRARY: &str = "grid";

/// Its coverage.
const COVERAGE: &str = "g";

/// The folder of its tiled library.
const TILED: &str = "out";

/// What is counted of the grid that the tree holds.
fn count_source(alloc: Global, cells: u32, tree: &mut SureTree) -> Result<SourceNumbers, AllocError>
    requires can { CanBeAsked cells }
    requires files { ⟦<SureTree as Tree>⟧.files tree.old ≡ Some (grid_held cells) }
    ensures numbers { (source : LoadedCoverage) → (read_coverage (grid_held cells) grid_request.lib grid_request.cov 0).0 ≡ Ok source
        → IfOk result (λ numbers. numbers ≡ source_numbers source.coverage) }
    ensures files { ⟦<SureTree as Tree>⟧.files tree.new ≡ ⟦<SureTree as Tree>⟧.files tree.old }
{
    grid_is_tiled();
    let files = load_here(alloc, tree, LIBRARY, COVERAGE)?;
    let coverage = open_here(alloc, &files, LIBRARY, COVERAGE)?;
    Ok(SourceNumbers {
        edges: totals_of(&coverage).edges,
        lines: line_count(&coverage),
    })
}

/// A name.
fn named(alloc: Global, text: &str) -> Result<Name, AllocError>
    ensures { IfOk result (λ name. name ≡ text.now) }
{
    Ok(Name::new(String::from_str(alloc, text)?))
}

/// That the grid is cut into tiles, as a library beside it.
fn grid_request(alloc: Global) -> Result<MakeRequest, AllocError>
    ensures { IfOk result (λ request. request ≡ grid_request) }
{
    let lib = named(alloc, LIBRARY)?;
    let cov = named(alloc, COVERAGE)?;
    let out = named(alloc, TILED)?;
    Ok(MakeRequest { lib, cov, out })
}

/// Cuts the grid that the tree holds into tiles, and makes their files beside it. The reply has these files.
fn cut_grid(alloc: Global, cells: u32, tree: &mut SureTree) -> Result<Reply, AllocError>
    requires { ⟦<SureTree as Tree>⟧.files tree.old ≡ Some (grid_held cells) }
    ensures made { IfOk result (λ reply. reply.made ≡ cut_grid cells) }
    ensures files { IfOk result (λ _. ⟦<SureTree as Tree>⟧.files tree.new ≡ with_all (cut_grid cells) (Some (grid_held cells))) }
{
    let request = grid_request(alloc)?;
    match settle(tile(alloc, &request, tree)) {
        Ok(reply) => {
            make_here(tree, reply.made())?;
            Ok(reply)
        }
        Err(Stop::NoMemory) => Err(AllocError),
        Err(Stop::TreeFault) => unreachable!(),
    }
}

/// The boundary cycles of a coverage in whose topology nothing disagrees, past its lines.
fn cycles_of(alloc: Global, coverage: &Coverage<'_>) -> Result<Listing, AllocError>
    requires { topology_finding coverage.now ≡ None }
    ensures { IfOk result (λ listing. IsTrace (library_of coverage.now) (numbers_of listing)) }
{
    match check_coverage(alloc, coverage) {
        Ok(checked) => trace(alloc, &checked),
        Err(FindError::NoMemory) => Err(AllocError),
        Err(FindError::Finding(_)) => unreachable!(),
    }
}

/// The digest of the files that were made, and of the listing that the reply prints.
fn digest_of(made: &[File], reply: &Reply) -> u32
    ensures { result ≡ digest made.now reply.now.text }
{
    Digest::EMPTY.and_files(made).and(reply.text()).0
}

/// What is counted of a tiled coverage with these boundary cycles past its lines, for which these files were made.
fn numbers_of(
    alloc: Global,
    coverage: &Coverage<'_>,
    listing: &Listing,
    made: &[File],
) -> Result<TiledNumbers, AllocError>
    ensures { IfOk result (λ numbers. numbers ≡ tiled_numbers coverage.now listing.now made.now) }
{
    let reply = listed(alloc, listing)?;
    Ok(TiledNumbers {
        tiles: coverage.tiles(),
        copies: totals_of(coverage).edges,
        cycles: listing.len(),
        darts: dart_count(listing),
        longest: longest(listing),
        digest: digest_of(made, &reply),
    })
}

/// What is counted of the tiled library that the tree holds, for which these files were made.
fn count_tiled(
    alloc: Global,
    cells: u32,
    tree: &mut SureTree,
    made: &[File],
) -> Result<TiledNumbers, AllocError>
    requires can { CanBeAsked cells }
    requires files { ⟦<SureTree as Tree>⟧.files tree.old ≡ with_all (cut_grid cells) (Some (grid_held cells)) }
    ensures { (after : Files) (tiled : LoadedCoverage) → with_all (cut_grid cells) (Some (grid_held cells)) ≡ Some after
        → (read_coverage after grid_request.out grid_request.cov 0).0 ≡ Ok tiled → IfOk result (IsOfTiled tiled.coverage made.now) }
{
    grid_is_tiled();
    let files = load_here(alloc, tree, TILED, COVERAGE)?;
    let coverage = open_here(alloc, &files, TILED, COVERAGE)?;
    let listing = cycles_of(alloc, &coverage)?;
    numbers_of(alloc, &coverage, &listing, made)
}

/// Does `drill`: makes the grid in memory, cuts it into tiles of two by two cells, checks and traces what was made, and tells how many edges,
/// lines, tiles, copies of edges, cycles and darts there are, how long the longest cycle is, and a digest of every byte that was made and
/// listed. No tree is read and no file is made outside.
pub fn drill(alloc: Global, request: &DrillRequest) -> Result<Reply, AllocError>
    ensures { IfOk result (IsDrill request.now) }
{
    grid_is_tiled();
    let cells = request.cells();
    let mut tree = grid_tree(alloc, cells)?;
    let source = count_source(alloc, cells, &mut tree)?;
    let cut = cut_grid(alloc, cells, &mut tree)?;
    let tiled = count_tiled(alloc, cells, &mut tree, cut.made())?;
    let text = numbers_text(alloc, cells, source, tiled)?;
    Ok(Reply::new(alloc, Verdict::Done, text))
}
