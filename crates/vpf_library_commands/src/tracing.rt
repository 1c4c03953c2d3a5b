//! `trace`: the boundary cycles of a coverage, past its lines between tiles.

ghost use Rattle.std.specs.Prelude.{◌≡◌, IfOk, Some};
ghost use Rattle.vpf_source.specs.Files.{Files};
ghost use Rattle.vpf_darts.specs.Listings.{numbers_of};
ghost use Rattle.vpf_prims.specs.Libraries.{library_of};
ghost use Rattle.vpf_library_files.specs.Loading.Loading.{within};
ghost use Rattle.vpf_trace.specs.Tracing.{IsTrace};
ghost use Rattle.vpf_features.specs.Finding.{TellsNamed};
ghost use Rattle.vpf_replies.specs.Halting.{ComesTo, TellsFault};
ghost use Rattle.vpf_featured.specs.Finding.{tables_or_features_finding};
ghost use Rattle.vpf_featured.specs.Inner.Held.{AreFeaturedFiles, AreOfFeatured};
ghost use Rattle.vpf_featured.specs.Reading.{FeaturedCoverage};
ghost use Rattle.vpf_library_commands.specs.Check.{read_finding};
ghost use Rattle.vpf_library_commands.specs.Trace.{IsTraceAnswer, IsTracedAnswer};

use crate::checking::CheckRequest;
use std::alloc::{AllocError, Global};
use vpf_coverage::Coverage;
use vpf_darts::Listing;
use vpf_featured::load_replies::stopped;
use vpf_featured::{FeaturedFiles, check_topology, load_featured, open_featured};
use vpf_features::FeatureFault;
use vpf_replies::{Halt, Reply, Stop, disagreement, listed};
use vpf_source::Tree;

/// The coverage of files that were loaded, in whose tables and features nothing disagrees, which keeps what its rows of edges say: a walk round the faces
/// asks for an edge as often as it comes to it.
fn opened<'a>(
    alloc: Global,
    files: &'a FeaturedFiles,
    request: &CheckRequest,
) -> Result<Coverage<'a>, FeatureFault<'a>>
    requires { AreOfFeatured request.now.lib request.now.cov files.now }
    ensures first { (read : FeaturedCoverage) → AreFeaturedFiles request.now.lib request.now.cov files.now read
        → TellsNamed result (tables_or_features_finding (within request.now.lib request.now.cov) read) }
    ensures opened { (read : FeaturedCoverage) → AreFeaturedFiles request.now.lib request.now.cov files.now read
        → IfOk result (λ coverage. coverage ≡ read.coverage.coverage) }
{
    let featured = open_featured(alloc, files, request.lib.as_str(), request.cov.as_str())?;
    Ok(featured.coverage.keeping_edges(alloc)?)
}

/// The boundary cycles of the coverage of files that were loaded, past its lines, where nothing disagrees, or the first finding, in its file.
fn cycles_of<'a>(
    alloc: Global,
    files: &'a FeaturedFiles,
    request: &CheckRequest,
) -> Result<Listing, FeatureFault<'a>>
    requires { AreOfFeatured request.now.lib request.now.cov files.now }
    ensures first { (read : FeaturedCoverage) → AreFeaturedFiles request.now.lib request.now.cov files.now read
        → TellsNamed result (read_finding request.now read) }
    ensures cycles { (read : FeaturedCoverage) → AreFeaturedFiles request.now.lib request.now.cov files.now read
        → IfOk result (λ listing. IsTrace (library_of read.coverage.coverage) (numbers_of listing)) }
{
    let coverage = opened(alloc, files, request)?;
    let checked = check_topology(alloc, files.coverage.files(), &coverage)?;
    Ok(vpf_trace::trace(alloc, &checked)?)
}

/// The reply over files that were loaded.
fn traced(alloc: Global, files: &FeaturedFiles, request: &CheckRequest) -> Result<Reply, AllocError>
    requires { AreOfFeatured request.now.lib request.now.cov files.now }
    ensures { (read : FeaturedCoverage) → AreFeaturedFiles request.now.lib request.now.cov files.now read
        → IfOk result (IsTracedAnswer read.coverage.coverage (read_finding request.now read)) }
{
    match cycles_of(alloc, files, request) {
        Ok(listing) => listed(alloc, &listing),
        Err(FeatureFault::Finding(name, finding)) => disagreement(alloc, name.as_str(), &finding),
        Err(FeatureFault::NoMemory) => Err(AllocError),
    }
}

/// Does `trace`: checks a coverage as `check` does, and lists the boundary cycles of its faces past its lines between tiles, a line each, and
/// their number, or tells the first place where it doesn't agree (MIL-STD-2407, 5.2.2, winged-edge topology, and 5.2.3, cross-tile topology).
pub fn trace<T: Tree>(alloc: Global, request: &CheckRequest, tree: &mut T) -> Result<Reply, Halt>
    ensures told { (files : Files) → T.files tree.old ≡ Some files → ComesTo (IsTraceAnswer files request.now) result }
    ensures fault { TellsFault result (Halt.Stop Stop.TreeFault) (T.faults tree.old) (T.faults tree.new) }
    ensures files { T.files tree.new ≡ T.files tree.old }
{
    let mut loaded = 0;
    let (lib, cov) = (request.lib.as_str(), request.cov.as_str());
    match load_featured(alloc, tree, lib, cov, &mut loaded) {
        Ok(files) => Ok(traced(alloc, &files, request)?),
        Err(stop) => stopped(alloc, stop),
    }
}
