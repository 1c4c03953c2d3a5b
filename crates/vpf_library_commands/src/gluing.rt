//! `glue`: the files of the untiled coverage that the tiles of a coverage are joined into.

ghost use Rattle.std.specs.Prelude.{◌≡◌, IfErr, IfOk, Some, false, is_some, string_bytes, true};
ghost use Rattle.vpf_source.specs.Files.{Files};
ghost use Rattle.vpf_prims.specs.Coverages.{CoverageTables};
ghost use Rattle.vpf_library_files.specs.Loading.Holding.{AreTiledFiles};
ghost use Rattle.vpf_library_files.specs.Loading.Loading.{within};
ghost use Rattle.vpf_cross.specs.CrossFinding.{topology_finding};
ghost use Rattle.vpf_glue.specs.Tables.{glued_with_features};
ghost use Rattle.vpf_replies.specs.Halting.{ComesTo, TellsFault};
ghost use Rattle.vpf_replies.specs.Refusals.{UntiledCoverage, refusal_answer};
ghost use Rattle.vpf_featured.specs.Finding.{featured_finding, placed_finding};
ghost use Rattle.vpf_featured.specs.Inner.Held.{AreFeaturedFiles, AreOfFeatured};
ghost use Rattle.vpf_featured.specs.Reading.{FeaturedCoverage, read_featured};
ghost use Rattle.vpf_library_commands.specs.Glue.{glue_answer, gluing_answer, joined_answer, own_edges_name};
ghost use Rattle.vpf_library_commands.specs.Made.{files_answer};

use crate::making::made_in;
use crate::requesting::MakeRequest;
use std::alloc::{AllocError, Global};
use vpf_coverage::opening::open_tileref;
use vpf_cross::Checked;
use vpf_featured::load_replies::stopped;
use vpf_featured::{Featured, FeaturedFiles, check_topology, load_featured, open_featured};
use vpf_features::{FeatureFault, Schema};
use vpf_library_files::loading::within;
use vpf_replies::{Halt, Refusal, Reply, Stop, disagreement, refuse};
use vpf_source::{File, Tree};
use vpf_table::laws::{opened_is_read, spelled_is_opened};

/// The name of the edges in a coverage's own folder.
fn own_edges(alloc: Global, lib: &str, cov: &str) -> Result<String, AllocError>
    ensures { IfOk result (λ name. string_bytes name ≡ own_edges_name lib.now cov.now) }
{
    let folder = within(alloc, lib, cov)?;
    within(alloc, folder.as_str(), "edg")
}

/// Whether a tree has a file of this name.
fn has_file<T: Tree>(tree: &mut T, name: &str) -> Result<bool, Halt>
    ensures told { (files : Files) → T.files tree.old ≡ Some files → IfOk result (λ has. has ≡ is_some (files name.now)) }
    ensures stops { IfErr result (λ halt. halt ≡ Halt.Stop Stop.TreeFault) }
    ensures fault { TellsFault result (Halt.Stop Stop.TreeFault) (T.faults tree.old) (T.faults tree.new) }
    ensures files { T.files tree.new ≡ T.files tree.old }
{
    match tree.size(name) {
        Ok(size) => Ok(size.is_some()),
        Err(_) => Err(Halt::Stop(Stop::TreeFault)),
    }
}

/// The reply over a coverage in tiles and its features in which nothing disagrees.
fn glued(
    alloc: Global,
    files: &[File],
    request: &MakeRequest,
    checked: &Checked<'_, '_>,
    schema: &Schema<'_>,
) -> Result<Reply, AllocError>
    requires files { (c : CoverageTables) × AreTiledFiles request.now.lib request.now.cov c files.now }
    requires tiled { checked.now.is_tiled ≡ true }
    ensures { (c : CoverageTables) (are : AreTiledFiles request.now.lib request.now.cov c files.now) → checked.now ≡ c
        → IfOk result (λ reply. reply ≡ files_answer request.now.out (glued_with_features request.now.cov c schema.now are.tileref)) }
{
    let (lib, cov) = (request.lib.as_str(), request.cov.as_str());
    let tileref = open_tileref(alloc, files, lib, cov)?;
    let made = vpf_glue::glue(alloc, checked, schema, &tileref, cov);
    made_in(alloc, request.out.as_str(), made)
}

/// The reply over a coverage in tiles and its features in whose tables nothing disagrees.
fn checked(
    alloc: Global,
    files: &[File],
    request: &MakeRequest,
    featured: &Featured<'_>,
) -> Result<Reply, AllocError>
    requires files { (c : CoverageTables) × AreTiledFiles request.now.lib request.now.cov c files.now }
    requires tiled { featured.now.coverage.is_tiled ≡ true }
    ensures { (read : FeaturedCoverage) → AreTiledFiles request.now.lib request.now.cov read.coverage.coverage files.now → read.coverage.files ≡ files.now
        → featured.now.coverage ≡ read.coverage.coverage → featured.now.schema ≡ read.schema
        → IfOk result (λ reply. reply ≡ gluing_answer request.now read (placed_finding read.coverage.files (topology_finding read.coverage.coverage))) }
{
    spelled_is_opened();
    opened_is_read();
    match check_topology(alloc, files, &featured.coverage) {
        Ok(checked) => glued(alloc, files, request, &checked, &featured.schema),
        Err(FeatureFault::Finding(name, finding)) => disagreement(alloc, name.as_str(), &finding),
        Err(FeatureFault::NoMemory) => Err(AllocError),
    }
}

/// The reply over files that were loaded.
fn read(alloc: Global, files: &FeaturedFiles, request: &MakeRequest) -> Result<Reply, AllocError>
    requires { AreOfFeatured request.now.lib request.now.cov files.now }
    ensures { (read : FeaturedCoverage) → AreFeaturedFiles request.now.lib request.now.cov files.now read → read.coverage.coverage.is_tiled ≡ true
        → IfOk result (λ reply. reply ≡ gluing_answer request.now read (featured_finding (within request.now.lib request.now.cov) read)) }
{
    let (lib, cov) = (request.lib.as_str(), request.cov.as_str());
    match open_featured(alloc, files, lib, cov) {
        Ok(featured) if featured.coverage.is_tiled() => {
            checked(alloc, files.coverage.files(), request, &featured)
        }
        // It was there when it was looked for.
        Ok(_) => untiled(alloc, request),
        Err(FeatureFault::Finding(name, finding)) => disagreement(alloc, name.as_str(), &finding),
        Err(FeatureFault::NoMemory) => Err(AllocError),
    }
}

/// The reply over a coverage that isn't tiled.
fn untiled(alloc: Global, request: &MakeRequest) -> Result<Reply, AllocError>
    ensures { IfOk result (λ reply. reply ≡ refusal_answer (UntiledCoverage (own_edges_name request.now.lib request.now.cov))) }
{
    let edges = own_edges(alloc, request.lib.as_str(), request.cov.as_str())?;
    refuse(alloc, Refusal::Untiled(edges.as_str()))
}

/// The reply over a coverage that has no edges of its own.
fn joined<T: Tree>(alloc: Global, request: &MakeRequest, tree: &mut T) -> Result<Reply, Halt>
    ensures told { (files : Files) → T.files tree.old ≡ Some files → is_some (files (own_edges_name request.now.lib request.now.cov)) ≡ false
        → ComesTo (λ answer. answer ≡ joined_answer request.now (read_featured files request.now.lib request.now.cov 0).0) result }
    ensures fault { TellsFault result (Halt.Stop Stop.TreeFault) (T.faults tree.old) (T.faults tree.new) }
    ensures files { T.files tree.new ≡ T.files tree.old }
{
    let mut loaded = 0;
    let (lib, cov) = (request.lib.as_str(), request.cov.as_str());
    match load_featured(alloc, tree, lib, cov, &mut loaded) {
        Ok(files) => Ok(read(alloc, &files, request)?),
        Err(stop) => stopped(alloc, stop),
    }
}

/// Does `glue`: checks a tiled coverage as `check` does, and makes the files of the untiled coverage that its tiles are joined into, with the table of
/// tiles and a plan that names the tile of each face, so that `tile` can cut it again, and behind them those of its features; or tells why there is
/// none: that it isn't tiled, the
/// first file that isn't taken, the first place that disagrees, or the first bound that a file would pass. All files are composed before the
/// first is made (MIL-STD-2407, 5.2.3, tiled coverages and cross-tile topology).
pub fn glue<T: Tree>(alloc: Global, request: &MakeRequest, tree: &mut T) -> Result<Reply, Halt>
    ensures told { (files : Files) → T.files tree.old ≡ Some files → ComesTo (λ answer. answer ≡ glue_answer files request.now) result }
    ensures fault { TellsFault result (Halt.Stop Stop.TreeFault) (T.faults tree.old) (T.faults tree.new) }
    ensures files { T.files tree.new ≡ T.files tree.old }
{
    let edges = own_edges(alloc, request.lib.as_str(), request.cov.as_str())?;
    if has_file(tree, edges.as_str())? {
        return Ok(untiled(alloc, request)?);
    }
    joined(alloc, request, tree)
}
