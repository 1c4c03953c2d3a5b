//! `check`: whether a coverage agrees.

ghost use Rattle.std.specs.Prelude.{◌≡◌, ◌++◌, IfOk, OnOk, map, string_bytes};
ghost use Rattle.vpf_source.specs.Files.{Files};
ghost use Rattle.vpf_replies.specs.Answer.{done};
ghost use Rattle.vpf_replies.specs.Halting.{ComesTo, TellsFault};
ghost use Rattle.vpf_featured.specs.Inner.Held.{AreFeaturedFiles, AreOfFeatured};
ghost use Rattle.vpf_featured.specs.Reading.{FeaturedCoverage};
ghost use Rattle.vpf_library_commands.specs.Check.{agrees_text, check_answer, check_request, found_answer, read_finding, tiling_text};

use crate::totals::{Totals, totals_of};
use std::alloc::{AllocError, Global};
use vpf_coverage::Coverage;
use vpf_featured::load_replies::stopped;
use vpf_featured::{FeaturedFiles, load_featured, open_agreeing};
use vpf_features::FeatureFault;
use vpf_replies::{Halt, Reply, Stop, Verdict, disagreement};
use vpf_source::names::{coverage_name, file_name};
use vpf_source::{Name, Tree};

/// A coverage of a library that is checked, by `check` and before `trace`.
#[derive(Debug, Drop)]
pub struct CheckRequest {
    /// The folder of the library.
    pub lib: Name,
    /// The coverage in that folder.
    pub cov: Name,
}

impl CheckRequest {
    /// The request that the words after the verb spell, or nothing where they spell none.
    pub fn read(alloc: Global, words: &[String]) -> Result<Option<Self>, AllocError>
        ensures { IfOk result (λ request. request ≡ check_request (map string_bytes words.now)) }
    {
        let [lib, cov] = words else {
            return Ok(None);
        };
        let Some(lib) = file_name(alloc, lib)? else {
            return Ok(None);
        };
        let Some(cov) = coverage_name(alloc, cov)? else {
            return Ok(None);
        };
        Ok(Some(CheckRequest { lib, cov }))
    }
}

/// Puts how a coverage is cut into tiles.
fn put_tiling(text: &mut String, coverage: &Coverage<'_>) -> Result<(), AllocError>
    ensures { OnOk result (string_bytes text.new ≡ string_bytes text.old ++ tiling_text coverage.now) }
{
    if coverage.is_tiled() {
        let tiles = coverage.tiles();
        write!(text, "tiles {tiles}")
    } else {
        text.push_str("untiled")
    }
}

/// That a coverage agrees, with its numbers of primitives in all tiles.
fn agrees_text(alloc: Global, coverage: &Coverage<'_>) -> Result<String, AllocError>
    ensures { IfOk result (λ text. string_bytes text ≡ agrees_text coverage.now) }
{
    let Totals {
        edges,
        faces,
        nodes,
        entities,
    } = totals_of(coverage);
    let mut text = String::from_str(alloc, "agrees ")?;
    put_tiling(&mut text, coverage)?;
    write!(
        text,
        " edges {edges} faces {faces} nodes {nodes} entities {entities}\n"
    )?;
    Ok(text)
}

/// The reply over a coverage that agrees.
fn agreed(alloc: Global, coverage: &Coverage<'_>) -> Result<Reply, AllocError>
    ensures { IfOk result (λ reply. reply ≡ done (agrees_text coverage.now)) }
{
    Ok(Reply::new(alloc, Verdict::Done, agrees_text(alloc, coverage)?))
}

/// The reply over files that were loaded.
fn checked(
    alloc: Global,
    files: &FeaturedFiles,
    request: &CheckRequest,
) -> Result<Reply, AllocError>
    requires { AreOfFeatured request.now.lib request.now.cov files.now }
    ensures { (read : FeaturedCoverage) → AreFeaturedFiles request.now.lib request.now.cov files.now read
        → IfOk result (λ reply. reply ≡ found_answer read.coverage.coverage (read_finding request.now read)) }
{
    match open_agreeing(alloc, files, request.lib.as_str(), request.cov.as_str()) {
        Ok(featured) => agreed(alloc, &featured.coverage),
        Err(FeatureFault::Finding(name, finding)) => disagreement(alloc, name.as_str(), &finding),
        Err(FeatureFault::NoMemory) => Err(AllocError),
    }
}

/// Does `check`: tells that a coverage agrees, with its numbers of primitives in all tiles, or the first place where it doesn't. Its files are
/// read in order, each once, and behind them those of its features; then the columns and numbers of its tables are looked at, tile by tile, then those of its
/// feature tables, and their thematic indexes, and then its topology, rule by rule (MIL-STD-2407, 5.2.2, primitives and winged-edge topology, and 5.2.3,
/// cross-tile topology and feature classes).
pub fn check<T: Tree>(alloc: Global, request: &CheckRequest, tree: &mut T) -> Result<Reply, Halt>
    ensures told { (files : Files) → T.files tree.old ≡ Some files → ComesTo (λ answer. answer ≡ check_answer files request.now) result }
    ensures fault { TellsFault result (Halt.Stop Stop.TreeFault) (T.faults tree.old) (T.faults tree.new) }
    ensures files { T.files tree.new ≡ T.files tree.old }
{
    let mut loaded = 0;
    let (lib, cov) = (request.lib.as_str(), request.cov.as_str());
    match load_featured(alloc, tree, lib, cov, &mut loaded) {
        Ok(files) => Ok(checked(alloc, &files, request)?),
        Err(stop) => stopped(alloc, stop),
    }
}
