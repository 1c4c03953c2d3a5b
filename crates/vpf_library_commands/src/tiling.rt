//! `tile`: the files of the tiled library of an untiled coverage.

ghost use Rattle.std.specs.Prelude.{◌≡◌, ◌≤◌, ◌++◌, IfOk, IsErrOf, List, OnOk, Result, Some, codes, false, string_bytes};
ghost use Rattle.std.specs.Fmt.{decimal, signed_decimal};
ghost use Rattle.vpf_base.specs.Results.{Meets};
ghost use Rattle.vpf_source.specs.Causes.{Rose, Stood};
ghost use Rattle.vpf_source.specs.Files.{Files};
ghost use Rattle.vpf_source.specs.declared.file.File.{File as FileOf};
ghost use Rattle.vpf_findings.specs.Text.Texts.{◌&◌};
ghost use Rattle.vpf_prims.specs.Coverages.{tile_at};
ghost use Rattle.vpf_library_files.specs.Loading.Loading.{most_loaded, within};
ghost use Rattle.vpf_library_files.specs.Loading.Loads.{ReadsAs};
ghost use Rattle.vpf_cross.specs.CrossFinding.{topology_finding};
ghost use Rattle.vpf_tiler.specs.declared.errors.TileError.{TileError};
ghost use Rattle.vpf_tiler.specs.Making.{tile_error_seen};
ghost use Rattle.vpf_library_files.specs.Inner.Loading.Only.{OnlyLoads};
ghost use Rattle.vpf_features.specs.Finding.{TellsNamed};
ghost use Rattle.vpf_replies.specs.Answer.{refused};
ghost use Rattle.vpf_replies.specs.Halting.{ComesTo, TellsFault};
ghost use Rattle.vpf_featured.specs.Finding.{placed_finding, tables_or_features_finding};
ghost use Rattle.vpf_featured.specs.Reading.{FeaturedCoverage};
ghost use Rattle.vpf_library_commands.specs.Tile.{TileParts, parts_finding, plan_name, read_parts, read_untiled_featured};
ghost use Rattle.vpf_library_commands.specs.Tile.{refusal_reason, untiled_text};
ghost use Rattle.vpf_library_commands.specs.Tile.{tables_answer, tile_answer, tiled_answer, tiling_answer};
ghost use Rattle.vpf_library_commands.specs.Inner.TileFiles.{ArePartsFiles, ArePartsOf, AreOfUntiledFeatured, AreUntiledFeatured};

use crate::keying::keyed;
use crate::making::made_in;
use crate::requesting::MakeRequest;
use std::alloc::{AllocError, Global};
use vpf_cross::Checked;
use vpf_feature_files::load_features;
use vpf_featured::load_replies::stopped;
use vpf_featured::{Featured, FeaturedFiles, check_topology, open_featured};
use vpf_features::{FeatureFault, Schema};
use vpf_library_files::loading::{LoadStop, LoadedTables, load_tileref, within};
use vpf_library_files::table_files::AddError;
use vpf_library_files::tileref::laws::stops_decide;
use vpf_replies::{Halt, Reply, Stop, Verdict, disagreement};
use vpf_source::{File, Tree};
use vpf_tiler::TileError;
use vpf_tiling::plan::{load_plan, load_untiled, open_plan};
use vpf_tiling::tileable::Refusal;

/// What is read: an untiled coverage and its features, the table of tiles of its library, and its plan.
#[derive(Drop)]
struct TileFiles {
    featured: FeaturedFiles,
    tileref: LoadedTables,
    plan: LoadedTables,
}

/// The name of the plan of a coverage.
fn plan_name(alloc: Global, lib: &str, cov: &str) -> Result<String, AllocError>
    ensures { IfOk result (λ name. string_bytes name ≡ plan_name lib.now cov.now) }
{
    let folder = within(alloc, lib, cov)?;
    within(alloc, folder.as_str(), "plan")
}

/// The files of an untiled coverage and of its features, in reading order, each once.
fn load_untiled_featured<T: Tree>(
    alloc: Global,
    tree: &mut T,
    lib: &str,
    cov: &str,
    loaded: &mut u64,
) -> Result<FeaturedFiles, LoadStop>
    requires { loaded.old ≤ most_loaded }
    ensures told { (held : Files) → T.files tree.old ≡ Some held
        → ReadsAs (λ files read. AreUntiledFeatured lib.now cov.now files read) result loaded.new (read_untiled_featured held lib.now cov.now loaded.old) }
    ensures are { IfOk result (AreOfUntiledFeatured lib.now cov.now) }
    ensures only { OnlyLoads T.files T.faults tree.old tree.new loaded.old loaded.new (IsErrOf result LoadStop.Fault) }
{
    let coverage = load_untiled(alloc, tree, lib, cov, loaded)?;
    let folder = within(alloc, lib, cov)?;
    let features = load_features(alloc, tree, folder.as_str(), loaded)?;
    Ok(FeaturedFiles { coverage, features })
}

/// All files that are read, in reading order, each once.
fn load_parts<T: Tree>(
    alloc: Global,
    tree: &mut T,
    lib: &str,
    cov: &str,
    loaded: &mut u64,
) -> Result<TileFiles, LoadStop>
    requires { loaded.old ≤ most_loaded }
    ensures told { (held : Files) → T.files tree.old ≡ Some held
        → ReadsAs (λ files parts. ArePartsFiles lib.now cov.now files parts) result loaded.new (read_parts held lib.now cov.now loaded.old) }
    ensures are { IfOk result (ArePartsOf lib.now cov.now) }
    ensures fault { IsErrOf result LoadStop.Fault → Rose (T.faults tree.old) (T.faults tree.new) }
    ensures stood { ¬ IsErrOf result LoadStop.Fault → Stood (T.faults tree.old) (T.faults tree.new) }
    ensures later { T.faults tree.old ≤ T.faults tree.new }
    ensures files { T.files tree.new ≡ T.files tree.old }
{
    let featured = load_untiled_featured(alloc, tree, lib, cov, loaded)?;
    let mut tileref = LoadedTables::new(alloc);
    load_tileref(alloc, tree, lib, loaded, &mut tileref)?;
    let name = plan_name(alloc, lib, cov)?;
    let plan = load_plan(alloc, tree, name.as_str(), loaded)?;
    Ok(TileFiles {
        featured,
        tileref,
        plan,
    })
}

/// Puts words and a number behind them.
fn put_number(text: &mut String, words: &str, number: u32) -> Result<(), AllocError>
    ensures { OnOk result (string_bytes text.new ≡ string_bytes text.old ++ (words.now & decimal number)) }
{
    text.push_str(words)?;
    write!(text, "{number}")
}

/// Puts words and a signed number behind them.
fn put_signed(text: &mut String, words: &str, number: i32) -> Result<(), AllocError>
    ensures { OnOk result (string_bytes text.new ≡ string_bytes text.old ++ (words.now & signed_decimal number)) }
{
    text.push_str(words)?;
    write!(text, "{number}")
}

/// Puts a face, and the number that its plan names for it and that no tile has.
fn put_unknown(text: &mut String, face: u32, tile: i32) -> Result<(), AllocError>
    ensures { OnOk result (string_bytes text.new
        ≡ string_bytes text.old ++ (codes "unknown-tile face " & decimal face & codes ": " & signed_decimal tile)) }
{
    put_number(text, "unknown-tile face ", face)?;
    put_signed(text, ": ", tile)
}

/// Puts why a coverage isn't cut into tiles by its plan.
fn put_reason(text: &mut String, refusal: Refusal) -> Result<(), AllocError>
    ensures { OnOk result (string_bytes text.new ≡ string_bytes text.old ++ refusal_reason refusal) }
{
    match refusal {
        Refusal::NoPlan { face } => put_number(text, "no-plan face ", face),
        Refusal::UnknownTile { face, tile } => put_unknown(text, face, tile),
        Refusal::EdgeOutside { edge } => put_number(text, "edge-outside edge ", edge),
        Refusal::EntityOutside { node } => put_number(text, "entity-outside node ", node),
    }
}

/// The reply where a coverage isn't cut into tiles by its plan.
fn refused(alloc: Global, refusal: Refusal) -> Result<Reply, AllocError>
    ensures { IfOk result (λ reply. reply ≡ refused (untiled_text refusal)) }
{
    let mut text = String::from_str(alloc, "refused ")?;
    put_reason(&mut text, refusal)?;
    text.push_str("\n")?;
    Ok(Reply::new(alloc, Verdict::Refused, text))
}

/// The reply to what tiling with the features of a schema comes to.
fn tiled_so(
    alloc: Global,
    request: &MakeRequest,
    schema: &Schema<'_>,
    made: Result<Vec<File>, TileError>,
) -> Result<Reply, AllocError>
    ensures { (ought : Result (List FileOf) TileError) → Meets (λ v. v.items) tile_error_seen made ought
        → IfOk result (λ reply. reply ≡ tiled_answer request.now schema.now ought) }
{
    let out = request.out.as_str();
    match made {
        Ok(files) => made_in(alloc, out, Ok(files)),
        Err(TileError::Refused(refusal)) => refused(alloc, refusal),
        Err(TileError::KeyInTable { row }) => keyed(alloc, schema, row),
        Err(TileError::Limit(name, passed)) => made_in(
            alloc,
            out,
            Err(AddError::Limit(name, passed)),
        ),
        Err(TileError::NoMemory) => Err(AllocError),
    }
}

/// The reply over a coverage and its features in which nothing disagrees.
fn tiled(
    alloc: Global,
    files: &TileFiles,
    request: &MakeRequest,
    checked: &Checked<'_, '_>,
    schema: &Schema<'_>,
) -> Result<Reply, AllocError>
    requires parts { ArePartsOf request.now.lib request.now.cov files.now }
    requires untiled { checked.now.is_tiled ≡ false }
    ensures { (parts : TileParts) → ArePartsFiles request.now.lib request.now.cov files.now parts → checked.now ≡ parts.coverage.coverage
        → IfOk result (λ reply. reply ≡ tables_answer request.now schema.now (tile_at parts.coverage.coverage 0) parts.plan.grid parts.tileref.grid) }
{
    stops_decide();
    let plan = open_plan(alloc, &files.plan)?;
    let tileref = files.tileref.only(alloc)?;
    let cov = request.cov.as_str();
    let made = vpf_tiler::tile(alloc, checked, schema, &plan, &tileref, cov);
    tiled_so(alloc, request, schema, made)
}

/// The reply over a coverage and its features in whose tables nothing disagrees.
fn checked(
    alloc: Global,
    files: &TileFiles,
    request: &MakeRequest,
    featured: &Featured<'_>,
) -> Result<Reply, AllocError>
    requires parts { ArePartsOf request.now.lib request.now.cov files.now }
    requires untiled { featured.now.coverage.is_tiled ≡ false }
    ensures { (parts : TileParts) → ArePartsFiles request.now.lib request.now.cov files.now parts → featured.now.coverage ≡ parts.coverage.coverage
        → featured.now.schema ≡ parts.schema → IfOk result (λ reply. reply
        ≡ tiling_answer request.now parts (placed_finding parts.coverage.files (topology_finding parts.coverage.coverage))) }
{
    match check_topology(alloc, files.featured.coverage.files(), &featured.coverage) {
        Ok(checked) => tiled(alloc, files, request, &checked, &featured.schema),
        Err(FeatureFault::Finding(name, finding)) => disagreement(alloc, name.as_str(), &finding),
        Err(FeatureFault::NoMemory) => Err(AllocError),
    }
}

/// The untiled coverage and the features of files that were loaded, in whose tables nothing disagrees.
fn opened<'a>(
    alloc: Global,
    files: &'a FeaturedFiles,
    request: &MakeRequest,
) -> Result<Featured<'a>, FeatureFault<'a>>
    requires { AreOfUntiledFeatured request.now.lib request.now.cov files.now }
    ensures first { (read : FeaturedCoverage) → AreUntiledFeatured request.now.lib request.now.cov files.now read
        → TellsNamed result (tables_or_features_finding (within request.now.lib request.now.cov) read) }
    ensures coverage { (read : FeaturedCoverage) → AreUntiledFeatured request.now.lib request.now.cov files.now read
        → IfOk result (λ f. f.coverage ≡ read.coverage.coverage) }
    ensures schema { (read : FeaturedCoverage) → AreUntiledFeatured request.now.lib request.now.cov files.now read → IfOk result (λ f. f.schema ≡ read.schema) }
    ensures untiled { IfOk result (λ f. f.coverage.is_tiled ≡ false) }
{
    let featured = open_featured(alloc, files, request.lib.as_str(), request.cov.as_str())?;
    // Each edge is asked for as often as it is in a tile, and more.
    let coverage = featured.coverage.keeping_edges(alloc)?;
    Ok(Featured {
        coverage,
        schema: featured.schema,
    })
}

/// The reply over files that were loaded.
fn read(alloc: Global, files: &TileFiles, request: &MakeRequest) -> Result<Reply, AllocError>
    requires { ArePartsOf request.now.lib request.now.cov files.now }
    ensures { (parts : TileParts) → ArePartsFiles request.now.lib request.now.cov files.now parts
        → IfOk result (λ reply. reply ≡ tiling_answer request.now parts (parts_finding request.now parts)) }
{
    match opened(alloc, &files.featured, request) {
        Ok(featured) => checked(alloc, files, request, &featured),
        Err(FeatureFault::Finding(name, finding)) => disagreement(alloc, name.as_str(), &finding),
        Err(FeatureFault::NoMemory) => Err(AllocError),
    }
}

/// Does `tile`: checks an untiled coverage as `check` does, and makes the files of its tiled library by its plan and the table of tiles of its
/// library, and behind them those of its features, whose thematic indexes are built anew; or tells why there is none: the first place that disagrees, the
/// first cause against the plan, that features are joined by the numbers of primitives, or the first bound that a file would pass. All files are composed
/// before the first is made (MIL-STD-2407, 5.2.3, tiled coverages, cross-tile topology and feature classes).
pub fn tile<T: Tree>(alloc: Global, request: &MakeRequest, tree: &mut T) -> Result<Reply, Halt>
    ensures told { (files : Files) → T.files tree.old ≡ Some files → ComesTo (λ answer. answer ≡ tile_answer files request.now) result }
    ensures fault { TellsFault result (Halt.Stop Stop.TreeFault) (T.faults tree.old) (T.faults tree.new) }
    ensures files { T.files tree.new ≡ T.files tree.old }
{
    let mut loaded = 0;
    let (lib, cov) = (request.lib.as_str(), request.cov.as_str());
    match load_parts(alloc, tree, lib, cov, &mut loaded) {
        Ok(files) => Ok(read(alloc, &files, request)?),
        Err(stop) => stopped(alloc, stop),
    }
}
