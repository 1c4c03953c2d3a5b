//! A coverage that is tiled.

ghost use Rattle.std.specs.Prelude.{◌≡◌, IfOk, Some, false, length};
ghost use Rattle.vpf_base.specs.Results.{Meets};
ghost use Rattle.vpf_prims.specs.Coverages.{tile_at};
ghost use Rattle.vpf_prims.specs.Reading.{primitives_of};
ghost use Rattle.vpf_prims.specs.Suiting.{HasColumns};
ghost use Rattle.vpf_prims.specs.Tables.{TileTables};
ghost use Rattle.vpf_wing.specs.WellFormed.{IsWellFormed};
ghost use Rattle.vpf_tiling.specs.Plan.Plans.{IsPlanTable};
ghost use Rattle.vpf_library_files.specs.TableFiles.Adding.{error_seen, made_of_tables};
ghost use Rattle.vpf_library_files.specs.Tileref.Stops.{IsBounded};
ghost use Rattle.vpf_library_files.specs.Tileref.Tileref.{IsTileref};
ghost use Rattle.vpf_cutting.specs.Inner.Cuts.{plan_by};
ghost use Rattle.vpf_feature_files.specs.Schemas.{joins_of};
ghost use Rattle.vpf_feature_writing.specs.Keys.{numbered_row};
ghost use Rattle.vpf_feature_writing.specs.Making.{features_made, made_then};
ghost use Rattle.vpf_tiler.specs.TileFiles.Tables.{library_tables};
ghost use Rattle.vpf_tiler.specs.Making.{made_result, tile_error_seen, tiled_with_features, unless_keyed};
ghost use Rattle.vpf_tiler.specs.Inner.TiledFeatures.Folders.{AreFeaturesGiven, InEachFolderWith, IsHeldWithFeatures, OfEachCoverageWith};
ghost use Rattle.vpf_tiler.specs.Tilings.{GoesOnAs, HasCyclesOf, IsGluedTo, tiling_of};

use crate::errors::TileError;
use crate::sources::{cut_by, paths_of, source_of, source_reads};
use crate::tile_files::Making;
use crate::tiled_features::laws::featured_agrees;
use std::alloc::{AllocError, Global};
use vpf_cross::Checked;
use vpf_cutting::Cut;
use vpf_feature_writing::vpf_features::Schema;
use vpf_feature_writing::{numbered_row, with_features};
use vpf_library_files::table_files::AddError;
use vpf_primitive_tables::cut_rings::CutRings;
use vpf_primitive_tables::tile_tables::Forms;
use vpf_prims::Tile;
use vpf_source::File;
use vpf_table::TableView;

/// What the tables of tiles are made of.
fn making_of<'w, 't, 'a>(
    alloc: Global,
    source: &'t Tile<'a>,
    cut: &'w Cut<'t, 'a>,
) -> Result<Making<'w, 't, 'a>, AllocError>
    requires { HasColumns source.now.tables }
    ensures cut { IfOk result (λ making. making.cut.now ≡ cut.now) }
    ensures rings { IfOk result (λ making. making.rings ≡ cut.now) }
    ensures forms { IfOk result (λ making. making.forms ≡ source.now.tables) }
{
    let rings = CutRings::new(alloc, cut)?;
    let forms = Forms::new(source)?;
    Ok(Making { cut, rings, forms })
}

/// The files of the library of what they are made of.
fn files_with(
    alloc: Global,
    making: &Making<'_, '_, '_>,
    tileref: &TableView<'_>,
    cov: &str,
) -> Result<Vec<File>, AddError>
    requires source { making.now.cut.now.source ≡ primitives_of making.now.forms }
    requires rings { making.now.rings ≡ making.now.cut.now }
    requires tileref { IsTileref tileref.now }
    requires bounded { IsBounded tileref.now }
    requires tiles { making.now.cut.now.tiles ≡ length tileref.now.rows }
    ensures { Meets (λ files. files.items) error_seen result
        (made_of_tables (library_tables cov.now making.now.forms making.now.cut.now.source (plan_by making.now.cut.now.plan) tileref.now)) }
{
    let paths = paths_of(alloc, tileref)?;
    making.files(alloc, cov, tileref, &paths)
}

/// The files of the library of these tables, as they are cut.
fn files_of_cut<'t, 'a>(
    alloc: Global,
    source: &'t Tile<'a>,
    cut: &Cut<'t, 'a>,
    tileref: &TableView<'_>,
    cov: &str,
) -> Result<Vec<File>, AddError>
    requires columns { HasColumns source.now.tables }
    requires cut { cut.now.source ≡ primitives_of source.now.tables }
    requires tileref { IsTileref tileref.now }
    requires bounded { IsBounded tileref.now }
    requires tiles { cut.now.tiles ≡ length tileref.now.rows }
    ensures { Meets (λ files. files.items) error_seen result
        (made_of_tables (library_tables cov.now source.now.tables cut.now.source (plan_by cut.now.plan) tileref.now)) }
{
    let making = making_of(alloc, source, cut)?;
    files_with(alloc, &making, tileref, cov)
}

/// The same, and behind them the files of the features.
fn featured_files_of_cut<'t, 'a>(
    alloc: Global,
    source: &'t Tile<'a>,
    cut: &Cut<'t, 'a>,
    schema: &Schema<'_>,
    tileref: &TableView<'_>,
    cov: &str,
) -> Result<Vec<File>, AddError>
    requires columns { HasColumns source.now.tables }
    requires cut { cut.now.source ≡ primitives_of source.now.tables }
    requires tileref { IsTileref tileref.now }
    requires bounded { IsBounded tileref.now }
    requires tiles { cut.now.tiles ≡ length tileref.now.rows }
    ensures { Meets (λ files. files.items) error_seen result
        (made_then (made_of_tables (library_tables cov.now source.now.tables cut.now.source (plan_by cut.now.plan) tileref.now)) (features_made cov.now schema.now)) }
{
    let tables = files_of_cut(alloc, source, cut, tileref, cov);
    with_features(alloc, cov, schema, tables)
}

/// The same, unless a row of the schema table joins features to primitives by these' numbers.
fn unkeyed_files_of_cut<'t, 'a>(
    alloc: Global,
    source: &'t Tile<'a>,
    cut: &Cut<'t, 'a>,
    schema: &Schema<'_>,
    tileref: &TableView<'_>,
    cov: &str,
) -> Result<Vec<File>, TileError>
    requires columns { HasColumns source.now.tables }
    requires cut { cut.now.source ≡ primitives_of source.now.tables }
    requires tileref { IsTileref tileref.now }
    requires bounded { IsBounded tileref.now }
    requires tiles { cut.now.tiles ≡ length tileref.now.rows }
    ensures { Meets (λ files. files.items) tile_error_seen result (unless_keyed (numbered_row (joins_of schema.now.fcs)) (made_result
        (made_then (made_of_tables (library_tables cov.now source.now.tables cut.now.source (plan_by cut.now.plan) tileref.now))
        (features_made cov.now schema.now)))) }
{
    if let Some(row) = numbered_row(alloc, schema)? {
        return Err(TileError::KeyInTable { row });
    }
    Ok(featured_files_of_cut(alloc, source, cut, schema, tileref, cov)?)
}

/// The files of the tiled library of these tables and features, or the first cause why there are none.
fn cut_files(
    alloc: Global,
    source: &Tile<'_>,
    schema: &Schema<'_>,
    plan: &TableView<'_>,
    tileref: &TableView<'_>,
    cov: &str,
) -> Result<Vec<File>, TileError>
    requires columns { HasColumns source.now.tables }
    requires well_formed { IsWellFormed (primitives_of source.now.tables) }
    requires plan { IsPlanTable plan.now }
    requires tileref { IsTileref tileref.now }
    requires bounded { IsBounded tileref.now }
    ensures { Meets (λ files. files.items) tile_error_seen result (tiled_with_features cov.now source.now.tables schema.now plan.now tileref.now) }
{
    let cut = cut_by(alloc, source, plan, tileref.len())?;
    unkeyed_files_of_cut(alloc, source, &cut, schema, tileref, cov)
}

/// The files of the tiled library of an untiled coverage with its features, cut by a plan that names a tile for each of its faces but the universe, and by a
/// table of tiles that names their folders (MIL-STD-2407, 5.2.3, tiled coverages, cross-tile topology and feature classes).
///
/// First comes the table of tiles, `tileref/tileref.aft`, and then for each tile that holds a face, and for the first in any case, `edg`, `fac`,
/// `rng`, `cnd`, and `end` where the coverage has one, in the tile's folder within `cov`, the name of the coverage; the index of each follows it
/// where its rows vary. Headers are those of the given tables, with ids and references as numbers, and references of edges as triplet ids. Behind them come
/// the files of the features, in the folder of the coverage: tables as they are, and thematic indexes built anew.
///
/// `Refused` tells the first cause against tiling, before any other: a face that the plan doesn't name or puts into no tile, an edge with the
/// universe on both sides, or an entity node in the universe. `KeyInTable` comes next, before any file is composed: the first row of the schema table that
/// joins features to primitives by these' numbers. `Limit` tells the first file that would pass a bound. All files are composed
/// before any is made, and beside them memory is taken for so many numbers a primitive.
pub fn tile(
    alloc: Global,
    checked: &Checked<'_, '_>,
    schema: &Schema<'_>,
    plan: &TableView<'_>,
    tileref: &TableView<'_>,
    cov: &str,
) -> Result<Vec<File>, TileError>
    requires untiled { checked.now.is_tiled ≡ false }
    requires plan { IsPlanTable plan.now }
    requires tileref { IsTileref tileref.now }
    requires bounded { IsBounded tileref.now }
    // The files, or the first cause why there are none.
    ensures exact { (tables : TileTables) → tile_at checked.now 0 ≡ Some tables
        → Meets (λ files. files.items) tile_error_seen result (tiled_with_features cov.now tables.tables schema.now plan.now tileref.now) }
    // Each folder that holds exactly these files holds the coverage in tiles with its features, and they agree.
    ensures accepted { (tables : TileTables) → tile_at checked.now 0 ≡ Some tables → AreFeaturesGiven schema.now
        → IfOk result (λ files. InEachFolderWith schema.now cov.now files.items
        (IsHeldWithFeatures (tiling_of tables.tables plan.now tileref.now) cov.now schema.now)) }
    // Whatever coverage such a folder holds goes on as the coverage does: its map is the same, each dart called by its name.
    ensures next { (tables : TileTables) → tile_at checked.now 0 ≡ Some tables → AreFeaturesGiven schema.now
        → IfOk result (λ files. OfEachCoverageWith schema.now cov.now files.items (GoesOnAs (tiling_of tables.tables plan.now tileref.now))) }
    // It has the boundary cycles of the coverage, lines between tiles passed over.
    ensures cycles { (tables : TileTables) → tile_at checked.now 0 ≡ Some tables → AreFeaturesGiven schema.now
        → IfOk result (λ files. OfEachCoverageWith schema.now cov.now files.items (HasCyclesOf (tiling_of tables.tables plan.now tileref.now))) }
    // It is glued to the coverage, renumbered, and its plan names the same tiles.
    ensures glued { (tables : TileTables) → tile_at checked.now 0 ≡ Some tables → AreFeaturesGiven schema.now
        → IfOk result (λ files. OfEachCoverageWith schema.now cov.now files.items (IsGluedTo (tiling_of tables.tables plan.now tileref.now))) }
{
    featured_agrees();
    source_reads(tileref);
    // The name of the coverage is text.
    let _text = cov.as_bytes();
    let source = source_of(checked);
    cut_files(alloc, source, schema, plan, tileref, cov)
}
