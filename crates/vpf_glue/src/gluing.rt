//! Gluing: the tables of a glued coverage, one behind another.

ghost use Rattle.std.specs.Prelude.{◌≡◌, ◌∷◌, [], IfOk, IfSome, Some, true};
ghost use Rattle.std.specs.Option.{option_map};
ghost use Rattle.vpf_base.specs.Results.{Meets};
ghost use Rattle.vpf_head.specs.Inner.Soundness.{IsSound};
ghost use Rattle.vpf_prims.specs.Coverages.{tile_at};
ghost use Rattle.vpf_prims.specs.Libraries.{library_of};
ghost use Rattle.vpf_prims.specs.Tables.{table_named};
ghost use Rattle.vpf_write.specs.Writing.{Writes};
ghost use Rattle.vpf_library_files.specs.Tileref.Tileref.{IsTileref};
ghost use Rattle.vpf_cross.specs.CarriedLines.{first_tile};
ghost use Rattle.vpf_primitive_tables.specs.Inner.TableForms.Models.{PairsLike};
ghost use Rattle.vpf_library_files.specs.TableFiles.Adding.{Adds, error_seen};
ghost use Rattle.vpf_glue.specs.GluedTables.Grids.{glued_entity_grid, glued_tables, plan_grid};
ghost use Rattle.vpf_glue.specs.Inner.Forms.{AreGluedForms, IsEndForm, tables_by};
ghost use Rattle.vpf_glue.specs.Tables.{glued_coverage_tables, end_tables, glued_made, glued_with_features, last_tables};

use crate::edges::write_edges;
use crate::entities::write_entities;
use crate::faces::write_faces;
use crate::glued_tables::{GluedForms, overfull, write_plan};
use crate::nodes::write_nodes;
use crate::plan::tiles_of_faces;
use crate::rings::write_rings;
use crate::sources::{first_end_of, first_of, numbers_are_right};
use std::alloc::{AllocError, Global};
use vpf_base::limits::MOST_ROWS;
use vpf_cross::Checked;
use vpf_feature_writing::vpf_features::Schema;
use vpf_feature_writing::with_features;
use vpf_findings::TableName;
use vpf_library_files::table_files::{AddError, add_table};
use vpf_primitive_tables::table_forms::PairForm;
use vpf_primitive_tables::tile_tables::write_tiles;
use vpf_prims::Tile;
use vpf_renumbering::glued_edges::{GluedEdges, edge_count};
use vpf_renumbering::glued_faces::{GluedFaces, entity_count};
use vpf_source::File;
use vpf_table::TableView;
use vpf_write::{WriteError, Written};

/// What is so of each table of a tile: its header is sound.
fn header_stays_sound(tile: &Tile<'_>, name: TableName)
    ensures { IfSome (table_named tile.now name) (λ grid. IsSound grid.head) }
{
    if let Some(table) = tile.table(name) {
        let _columns = table.header().len();
    }
}

/// How the tables are written: like those of this tile, the first that has any, and like the first table of entity nodes.
fn forms_of<'c, 'a>(
    checked: &Checked<'c, 'a>,
    first: &'c Tile<'a>,
) -> Result<GluedForms<'c, 'a>, AllocError>
    requires { tile_at checked.now (first_tile (library_of checked.now)) ≡ Some first.now }
    ensures tables { IfOk result (λ forms. tables_by forms checked.now ≡ glued_tables first.now.tables checked.now) }
    ensures forms { IfOk result (AreGluedForms checked.now) }
{
    numbers_are_right(checked);
    header_stays_sound(first, TableName::Edg);
    header_stays_sound(first, TableName::Fac);
    header_stays_sound(first, TableName::Cnd);
    GluedForms::new(first, first_end_of(checked))
}

/// The table of entity nodes, or the limit that it passes: all tiles can have more of them than a table has rows.
fn entities_written<'a>(
    alloc: Global,
    form: &PairForm<'_, 'a>,
    faces: &GluedFaces<'_, '_, 'a>,
) -> Result<Written, WriteError>
    requires { IsEndForm faces.now form.now }
    ensures { Writes (glued_entity_grid form.now.table faces.now) result }
{
    let count = entity_count(faces.checked());
    if count > u64::from(MOST_ROWS) {
        return Err(overfull(form.header(), count));
    }
    write_entities(alloc, form, faces)
}

/// Adds the table of entity nodes, where there is one.
fn add_entities<'a>(
    alloc: Global,
    cov: &str,
    end: &Option<PairForm<'_, 'a>>,
    faces: &GluedFaces<'_, '_, 'a>,
    files: &mut Vec<File>,
) -> Result<(), AddError>
    requires { IfSome end.now (IsEndForm faces.now) }
    ensures { Adds (end_tables cov.now (option_map (λ (end : PairsLike). glued_entity_grid end.table faces.now) end.now)) files.old.items files.new.items result }
{
    match end {
        Some(form) => {
            let written = entities_written(alloc, form, faces);
            add_table(alloc, cov, "end", written, files)
        }
        None => Ok(()),
    }
}

/// The plan of the glued coverage: the tile of each of its faces.
fn plan_written(alloc: Global, faces: &GluedFaces<'_, '_, '_>) -> Result<Written, WriteError>
    ensures { Writes (plan_grid faces.now) result }
{
    // What is so of the faces of each glued coverage: they are few.
    let _count = faces.count();
    let tiles = tiles_of_faces(alloc, faces)?;
    write_plan(alloc, tiles.as_slice())
}

/// Adds the table of entity nodes, where there is one, and the plan.
fn add_last<'a>(
    alloc: Global,
    cov: &str,
    end: &Option<PairForm<'_, 'a>>,
    faces: &GluedFaces<'_, '_, 'a>,
    files: &mut Vec<File>,
) -> Result<(), AddError>
    requires { IfSome end.now (IsEndForm faces.now) }
    ensures { Adds (last_tables cov.now (option_map (λ (end : PairsLike). glued_entity_grid end.table faces.now) end.now) (plan_grid faces.now))
        files.old.items files.new.items result }
{
    add_entities(alloc, cov, end, faces, files)?;
    let plan = plan_written(alloc, faces);
    add_table(alloc, cov, "plan", plan, files)
}

/// Adds the tables of the coverage and its plan.
fn add_all<'c, 'a>(
    alloc: Global,
    cov: &str,
    forms: &GluedForms<'c, 'a>,
    edges: &GluedEdges<'_, 'c, 'a>,
    faces: &GluedFaces<'_, 'c, 'a>,
    files: &mut Vec<File>,
) -> Result<(), AddError>
    requires same { faces.now ≡ edges.now }
    requires forms { AreGluedForms edges.now forms.now }
    ensures { Adds (glued_coverage_tables cov.now (tables_by forms.now edges.now) (plan_grid edges.now)) files.old.items files.new.items result }
{
    let made = faces.rings(alloc)?;
    let rings = made.as_slice();
    let first_rings = faces.ring_ptrs(alloc, rings)?;
    let ring_ptrs = first_rings.as_slice();
    let edg = write_edges(alloc, &forms.edg, edges, faces);
    add_table(alloc, cov, "edg", edg, files)?;
    let fac = write_faces(alloc, &forms.fac, faces, ring_ptrs);
    add_table(alloc, cov, "fac", fac, files)?;
    let rng = write_rings(alloc, &forms.rng, edges, rings);
    add_table(alloc, cov, "rng", rng, files)?;
    let cnd = write_nodes(alloc, &forms.cnd, edges);
    add_table(alloc, cov, "cnd", cnd, files)?;
    add_last(alloc, cov, &forms.end, faces, files)
}

/// The same, unless all tiles have more edges than a table has rows: then it is that limit, and no numbers are made.
fn add_coverage<'c, 'a>(
    alloc: Global,
    cov: &str,
    checked: &Checked<'c, 'a>,
    forms: &GluedForms<'c, 'a>,
    files: &mut Vec<File>,
) -> Result<(), AddError>
    requires { AreGluedForms checked.now forms.now }
    ensures { Adds (glued_coverage_tables cov.now (tables_by forms.now checked.now) (plan_grid checked.now)) files.old.items files.new.items result }
{
    let count = edge_count(checked);
    if count > u64::from(MOST_ROWS) {
        let error = overfull(forms.edg.header(), count);
        return add_table(alloc, cov, "edg", Err(error), files);
    }
    let edges = GluedEdges::new(alloc, checked)?;
    let faces = GluedFaces::new(alloc, checked)?;
    add_all(alloc, cov, forms, &edges, &faces, files)
}

/// The files of the tables that the tiles of a coverage are joined into, its plan and its table of tiles; none where no tile has tables.
fn glued_files(
    alloc: Global,
    checked: &Checked<'_, '_>,
    tileref: &TableView<'_>,
    cov: &str,
) -> Result<Vec<File>, AddError>
    requires tiled { checked.now.is_tiled ≡ true }
    requires tileref { IsTileref tileref.now }
    ensures { Meets (λ files. files.items) error_seen result (glued_made cov.now checked.now tileref.now) }
{
    let mut files = Vec::new(alloc);
    let Some(first) = first_of(checked) else {
        return Ok(files);
    };
    let tiles = write_tiles(alloc, tileref);
    add_table(alloc, "tileref", "tileref.aft", tiles, &mut files)?;
    let forms = forms_of(checked, first)?;
    add_coverage(alloc, cov, checked, &forms, &mut files)?;
    Ok(files)
}

/// Joins the tiles of a tiled coverage of this name into one untiled coverage with its features, and a plan that tells in which tile each face was: what
/// tiling by that plan undoes (MIL-STD-2407, 5.2.3, tiled coverages, cross-tile topology and feature classes).
///
/// The files are, in this order: the table of tiles, `tileref/tileref.aft`, whose ids are renumbered and whose other cells stay; and in the
/// folder of the coverage `edg`, `fac`, `rng`, `cnd`, `end` where a tile has one, and `plan`, each with its index behind it where its rows
/// vary; and behind these the files of the features, tables as they are and thematic indexes built anew. Each table of primitives has the header of the first
/// tile that has the table, with numbers of 4 bytes for ids and references. Each row is a row of a tile with new numbers; its other cells stay.
///
/// Numbers count from 1. An edge that tiles share is one, and goes by the tile and the number of its home `+` dart, the dart whose face is
/// in the tile. Face 1 is the universe of all tiles, and the other faces come after it by tile and number. A node goes by the least dart that
/// begins there. Entity nodes come by tile and number. A ring of the universe stands for each walk along it, by the least dart; the rings of
/// the other faces come after these, by their faces and in the order of their tiles.
///
/// Where a file would pass a bound, the answer is the limit of the first that would, under its name, and no files are given. Also where there is
/// too little memory: the files are held until all are made, besides those that were read, and a few numbers for each dart, face and ring.
pub fn glue(
    alloc: Global,
    checked: &Checked<'_, '_>,
    schema: &Schema<'_>,
    tileref: &TableView<'_>,
    cov: &str,
) -> Result<Vec<File>, AddError>
    requires tiled { checked.now.is_tiled ≡ true }
    requires tileref { IsTileref tileref.now }
    ensures exact { Meets (λ files. files.items) error_seen result (glued_with_features cov.now checked.now schema.now tileref.now) }
{
    let tables = glued_files(alloc, checked, tileref, cov);
    with_features(alloc, cov, schema, tables)
}
