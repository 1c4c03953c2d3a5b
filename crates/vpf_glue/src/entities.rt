//! The table of the entity nodes of a glued coverage.

ghost use Rattle.std.specs.Prelude.{◌≡◌, ◌+◌, ◌<◌, ◌≤◌, ◌^◌, ◌++◌, [], IfOk, List, OnOk, Some, codes, length, map};
ghost use Rattle.vpf_base.specs.Limits.{most_rows};
ghost use Rattle.vpf_findings.specs.declared.finding.TableName.TheVariants.{End};
ghost use Rattle.vpf_head.specs.Inner.Soundness.{IsSound};
ghost use Rattle.vpf_table.specs.Grid.{Row};
ghost use Rattle.vpf_write.specs.Inner.Tallies.{Holds};
ghost use Rattle.vpf_write.specs.Writing.{Writes};
ghost use Rattle.vpf_tiling.specs.Ranks.{numbered, numbered_from};
ghost use Rattle.vpf_primitive_tables.specs.TableForms.Forms.{head_like, pair_kinds};
ghost use Rattle.vpf_glue.specs.GluedTables.Grids.{entity_source, entity_sources, glued_entity_grid, glued_entity_row};
ghost use Rattle.vpf_glue.specs.Inner.Forms.{IsEndForm};
ghost use Rattle.vpf_glue.specs.Inner.Sources.{sources_of, table_in};

use crate::glued_tables::laws::rows_of_tiles_fit;
use crate::sources::{end_of, numbers_are_right};
use std::alloc::{AllocError, Global};
use vpf_primitive_tables::table_forms::{PairForm, row_of};
use vpf_renumbering::glued_faces::GluedFaces;
use vpf_table::TableView;
use vpf_write::revise::RevisedTable;
use vpf_write::{WriteError, Written};

/// Appends the rows of a tile's table of entity nodes behind so many others.
fn put_rows<'a>(
    form: &PairForm<'_, 'a>,
    faces: &GluedFaces<'_, '_, 'a>,
    tile: u32,
    end: &TableView<'a>,
    before: u32,
    made: &mut RevisedTable<'_, '_, 'a>,
) -> Result<(), AllocError>
    requires form { IsEndForm faces.now form.now }
    requires table { table_in faces.now tile End ≡ Some end.now }
    requires sound { IsSound end.now.head }
    requires few { before + length end.now.rows < 2 ^ 31 }
    requires head { made.old.head ≡ head_like form.now.table (pair_kinds (codes "containing_face")) }
    ensures head { made.new.head ≡ made.old.head }
    ensures put { OnOk result ((rows : List Row) → Holds made.old rows → Holds made.new
        (rows ++ numbered_from (before + 1) (glued_entity_row form.now.table.head.columns faces.now) (map
        (entity_source tile end.now.head.columns) end.now.rows))) }
{
    numbers_are_right(faces.checked());
    rows_of_tiles_fit();
    for k in 0..end.len() {
        let row = row_of(end, k + 1);
        let face = faces.containing_face(tile, k + 1);
        form.put(made, before + k + 1, &row, face)?;
    }
    Ok(())
}

/// Appends the entity nodes of a tile behind so many others, and answers how many there are then.
fn put_tile<'a>(
    form: &PairForm<'_, 'a>,
    faces: &GluedFaces<'_, '_, 'a>,
    tile: u32,
    before: u32,
    made: &mut RevisedTable<'_, '_, 'a>,
) -> Result<u32, AllocError>
    requires form { IsEndForm faces.now form.now }
    requires few { before + length (sources_of faces.now tile) < 2 ^ 31 }
    requires head { made.old.head ≡ head_like form.now.table (pair_kinds (codes "containing_face")) }
    ensures count { IfOk result (λ count. count ≡ before + length (sources_of faces.now tile)) }
    ensures head { made.new.head ≡ made.old.head }
    ensures put { OnOk result ((rows : List Row) → Holds made.old rows → Holds made.new
        (rows ++ numbered_from (before + 1) (glued_entity_row form.now.table.head.columns faces.now) (sources_of faces.now tile))) }
{
    let Some(end) = end_of(faces.checked().coverage(), tile) else {
        return Ok(before);
    };
    put_rows(form, faces, tile, end, before, made)?;
    Ok(before + end.len())
}

/// Appends the entity nodes of all tiles.
fn put_all<'a>(
    form: &PairForm<'_, 'a>,
    faces: &GluedFaces<'_, '_, 'a>,
    made: &mut RevisedTable<'_, '_, 'a>,
) -> Result<(), AllocError>
    requires form { IsEndForm faces.now form.now }
    requires few { length (entity_sources faces.now) ≤ most_rows }
    requires head { made.old.head ≡ head_like form.now.table (pair_kinds (codes "containing_face")) }
    requires holds { Holds made.old [] }
    ensures head { made.new.head ≡ made.old.head }
    ensures put { OnOk result (Holds made.new (numbered (glued_entity_row form.now.table.head.columns faces.now) (entity_sources faces.now))) }
{
    let mut count = 0;
    for tile in 0..=faces.checked().coverage().tiles() {
        let after = put_tile(form, faces, tile, count, made)?;
        count = after;
    }
    Ok(())
}

/// The table of entity nodes: the rows of all tiles, tile by tile, each with the number of its face.
pub(crate) fn write_entities<'a>(
    alloc: Global,
    form: &PairForm<'_, 'a>,
    faces: &GluedFaces<'_, '_, 'a>,
) -> Result<Written, WriteError>
    requires form { IsEndForm faces.now form.now }
    requires few { length (entity_sources faces.now) ≤ most_rows }
    ensures { Writes (glued_entity_grid form.now.table faces.now) result }
{
    let mut made = form.begin(alloc)?;
    put_all(form, faces, &mut made)?;
    made.finish()
}
