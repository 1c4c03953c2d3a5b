//! The tables of a coverage, as those of its tiles are written like them.

ghost use Rattle.std.specs.Prelude.{◌≡◌, ◌<◌, ◌^◌, ◌∷◌, All, IfOk, IsSome, Some, map};
ghost use Rattle.std.specs.Option.{option_map};
ghost use Rattle.vpf_table.specs.Grid.{Grid};
ghost use Rattle.vpf_prims.specs.Roles.{entity_roles};
ghost use Rattle.vpf_prims.specs.Suiting.{HasRoles};
ghost use Rattle.vpf_prims.specs.Tables.{table_named};
ghost use Rattle.vpf_tiling.specs.Presence.{containing_face, held_entities, local_face};
ghost use Rattle.vpf_cutting.specs.Inner.Cuts.{plan_by};
ghost use Rattle.vpf_primitive_tables.specs.Inner.TileTables.Models.{NamesFaces};

use crate::table_forms::{EdgeForm, PairForm, RingForm};
use crate::tile_tables::edges::write_edges;
use crate::tile_tables::pairs::write_pairs;
use crate::tile_tables::rings::write_rings;
use std::alloc::{AllocError, Global};
use std::marker::Model;
use vpf_cut_rings::{CutRing, first_rings};
use vpf_cutting::Cut;
use vpf_findings::TableName;
use vpf_prims::Tile;
use vpf_table::TableView;
use vpf_triplet::Kind;
use vpf_write::{WriteError, Written};

/// The primitive tables of an untiled coverage, as those of its tiles are written like them: with the same headers, but for the kinds of ids
/// and of references, and with the same rows, but for the ids and the references in them (MIL-STD-2407, 5.2.2, primitives). Ids become
/// numbers of 4 bytes; so do references, but for those of edges, which become triplet ids. Each table is written row by row, and its rows
/// take no memory but for their bytes. Contracts see it as the tables.
#[derive(Drop)]
pub struct Forms<'t, 'a> {
    edg: EdgeForm<'t, 'a>,
    fac: PairForm<'t, 'a>,
    rng: RingForm<'t, 'a>,
    cnd: PairForm<'t, 'a>,
    end: Option<PairForm<'t, 'a>>,
}

impl<'t, 'a> Model for Forms<'t, 'a> {
    ghost use Rattle.vpf_prims.specs.Reading.{PrimitiveTables};

    ghost Value = { PrimitiveTables };

    ghost use Rattle.vpf_primitive_tables.specs.Inner.TileTables.Models.{AreForms, tables_like};

    ghost view = { tables_like };

    ghost invariant = { AreForms };
}

/// The table of this name, which each tile has.
fn table_of<'t, 'a>(tile: &'t Tile<'a>, name: TableName) -> &'t TableView<'a>
    requires { IsSome (table_named tile.now name) }
    ensures { table_named tile.now name ≡ Some result.now }
{
    match tile.table(name) {
        Some(table) => table,
        None => unreachable!(),
    }
}

/// The table of entity nodes, where there is one.
fn entities_of<'t, 'a>(tile: &'t Tile<'a>) -> Result<Option<PairForm<'t, 'a>>, AllocError>
    requires { (grid : Grid) → tile.now.tables.end ≡ Some grid → HasRoles entity_roles grid }
    ensures tables { IfOk result (λ end. option_map (λ end. end.table) end ≡ tile.now.tables.end) }
    ensures named { IfOk result NamesFaces }
{
    match tile.table(TableName::End) {
        Some(table) => Ok(Some(PairForm::new(table, b"containing_face")?)),
        None => Ok(None),
    }
}

/// The faces that a tile holds behind the universe.
fn with_universe(alloc: Global, held: &[u32]) -> Result<Vec<u32>, AllocError>
    ensures { IfOk result (λ faces. faces.items ≡ 1 ∷ held.now) }
{
    let mut faces = Vec::with_capacity(alloc, held.len() + 1)?;
    faces.push(1)?;
    faces.extend_from_slice(held)?;
    Ok(faces)
}

/// The faces that the entity nodes of a tile lie in, by their numbers there.
fn faces_of_entities(alloc: Global, cut: &Cut<'_, '_>, tile: u32) -> Result<Vec<u32>, AllocError>
    ensures faces { IfOk result (λ faces. faces.items ≡ map (λ n. local_face cut.now.source (plan_by cut.now.plan) tile (containing_face cut.now.source n))
        (held_entities cut.now.source (plan_by cut.now.plan) tile)) }
    ensures small { IfOk result (λ faces. All (λ face. face < 2 ^ 31) faces.items) }
{
    let entities = cut.entities_in(tile);
    let mut faces = Vec::with_capacity(alloc, entities.len())?;
    for entity in entities {
        faces.push(cut.entity(tile, *entity))?;
    }
    Ok(faces)
}

impl<'t, 'a> Forms<'t, 'a> {
    ghost use Rattle.std.specs.Prelude.{◌≡◌, ◌<◌, ◌^◌, All, IfOk, length, map};
    ghost use Rattle.vpf_write.specs.Writing.{Writes};
    ghost use Rattle.vpf_prims.specs.Reading.{primitives_of};
    ghost use Rattle.vpf_prims.specs.Suiting.{HasColumns};
    ghost use Rattle.vpf_tiling.specs.Tiles.{tiled_rings};
    ghost use Rattle.vpf_cutting.specs.Inner.Cuts.{plan_by};
    ghost use Rattle.vpf_primitive_tables.specs.TileTables.Grids.{WritesWhere, edges_made, entities_made, faces_made, nodes_made, rings_made};
    ghost use Rattle.vpf_cut_rings.specs.Inner.Rings.{HasSmallNumbers, ring_of};

    /// The tables of an untiled coverage, in their files. Fails where memory for their headers runs out.
    pub fn new(tile: &'t Tile<'a>) -> Result<Forms<'t, 'a>, AllocError>
        requires { HasColumns tile.now.tables }
        ensures { IfOk result (λ forms. forms ≡ tile.now.tables) }
    {
        Ok(Forms {
            edg: EdgeForm::new(table_of(tile, TableName::Edg), Kind::K)?,
            fac: PairForm::new(table_of(tile, TableName::Fac), b"ring_ptr")?,
            rng: RingForm::new(table_of(tile, TableName::Rng))?,
            cnd: PairForm::new(table_of(tile, TableName::Cnd), b"first_edge")?,
            end: entities_of(tile)?,
        })
    }

    /// The table of the edges of a tile, `edg`: what each names goes on in another tile where its nodes, faces or wings do (MIL-STD-2407,
    /// 5.2.3, cross-tile topology). An error tells the limit that the table would pass, or that memory ran out.
    pub fn edges(&self, alloc: Global, cut: &Cut<'_, '_>, tile: u32) -> Result<Written, WriteError>
        requires { cut.now.source ≡ primitives_of self.now }
        ensures { Writes (edges_made self.now.edg cut.now.source (plan_by cut.now.plan) tile) result }
    {
        write_edges(alloc, &self.edg, cut, tile)
    }

    /// The table of the faces of a tile, `fac`: the universe, and those that it holds, each with the number of its first ring, 0 where it has
    /// none. The rings of the tile are given in their order. An error tells the limit that the table would pass, or that memory ran out.
    pub fn faces(
        &self,
        alloc: Global,
        cut: &Cut<'_, '_>,
        tile: u32,
        rings: &[CutRing],
    ) -> Result<Written, WriteError>
        requires source { cut.now.source ≡ primitives_of self.now }
        requires rings { map ring_of rings.now ≡ tiled_rings cut.now.source (plan_by cut.now.plan) tile }
        requires few { length rings.now < 2 ^ 31 }
        ensures { Writes (faces_made self.now.fac cut.now.source (plan_by cut.now.plan) tile) result }
    {
        // What is so of each cut: its coverage has a universe.
        cut.plan_holds();
        let all = with_universe(alloc, cut.faces_in(tile))?;
        let faces = all.as_slice();
        let ring_ptrs = first_rings(alloc, faces.len() as u32, rings)?;
        write_pairs(alloc, &self.fac, faces, &ring_ptrs)
    }

    /// The table of the rings of a tile, `rng`, which are given in their order. An error tells the limit that the table would pass, or that
    /// memory ran out.
    pub fn rings(
        &self,
        alloc: Global,
        cut: &Cut<'_, '_>,
        tile: u32,
        rings: &[CutRing],
    ) -> Result<Written, WriteError>
        requires source { cut.now.source ≡ primitives_of self.now }
        requires rings { map ring_of rings.now ≡ tiled_rings cut.now.source (plan_by cut.now.plan) tile }
        requires few { length rings.now < 2 ^ 31 }
        requires small { All HasSmallNumbers rings.now }
        ensures { Writes (rings_made self.now.rng cut.now.source (plan_by cut.now.plan) tile) result }
    {
        write_rings(alloc, &self.rng, rings)
    }

    /// The table of the connected nodes of a tile, `cnd`, each with the number of its first edge there. An error tells the limit that the table
    /// would pass, or that memory ran out.
    pub fn nodes(&self, alloc: Global, cut: &Cut<'_, '_>, tile: u32) -> Result<Written, WriteError>
        requires { cut.now.source ≡ primitives_of self.now }
        ensures { Writes (nodes_made self.now.cnd cut.now.source (plan_by cut.now.plan) tile) result }
    {
        let first_edges = cut.first_edges(alloc, tile)?;
        write_pairs(alloc, &self.cnd, cut.nodes_in(tile), &first_edges)
    }

    /// The table of the entity nodes of a tile, `end`, each with the number of its face there. None where the coverage has no table of them. An
    /// error tells the limit that the table would pass, or that memory ran out.
    pub fn entities(
        &self,
        alloc: Global,
        cut: &Cut<'_, '_>,
        tile: u32,
    ) -> Result<Option<Written>, WriteError>
        requires { cut.now.source ≡ primitives_of self.now }
        ensures { WritesWhere self.now.end (λ end. entities_made end cut.now.source (plan_by cut.now.plan) tile) result }
    {
        let Some(end) = &self.end else {
            return Ok(None);
        };
        let faces = faces_of_entities(alloc, cut, tile)?;
        match write_pairs(alloc, end, cut.entities_in(tile), &faces) {
            Ok(written) => Ok(Some(written)),
            Err(error) => Err(error),
        }
    }
}
