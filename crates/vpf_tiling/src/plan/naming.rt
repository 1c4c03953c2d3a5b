//! The tiles that a plan names for faces.

ghost use Rattle.std.specs.Prelude.{◌≡◌, ◌<◌, ℕ, IfOk, None, length, replicate, slice_index_or, suc};
ghost use Rattle.vpf_findings.specs.Firsts.{◌or◌};
ghost use Rattle.vpf_prims.specs.Columns.{IsWithin, role_at};
ghost use Rattle.vpf_prims.specs.Lists.{kth};
ghost use Rattle.vpf_prims.specs.Numbering.{IsRowOf};
ghost use Rattle.vpf_tiling.specs.Plan.Named.{named_in_row, named_tile, tiles_named};
ghost use Rattle.vpf_tiling.specs.Plan.Plans.{IsPlanTable};

use crate::plan::columns::PlanColumns;
use crate::plan::laws::plans_decide;
use std::alloc::{AllocError, Global};
use std::marker::Model;
use vpf_prims::{cell_at, number_in, signed_in};
use vpf_table::{RowView, TableView};

/// The tiles that a plan names for the faces of a coverage. Contracts see it as the list of them, from face 1 on.
///
/// Takes 8 bytes for each face.
#[derive(Drop)]
pub struct NamedTiles {
    tiles: Vec<Option<i32>>,
}

impl Model for NamedTiles {
    ghost use Rattle.std.specs.Prelude.{ℤ, List, Option};

    ghost Value = { List (Option ℤ) };

    ghost view = { λ n. n.tiles.items };
}

impl NamedTiles {
    /// No tile yet, for so many faces.
    fn unnamed(alloc: Global, faces: u32) -> Result<NamedTiles, AllocError>
        ensures { IfOk result (λ named. named ≡ replicate faces None) }
    {
        let tiles = vec![in alloc; None; faces as usize]?;
        Ok(NamedTiles { tiles })
    }

    /// Notes the tile that a row names, where its id is a face for which no earlier row names one.
    fn note(&mut self, columns: &PlanColumns<'_>, row: &RowView<'_, '_>)
        requires id { IsWithin (length row.now) (role_at columns.now.id) }
        requires tile { IsWithin (length row.now) (role_at columns.now.tile) }
        ensures count { length self.new ≡ length self.old }
        ensures each { (k : ℕ) → k < length self.old
            → slice_index_or self.new k None ≡ slice_index_or self.old k None
            or named_in_row (role_at columns.now.id) (role_at columns.now.tile) (suc k) row.now }
    {
        let Some(id) = number_in(cell_at(row, &columns.id)) else {
            return;
        };
        let face = id as usize;
        if face >= 1 && face <= self.tiles.len() && self.tiles[face - 1].is_none() {
            self.tiles[face - 1] = Some(signed_in(cell_at(row, &columns.tile)));
        }
    }

    /// The number of the tile that the plan names for a face, as it stands there: it may be that of no tile, or below 0. Nothing where
    /// no row of the plan has the face, or the coverage hasn't.
    pub fn tile_of(&self, face: u32) -> Option<i32>
        ensures { result ≡ kth self.now face None }
    {
        let place = (face as usize).checked_sub(1)?;
        *self.tiles.get(place)?
    }
}

/// The tiles that a plan names for the faces of a coverage that has so many: for each the tile in the first row whose id is the face. Rows
/// of no face, and later rows of a face, are passed over. The rows are passed once.
pub fn named_tiles(
    alloc: Global,
    plan: &TableView<'_>,
    faces: u32,
) -> Result<NamedTiles, AllocError>
    requires { IsPlanTable plan.now }
    // The tiles of all faces, from face 1 on.
    ensures tiles { IfOk result (λ named. named ≡ tiles_named plan.now faces) }
    // The tile of each face.
    ensures each { IfOk result (λ named. (face : ℕ) → IsRowOf faces face → kth named face None ≡ named_tile plan.now face) }
{
    plans_decide();
    let Ok(columns) = PlanColumns::place(plan.header()) else {
        unreachable!()
    };
    let mut named = NamedTiles::unnamed(alloc, faces)?;
    for row in plan.rows() {
        named.note(&columns, &row);
    }
    Ok(named)
}
