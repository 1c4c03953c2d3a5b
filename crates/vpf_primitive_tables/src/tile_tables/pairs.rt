//! The tables of tiles with one column of references: those of faces, of connected nodes and of entity nodes.

ghost use Rattle.std.specs.Prelude.{◌≡◌, ◌<◌, ◌^◌, ℕ, All, length};
ghost use Rattle.vpf_write.specs.Writing.{Writes};
ghost use Rattle.vpf_prims.specs.Numbering.{IsRowOf};
ghost use Rattle.vpf_tiling.specs.Ranks.{numbered};
ghost use Rattle.vpf_primitive_tables.specs.TileTables.Grids.{pairs_made};

use crate::table_forms::laws::own_rows_fit;
use crate::table_forms::{PairForm, row_of};
use std::alloc::Global;
use vpf_write::{WriteError, Written};

/// A table of these rows, each of which names one of these numbers.
pub(crate) fn write_pairs(
    alloc: Global,
    form: &PairForm<'_, '_>,
    sources: &[u32],
    references: &[u32],
) -> Result<Written, WriteError>
    requires rows { All (IsRowOf (length form.now.table.rows)) sources.now }
    requires few { length sources.now < 2 ^ 31 }
    requires each { length references.now ≡ length sources.now }
    requires small { All (λ reference. reference < 2 ^ 31) references.now }
    ensures { (names : ℕ → ℕ → ℕ) → references.now ≡ numbered names sources.now
        → Writes (pairs_made form.now.name form.now.table names sources.now) result }
{
    own_rows_fit();
    let mut made = form.begin(alloc)?;
    for (k, source) in sources.iter().enumerate() {
        let number = k as u32 + 1;
        let row = row_of(form.table(), *source);
        form.put(&mut made, number, &row, references[k])?;
    }
    made.finish()
}
