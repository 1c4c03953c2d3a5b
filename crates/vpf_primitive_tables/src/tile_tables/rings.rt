//! The tables of the rings of tiles.

ghost use Rattle.std.specs.Prelude.{◌<◌, ◌^◌, All, length, map};
ghost use Rattle.vpf_write.specs.Writing.{Writes};
ghost use Rattle.vpf_cut_rings.specs.Inner.Rings.{HasSmallNumbers, ring_of};
ghost use Rattle.vpf_primitive_tables.specs.TableForms.Forms.{rings_like};

use crate::table_forms::RingForm;
use std::alloc::Global;
use vpf_cut_rings::CutRing;
use vpf_write::{WriteError, Written};

/// The table of the rings of a tile.
pub(crate) fn write_rings(
    alloc: Global,
    form: &RingForm<'_, '_>,
    rings: &[CutRing],
) -> Result<Written, WriteError>
    requires few { length rings.now < 2 ^ 31 }
    requires small { All HasSmallNumbers rings.now }
    ensures { Writes (rings_like form.now (map ring_of rings.now)) result }
{
    let mut made = form.begin(alloc)?;
    for (k, ring) in rings.iter().enumerate() {
        let number = k as u32 + 1;
        made.put(number, ring.face, ring.edge)?;
    }
    made.finish()
}
