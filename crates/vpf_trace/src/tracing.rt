//! The boundary cycles of a library, past its lines between tiles.

ghost use Rattle.std.specs.Prelude.{◌≡◌, IfOk};
ghost use Rattle.vpf_darts.specs.Listings.{numbers_of};
ghost use Rattle.vpf_prims.specs.Libraries.{library_of};
ghost use Rattle.vpf_trace.specs.Tracing.{IsTrace};

use crate::gathering::kept_darts;
use crate::stepping::{PastLines, walks_pass_lines};
use std::alloc::{AllocError, Global};
use vpf_cross::Checked;
use vpf_cross::follow::laws::homes_exist;
use vpf_darts::Listing;
use vpf_darts::laws::removal_leaves_a_map;
use vpf_wing::kept::list_kept;

/// The boundary cycles of a coverage, its lines between tiles passed over: the listing of its map without these lines, in which each home
/// dart of another edge stands once (MIL-STD-2407, 5.2.2, winged-edge topology, and 5.2.3, cross-tile topology). Each cycle begins with
/// its least dart, and the first darts rise: by tile, by edge, and `+` before `-`. An untiled coverage has its darts in tile 0.
///
/// It takes a dart, a mark, and a place in the listing for each home dart before it walks, and looks each dart up once.
pub fn trace(alloc: Global, checked: &Checked<'_, '_>) -> Result<Listing, AllocError>
    ensures { IfOk result (λ listing. IsTrace (library_of checked.now) (numbers_of listing)) }
{
    walks_pass_lines(checked);
    homes_exist();
    removal_leaves_a_map();
    let darts = kept_darts(alloc, checked.coverage())?;
    list_kept(alloc, &PastLines { checked }, &darts)
}
