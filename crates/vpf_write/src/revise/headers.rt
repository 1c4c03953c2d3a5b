//! Headers with new kinds.

ghost use Rattle.std.specs.Prelude.{◌≡◌, All, IfOk, IsTrue, slice_get};
ghost use Rattle.std.specs.Option.{IsSomeAnd};
ghost use Rattle.vpf_triplet.specs.declared.kinds.Count.TheVariants.{Fixed};
ghost use Rattle.vpf_head.specs.Head.{names_rows};
ghost use Rattle.vpf_write.specs.Revise.Revising.{head_with_kinds};

use crate::revise::changes::NewKind;
use std::alloc::AllocError;
use vpf_head::Header;

/// A header of its own that differs from this one in these kinds alone; of several for one column the first counts. The order, all
/// texts and all names stay (MIL-STD-2407, 5.4, table header). Fails only where memory runs out.
pub fn with_kinds<'a>(header: &Header<'a>, kinds: &[NewKind]) -> Result<Header<'a>, AllocError>
    // Each column has one value.
    requires one { All (λ new. IsSomeAnd (slice_get header.now.columns new.column) (λ column. column.count ≡ Fixed 1)) kinds.now }
    // Each kind is S, I or K.
    requires kinds { All (λ new. IsTrue (names_rows new.kind)) kinds.now }
    ensures { IfOk result (λ h. h ≡ head_with_kinds kinds.now header.now) }
{
    let mut revised = header.with_order(header.order())?;
    for new in kinds.iter().rev() {
        revised.set_kind(new.column, new.kind);
    }
    Ok(revised)
}
