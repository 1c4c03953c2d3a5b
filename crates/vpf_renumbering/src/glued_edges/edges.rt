//! The edges of a glued coverage, each by its `+` dart.

ghost use Rattle.std.specs.Prelude.{◌≡◌, ◌==◌, IfOk, filter, map};
ghost use Rattle.vpf_darts.specs.Darts.{sign_in, tile_dart_code};
ghost use Rattle.vpf_wing.specs.Inner.Kept.Kept.{AreInOrder};

use std::alloc::{AllocError, Global};
use vpf_darts::TileDart;

/// The `+` darts among darts in their order.
pub(crate) fn plus_darts(alloc: Global, darts: &[TileDart]) -> Result<Vec<TileDart>, AllocError>
    requires { AreInOrder darts.now }
    ensures numbers { IfOk result (λ edges. map tile_dart_code edges.items ≡ filter (λ d. sign_in d == 0) (map tile_dart_code darts.now)) }
    ensures order { IfOk result (λ edges. AreInOrder edges.items) }
{
    let mut edges = Vec::new(alloc);
    for dart in darts {
        if !dart.minus {
            edges.push(*dart)?;
        }
    }
    Ok(edges)
}
