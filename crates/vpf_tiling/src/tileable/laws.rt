//! What is so of every coverage and every plan.

ghost use Rattle.vpf_tiling.specs.Inner.Tileable.Laws.{RefusalsDecide};

/// There is no cause against a plan exactly where it names a tile for each face but the universe, each edge has another face on a side, and each
/// entity node lies in another face.
pub fn refusals_decide()
    ensures { RefusalsDecide }
{}
