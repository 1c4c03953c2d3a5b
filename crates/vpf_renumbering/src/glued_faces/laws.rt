//! What is so of every library that agrees.

ghost use Rattle.vpf_renumbering.specs.Inner.GluedFaces.Laws.{AgreeingHasFewFaces};

use vpf_trace::laws::library_has_map;

/// In a library that agrees each face but the universe has a ring, each ring of such a face starts with a home dart of its own, and each edge
/// has two: so there are no more faces than rings, and no more rings than twice the edges.
pub fn agreeing_has_few_faces()
    ensures { AgreeingHasFewFaces }
{
    library_has_map();
}
