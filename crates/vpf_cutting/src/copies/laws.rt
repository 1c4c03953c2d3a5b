//! What is so of the items of tiles, wherever they are.

ghost use Rattle.vpf_cutting.specs.Inner.Copies.Laws.{LocalsArePlaces, PlacesAreLocals};

/// An item of a tile stands in the list of the tile's items at the place that is its local number, counted from 1, and what stands at a
/// place has that local number.
pub fn locals_are_places()
    ensures places { PlacesAreLocals }
    ensures locals { LocalsArePlaces }
{}
