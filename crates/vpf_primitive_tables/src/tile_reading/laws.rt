//! What is so of the tables of the tiles of every coverage.

ghost use Rattle.vpf_primitive_tables.specs.Inner.TileReading.Laws.{CutsAreRead, CutsHaveColumns};

/// What the tables of the tiles say is the tiled library of what the coverage says: each primitive with its new id and its new references, its
/// mark, and all that it carries.
pub fn cuts_are_read()
    ensures { CutsAreRead }
{}

/// The tables of the tiles have their columns, of kinds that their roles allow, and the same ones in all tiles.
pub fn cuts_have_columns()
    ensures { CutsHaveColumns }
{}
