//! What is so of the rows of the tables of every glued coverage.

ghost use Rattle.vpf_glue.specs.Inner.GluedReading.Laws.{EdgeRowsSay, EntityRowsSay, FaceRowsSay, GluedTablesAreRead, NodeRowsSay, RingsAreRead};

/// A row of a tile's table with new values says, in the glued table, the new number and the new references, and the mark and all that it
/// carries in its own table. The table of rings says the rings of the glued coverage.
pub fn glued_rows_say()
    ensures edges { EdgeRowsSay }
    ensures faces { FaceRowsSay }
    ensures rings { RingsAreRead }
    ensures nodes { NodeRowsSay }
    ensures entities { EntityRowsSay }
{}

/// The primitive tables that are written of a coverage that agrees say the glued coverage of its library: edges, faces, rings, nodes, and
/// entity nodes where any tile has a table of them.
pub fn glued_tables_are_read()
    ensures { GluedTablesAreRead }
{}
