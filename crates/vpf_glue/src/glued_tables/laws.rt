//! What is so of the tables of the tiles of every coverage.

ghost use Rattle.vpf_glue.specs.Inner.GluedTables.Laws.{EdgeRowsFit, EntityRowsFit, FaceRowsFit, NodeRowsFit};

use vpf_primitive_tables::table_forms::laws::own_rows_fit;
use vpf_write::revise::laws::columns_by_position;

/// Where all tiles have the same columns, the rows of each tile's tables fit the tables that are written like another tile's, but for the cells
/// that get new values. Kinds of ids and of references, and byte orders, may differ from tile to tile.
pub fn rows_of_tiles_fit()
    ensures edges { EdgeRowsFit }
    ensures faces { FaceRowsFit }
    ensures nodes { NodeRowsFit }
    ensures entities { EntityRowsFit }
{
    own_rows_fit();
    columns_by_position();
}
