//! What is so of the tables of the tiles of every coverage, and of the table of tiles.

ghost use Rattle.vpf_primitive_tables.specs.Inner.TileWriting.Laws.{TilerefIsRead, TilerefIsWritable, TilesAreWritable};

use vpf_head::laws::sound_headers_stay_sound;
use vpf_write::revise::laws::{columns_by_position, numbers_and_ids_fit, revised_rows_fit};

/// The tables of each tile can be written, where none has too many rows: ids and references fit their columns, which have new kinds, and every
/// other value fits its own.
pub fn tiles_are_writable()
    ensures { TilesAreWritable }
{
    sound_headers_stay_sound();
    columns_by_position();
    revised_rows_fit();
    numbers_and_ids_fit();
}

/// The table of tiles that is made can be written, and is a table of tiles with the same paths.
pub fn tilerefs_are_written()
    ensures writable { TilerefIsWritable }
    ensures read { TilerefIsRead }
{
    sound_headers_stay_sound();
    columns_by_position();
    revised_rows_fit();
    numbers_and_ids_fit();
}
