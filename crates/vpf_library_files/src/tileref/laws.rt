//! What is so of every table of tiles.

ghost use Rattle.vpf_library_files.specs.Inner.Tileref.Laws.{StopsDecide, TilerefDecides};

/// There is no finding on the table exactly where it is a table of tiles: its columns are there, it has rows, which are numbered from
/// 1, each names a path, and no two the same.
pub fn tileref_decides()
    ensures { TilerefDecides }
{}

/// Nothing ends the reading of a table exactly where it is a table of tiles, of at most 65,535, whose paths have at most 255 bytes.
pub fn stops_decide()
    ensures { StopsDecide }
{}
