//! What is so of the files of the tiled library of every coverage.

ghost use Rattle.vpf_tiler.specs.Inner.TiledFiles.Laws.{MadeIsHeld};
ghost use Rattle.vpf_tiler.specs.Inner.TiledFiles.Names.{NamesDiffer, NamesDifferWithin};

use vpf_head::laws as headers;
use vpf_value::laws as cells;
use vpf_write::laws::written_is_read;

/// Where a folder holds exactly the files of the tiled library of a coverage, it holds the coverage cut into tiles.
pub fn made_is_held()
    ensures { MadeIsHeld }
{
    cells::fitting_is_written();
    headers::canonical_is_read();
    written_is_read();
}

/// No two files of a tiled library have one name, where the name of the coverage is text; nor have two of them within a folder.
pub fn names_differ()
    ensures own { NamesDiffer }
    ensures within { NamesDifferWithin }
{}
