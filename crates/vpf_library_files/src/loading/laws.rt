//! What is so of the files of every coverage.

ghost use Rattle.vpf_library_files.specs.Inner.Loading.Laws.{FilesAreLibraries, FilesAreWhole, HeldIsRead, ReadIsHeld};

use crate::tileref::laws::stops_decide;
use vpf_head::laws as headers;
use vpf_table::laws as tables;

/// A coverage is read exactly where the tree holds it within the limits.
pub fn coverages_are_held()
    ensures held { HeldIsRead }
    ensures read { ReadIsHeld }
{
    tables::spelled_is_opened();
    tables::opened_is_spelled();
    tables::opened_is_read();
    stops_decide();
}

/// Files that are a coverage are tiles of a library, whose rows are whole.
pub fn files_are_libraries()
    ensures library { FilesAreLibraries }
    ensures whole { FilesAreWhole }
{
    headers::spelled_is_read();
    headers::read_headers_are_sound();
}
