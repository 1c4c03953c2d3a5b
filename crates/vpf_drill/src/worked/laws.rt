//! What is so of the library of the worked coverage, with its features, that is read to be cut into tiles.

ghost use Rattle.vpf_drill.specs.Inner.Worked.Laws.{WorkedIsCut, WorkedIsSource, WorkedLacksThemes, WorkedStandsAlone};
ghost use Rattle.vpf_drill.specs.Inner.Worked.Held.{WorkedHoldsBytes, WorkedIsMade, WorkedOutIsEmpty};
ghost use Rattle.vpf_drill.specs.Inner.Worked.Request.{WorkedHasTables, WorkedIsAsked, WorkedIsRead, WorkedIsUnfound, WorkedServes};

use vpf_library_commands::tile_theorem::tilings::laws::{requests_have_names, sources_are_cut};

/// Once the files of the worked coverage are made in a tree that held none, it holds bytes, and nothing in the folder of the tiled library.
pub fn worked_is_held()
    ensures made { WorkedIsMade }
    ensures empty { WorkedOutIsEmpty }
    ensures bytes { WorkedHoldsBytes }
{}

/// These files are read as the worked coverage with its features, its table of tiles and its plan, where the words of a request ask for that.
pub fn worked_is_read()
    ensures asked { WorkedIsAsked }
    ensures read { WorkedIsRead }
    ensures tables { WorkedHasTables }
{}

/// Nothing is found in it, nor in its features, and nothing speaks against its plan.
pub fn worked_is_unfound()
    ensures unfound { WorkedIsUnfound }
    ensures serves { WorkedServes }
{}

/// It may be cut: no table of its tiled library passes a limit, nor does a file of its features.
pub fn worked_is_cut()
    ensures { WorkedIsCut }
{
    worked_is_read();
    worked_is_unfound();
}

/// The files that are made of it stand alone, and no thematic index is there that its features lacked once they are put beside it.
pub fn worked_is_alone()
    ensures alone { WorkedStandsAlone }
    ensures lacks { WorkedLacksThemes }
{}

/// A coverage whose features have a thematic index meets all that is asked of what `tile` cuts, and of what it makes of that.
pub fn worked_is_source()
    ensures { WorkedIsSource }
{
    worked_is_held();
    worked_is_read();
    worked_is_cut();
    worked_is_alone();
    requests_have_names();
    sources_are_cut();
}
