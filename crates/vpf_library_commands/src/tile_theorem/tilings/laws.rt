//! What is so of every tiled library that is made, and of the requests that words spell.

ghost use Rattle.vpf_library_commands.specs.Inner.TileTheorem.Tilings.Laws.{CutIsSource, NoneIsLacked, RequestsHaveNames, RestIsLacked, SourceIsCut, TilesAreMade};
ghost use Rattle.vpf_library_commands.specs.Inner.TileTheorem.Tilings.Laws.{TilingsAgree, TilingsAreAnswered, TilingsAreHeld};

use crate::laws::{check_decides_agreement, trace_lists_cycles};
use crate::tiler::laws::made_agrees;
use crate::tiler::tiled_features::laws::{
    made_with_features, no_schema_table_is_made, own_names_are_free,
};
use vpf_feature_files::laws::features_are_held;
use vpf_feature_writing::feature_reading::laws::written_names;
use vpf_features::feature_agreement::laws::features_decide;
use vpf_library_files::loading::laws::{coverages_are_held, files_are_libraries};
use vpf_library_files::tileref::laws::stops_decide;
use vpf_table::laws::{
    opened_is_read, opened_is_spelled, read_is_spelled, read_is_writable, spelled_is_opened,
};
use vpf_tiling::plan::laws::plans_decide;
use vpf_tiling::tileable::laws::refusals_decide;

/// Where an untiled coverage agrees with its features, its plan serves and no features are joined by numbers, `tile` makes the files of its tiled library, and
/// behind them those of its features.
pub fn tiles_are_made()
    ensures { TilesAreMade }
{}

/// Where the files of a tiled library and of its features are made in an empty folder, no two under one name and with not too many bytes in all, and what the
/// features lacked isn't there, the tree holds that library with its features: its tables, references, cycles and features agree, and its boundary cycles are
/// exactly those of the coverage without its lines between tiles, each dart called by its name in the tiles. `check` and `trace` answer that.
pub fn tilings_agree()
    ensures held { TilingsAreHeld }
    ensures listed { TilingsAgree }
    ensures answered { TilingsAreAnswered }
{
    opened_is_read();
    read_is_spelled();
    read_is_writable();
    stops_decide();
    features_decide();
    check_decides_agreement();
    trace_lists_cycles();
    made_agrees();
    made_with_features();
    no_schema_table_is_made();
    features_are_held();
}

/// What `tile` reads and can cut is exactly an untiled coverage that the tree holds with its features, its table of tiles and its plan: it is well formed, its
/// features agree, the plan serves, no features are joined by numbers, and no file passes a bound.
pub fn sources_are_cut()
    ensures cut { SourceIsCut }
    ensures only { CutIsSource }
{
    spelled_is_opened();
    opened_is_spelled();
    opened_is_read();
    read_is_spelled();
    read_is_writable();
    stops_decide();
    plans_decide();
    refusals_decide();
    coverages_are_held();
    files_are_libraries();
    features_are_held();
    features_decide();
    check_decides_agreement();
    trace_lists_cycles();
    made_agrees();
    made_with_features();
    no_schema_table_is_made();
}

/// Where the files of a source are made in an empty folder, none of the feature tables stands there that its features lacked, and no thematic index is called
/// as the edges of an untiled coverage.
pub fn rest_is_lacked()
    ensures { RestIsLacked }
{
    spelled_is_opened();
    opened_is_read();
    features_are_held();
    written_names();
    own_names_are_free();
}

/// What features lack can't stand among the files that are made of a coverage without features.
pub fn none_is_lacked()
    ensures { NoneIsLacked }
{
    opened_is_read();
    read_is_spelled();
    read_is_writable();
    stops_decide();
    features_decide();
    check_decides_agreement();
    made_agrees();
}

/// Words of text spell requests of `tile` whose names are text, and whose coverage has one.
pub fn requests_have_names()
    ensures { RequestsHaveNames }
{}
