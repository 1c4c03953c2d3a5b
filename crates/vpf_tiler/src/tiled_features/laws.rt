//! What is so of every tiled library that is made with its features.

ghost use Rattle.vpf_tiler.specs.Inner.TiledFeatures.Laws.{FeaturedAgrees, FeaturedGoesOn, FeaturedHasCycles, FeaturedIsGlued};
ghost use Rattle.vpf_tiler.specs.Inner.TiledFeatures.Laws.{MadeWithFeatures, NoSchemaTableIsMade, OwnNamesAreFree};

use crate::laws::made_agrees;
use vpf_feature_files::laws::features_are_held;
use vpf_feature_writing::feature_reading::laws::{
    tables_are_read, written_agree, written_are_read,
};
use vpf_head::laws as headers;
use vpf_library_files::loading::laws::coverages_are_held;
use vpf_table::laws::read_is_writable;
use vpf_theme_build::laws::built_indexes_serve;
use vpf_value::laws as cells;
use vpf_write::laws::written_is_read;

/// A tiled library that is made without features has no schema table.
pub fn no_schema_table_is_made()
    ensures { NoSchemaTableIsMade }
{}

/// But for the table of tiles, no file of a tiled library stands in the coverage's own folder, under the name that an item gives to a file there.
pub fn own_names_are_free()
    ensures { OwnNamesAreFree }
{}

/// Wherever the files that are made of a coverage and its features stand alone, they are the coverage in tiles, which goes on as the coverage does, has its
/// boundary cycles and is glued to it, and its features, which agree.
pub fn made_with_features()
    ensures { MadeWithFeatures }
{
    cells::fitting_is_written();
    headers::canonical_is_read();
    written_is_read();
    read_is_writable();
    built_indexes_serve();
    made_agrees();
    tables_are_read();
    written_agree();
    written_are_read();
    no_schema_table_is_made();
}

/// Where tiling comes to some files with features, each folder of a tree of bytes that holds exactly these files, and lacks what the features lacked, holds
/// the coverage in tiles with its features: all agree, and the coverage goes on as the one that was cut, has its boundary cycles past its lines between tiles,
/// and is glued to it.
pub fn featured_agrees()
    ensures accepted { FeaturedAgrees }
    ensures next { FeaturedGoesOn }
    ensures cycles { FeaturedHasCycles }
    ensures glued { FeaturedIsGlued }
{
    coverages_are_held();
    features_are_held();
    made_with_features();
}
