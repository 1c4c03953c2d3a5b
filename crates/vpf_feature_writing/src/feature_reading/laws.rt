//! What is so of all features that are written.

ghost use Rattle.vpf_feature_writing.specs.FeatureReading.Laws.{TablesAreRead, WrittenAgrees, WrittenAreRead};
ghost use Rattle.vpf_feature_writing.specs.Inner.FeatureReading.Names.{ReadLacksTables, WrittenLacksEdges, WrittenLacksTables};

use vpf_feature_files::laws::features_are_held;
use vpf_table::laws as tables;
use vpf_theme_build::laws::{built_indexes_agree, built_indexes_are_read};
use vpf_write::laws::written_is_read;

/// The tables of a schema that was read are read of bytes; items name the files of its feature tables, and those of their thematic indexes.
pub fn tables_are_read()
    ensures { TablesAreRead }
{
    tables::opened_is_read();
    tables::read_is_spelled();
    tables::read_is_writable();
}

/// Features that were read, and agree, agree where their thematic indexes are built anew.
pub fn written_agree()
    ensures { WrittenAgrees }
{
    tables::opened_is_read();
    tables::read_is_spelled();
    tables::read_is_writable();
    built_indexes_agree();
}

/// What is written of features that agree is read, in any tree that holds the files that are made and lacks what wasn't there.
pub fn written_are_read()
    ensures { WrittenAreRead }
{
    tables::opened_is_read();
    tables::read_is_spelled();
    tables::read_is_writable();
    written_is_read();
    built_indexes_are_read();
}

/// Where features were read, each feature table that their schema table names was read or wasn't there. No file of them that is written has the name of one
/// that wasn't there; nor that of the edges, where these were a table in the folder in which the features were read.
pub fn written_names()
    ensures read { ReadLacksTables }
    ensures tables { WrittenLacksTables }
    ensures edges { WrittenLacksEdges }
{
    tables::read_is_spelled();
    features_are_held();
}
