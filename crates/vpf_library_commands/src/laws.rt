//! Laws of the commands over libraries.

ghost use Rattle.vpf_library_commands.specs.Agreeing.{AgreeingIsRead, CheckCounts, CheckDecides, CoverageDecides};
ghost use Rattle.vpf_library_commands.specs.Gluing.{GlueDecides};
ghost use Rattle.vpf_library_commands.specs.Trace.{HasTraceAnswer, OneTraceAnswer, TraceDecides, TraceLists};
ghost use Rattle.vpf_library_commands.specs.Inner.Example.{ExampleIsFound, ExampleIsWellFormed};

use vpf_cross::laws::{agreement_decides, like_tiles_are_whole};
use vpf_feature_files::laws::features_are_held;
use vpf_features::feature_agreement::laws::features_decide;
use vpf_glue::glued_reading::laws::glued_tables_are_read;
use vpf_library_files::loading::laws::{coverages_are_held, files_are_libraries};
use vpf_numbers::laws::numbers_decide;
use vpf_table::laws::{opened_is_read, spelled_is_opened};
use vpf_trace::laws::one_trace;
use vpf_wing::laws::{cycles_decide, loops_decide};

/// `check` is done exactly where the tree holds the coverage, its columns are right and its rows agree, in each tile and across the tiles, and its features
/// agree; and then it counts the primitives of its tiles. What agrees is what is read.
/// Features apart, nothing is found exactly where columns are right and rows agree.
pub fn check_decides_agreement()
    ensures decides { CheckDecides }
    ensures counts { CheckCounts }
    ensures coverage { CoverageDecides }
    ensures read { AgreeingIsRead }
{
    coverages_are_held();
    files_are_libraries();
    numbers_decide();
    agreement_decides();
    like_tiles_are_whole();
    features_are_held();
    features_decide();
}

/// `trace` has exactly one answer over files of bytes: it is done exactly where the coverage agrees, as `check` is, and then it lists the
/// boundary cycles of the coverage past its lines between tiles.
pub fn trace_lists_cycles()
    ensures some { HasTraceAnswer }
    ensures one { OneTraceAnswer }
    ensures decides { TraceDecides }
    ensures lists { TraceLists }
{
    coverages_are_held();
    files_are_libraries();
    numbers_decide();
    agreement_decides();
    like_tiles_are_whole();
    features_are_held();
    features_decide();
    one_trace();
}

/// `glue` is done only of a coverage in tiles that agrees with its features, and then it makes the files of the coverage that its tiles are glued to.
pub fn glue_decides_agreement()
    ensures { GlueDecides }
{
    coverages_are_held();
    files_are_libraries();
    numbers_decide();
    agreement_decides();
    like_tiles_are_whole();
    features_are_held();
    features_decide();
    glued_tables_are_read();
    spelled_is_opened();
    opened_is_read();
}

/// What it is for a coverage to be well formed can be met: an example is, nothing is found in it, and a wrong first ring in it is found.
pub fn example_is_well_formed()
    ensures well_formed { ExampleIsWellFormed }
    ensures found { ExampleIsFound }
{
    numbers_decide();
    loops_decide();
    cycles_decide();
}
