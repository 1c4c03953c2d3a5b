//! What words ask for.

ghost use Rattle.std.specs.Prelude.{◌≡◌, IfOk, map, string_bytes};
ghost use Rattle.vpf_run.specs.Commands.{command_by, command_of};

use std::alloc::{AllocError, Global};
use vpf_drill::DrillRequest;
use vpf_feature_commands::SelectRequest;
use vpf_library_commands::{CheckRequest, MakeRequest};
use vpf_table_commands::{
    CyclesRequest, IndexRequest, RowsRequest, ShowRequest, SwapRequest, TableRequest,
};

/// A command with what it is asked for.
#[derive(Debug, Drop)]
pub enum Command {
    /// Prints the header and the rows of a table.
    Show(ShowRequest),
    /// Tells whether a file is a table.
    Table(TableRequest),
    /// Lists the boundary cycles of an edge table.
    Cycles(CyclesRequest),
    /// Writes a table in the other byte order.
    Swap(SwapRequest),
    /// Writes a thematic index of a column.
    Index(IndexRequest),
    /// Lists the rows that have a value.
    Rows(RowsRequest),
    /// Tells whether a coverage of a library agrees.
    Check(CheckRequest),
    /// Lists the boundary cycles of a coverage of a library, past its lines between tiles.
    Trace(CheckRequest),
    /// Writes the tiled library of an untiled coverage.
    Tile(MakeRequest),
    /// Writes the untiled coverage that the tiles of a coverage are joined into.
    Glue(MakeRequest),
    /// Lists the features of a class that have a value, with their primitives.
    Select(SelectRequest),
    /// Makes a grid in memory, cuts it into tiles, checks and traces it.
    Drill(DrillRequest),
}

/// The command of a verb and the words after it.
fn read_verb(alloc: Global, verb: &str, words: &[String]) -> Result<Option<Command>, AllocError>
    ensures { IfOk result (λ command. command ≡ command_by verb.now (map string_bytes words.now)) }
{
    match verb {
        "show" => Ok(ShowRequest::read(alloc, words)?.map(Command::Show)),
        "table" => Ok(TableRequest::read(alloc, words)?.map(Command::Table)),
        "cycles" => Ok(CyclesRequest::read(alloc, words)?.map(Command::Cycles)),
        "swap" => Ok(SwapRequest::read(alloc, words)?.map(Command::Swap)),
        "index" => Ok(IndexRequest::read(alloc, words)?.map(Command::Index)),
        "rows" => Ok(RowsRequest::read(alloc, words)?.map(Command::Rows)),
        "check" => Ok(CheckRequest::read(alloc, words)?.map(Command::Check)),
        "trace" => Ok(CheckRequest::read(alloc, words)?.map(Command::Trace)),
        "drill" => Ok(DrillRequest::read(words).map(Command::Drill)),
        "glue" => Ok(MakeRequest::read(alloc, words)?.map(Command::Glue)),
        "select" => Ok(SelectRequest::read(alloc, words)?.map(Command::Select)),
        "tile" => Ok(MakeRequest::read(alloc, words)?.map(Command::Tile)),
        _ => Ok(None),
    }
}

/// The command that words spell, or nothing where they are no command.
pub fn read_command(alloc: Global, words: &[String]) -> Result<Option<Command>, AllocError>
    ensures { IfOk result (λ command. command ≡ command_of (map string_bytes words.now)) }
{
    match words {
        [verb, words @ ..] => read_verb(alloc, verb, words),
        [] => Ok(None),
    }
}
