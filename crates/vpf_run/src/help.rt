//! What is told a person who asks for help.

/// The words that ask for it.
const HELP_WORDS: [&str; 3] = ["--help", "-h", "help"];

/// The words of each command, and what it does.
pub const HELP: &str = "\
vpf show FILE                          the header and the rows of a table
vpf table FILE                         whether a file is a table, and where not
vpf cycles FILE                        the boundary cycles of an edge table
vpf swap FILE OUT                      a table in the other byte order
vpf index FILE COLUMN list OUT         the thematic index of a column
vpf rows FILE COLUMN VALUE             the rows that have a value
vpf check LIB COV                      whether the topology of a coverage holds
vpf trace LIB COV                      its boundary cycles, through all tiles
vpf tile LIB COV OUT                   the coverage cut into tiles, by its plan
vpf glue LIB COV OUT                   the tiles of a coverage joined
vpf select LIB COV CLASS COLUMN VALUE  the features that have a value
vpf drill N                            a grid of N by N cells, cut and traced
LIB is a library's folder, COV a coverage in it. More: man vpf (docs/vpf.1)";

/// Whether the words ask for help: there is none, or the first is one of those that do.
pub fn is_help(words: &[String]) -> bool {
    match words {
        [] => true,
        [word, ..] => HELP_WORDS.contains(&word.as_str()),
    }
}
