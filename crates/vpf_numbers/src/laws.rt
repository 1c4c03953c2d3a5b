//! What is so of the tables of every tile.

ghost use Rattle.vpf_numbers.specs.Inner.Laws.{CoverageNumbersDecide, NumbersDecide};

/// There is no finding on columns, ids, references and marks of a tile exactly where its columns are right, and those of the first tile that
/// has each table, and its rows are numbered and name what is there. There is none in a coverage exactly where this is so of all its tiles.
pub fn numbers_decide()
    ensures tile { NumbersDecide }
    ensures coverage { CoverageNumbersDecide }
{}
