//! Laws of the commands.

ghost use Rattle.vpf_table_commands.specs.Cycles.{HasCyclesAnswer, OneCyclesAnswer};
ghost use Rattle.vpf_table_commands.specs.Index.{IndexesElsewhere, MadeIndexesServe};
ghost use Rattle.vpf_table_commands.specs.Rows.{IndexAnswersAsTheScan, PlainRows};
ghost use Rattle.vpf_table_commands.specs.Swap.{SwappedTwiceIsCanonical};

use vpf_select::laws::indexed_selection_is_the_scan;
use vpf_table::laws::read_is_writable;
use vpf_theme::laws::agreement_is_no_finding;
use vpf_theme_build::laws::built_indexes_serve;
use vpf_wing::laws::one_boundary_listing;
use vpf_write::laws::{written_is_read, written_twice_is_canonical};

/// Where the index of a column agrees with it, the answer by the index is that by the plain scan.
pub fn index_answers_as_the_scan()
    ensures { IndexAnswersAsTheScan }
{
    indexed_selection_is_the_scan();
    agreement_is_no_finding();
}

/// Where `index` is done, the file that it makes is a thematic index that agrees with the column.
pub fn made_indexes_serve()
    ensures { MadeIndexesServe }
{
    built_indexes_serve();
}

/// A table that is swapped twice gives its canonical bytes and its index.
pub fn swapped_twice_is_canonical()
    ensures { SwappedTwiceIsCanonical }
{
    read_is_writable();
    written_is_read();
    written_twice_is_canonical();
}

/// An index that words ask for isn't made in the table's file.
pub fn indexes_are_elsewhere()
    ensures { IndexesElsewhere }
{}

/// Where the thematic index of a column agrees with it, the answer of `rows` is that by a plain scan.
pub fn plain_rows()
    ensures { PlainRows }
{
    index_answers_as_the_scan();
}

/// `cycles` has exactly one answer.
pub fn one_cycles_answer()
    ensures some { HasCyclesAnswer }
    ensures one { OneCyclesAnswer }
{
    one_boundary_listing();
}
