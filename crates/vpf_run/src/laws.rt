//! Laws of answers.

ghost use Rattle.vpf_library_commands.specs.Trace.{HasTraceAnswer};
ghost use Rattle.vpf_run.specs.Inner.Checked.{AgreementIsSaid, CyclesAreSaid, OnlyAgreementIsDone, OnlyAgreementIsTraced};
ghost use Rattle.vpf_run.specs.Inner.Deciding.{HasAnswer, OneAnswer};
ghost use Rattle.vpf_run.specs.Grammar.{FaultsAreSaid, TablesAreSaid};
ghost use Rattle.vpf_run.specs.Indexed.{PlainAnswers};

use vpf_drill::laws::{one_drill, requests_can_be_asked};
use vpf_library_commands::laws::{check_decides_agreement, trace_lists_cycles};
use vpf_table::laws::{refusals_are_first_faults, spelled_is_opened};
use vpf_table_commands::laws::{one_cycles_answer, plain_rows};

/// Words over files of bytes have exactly one answer.
pub fn one_answer()
    ensures some { HasAnswer }
    ensures one { OneAnswer }
{
    one_cycles_answer();
    trace_lists_cycles();
    one_drill();
    requests_can_be_asked();
}

/// Where the thematic index of a column agrees with it, the answer of `rows` is that by a plain scan.
pub fn plain_answers()
    ensures { PlainAnswers }
{
    plain_rows();
}

/// Over a file that is spelled as a table the answer is what the command says of that table, and over one that has a first
/// fault it is that fault.
pub fn answers_follow_the_grammar()
    ensures tables { TablesAreSaid }
    ensures faults { FaultsAreSaid }
{
    spelled_is_opened();
    refusals_are_first_faults();
}

/// `check` is done exactly where the coverage agrees, and then it counts its primitives.
pub fn checks_decide()
    ensures said { AgreementIsSaid }
    ensures only { OnlyAgreementIsDone }
{
    check_decides_agreement();
}

/// `trace` is done exactly where the coverage agrees, and then it lists its boundary cycles past its lines between tiles.
pub fn traces_list_cycles()
    ensures said { CyclesAreSaid }
    ensures only { OnlyAgreementIsTraced }
    ensures some { HasTraceAnswer }
{
    trace_lists_cycles();
}
