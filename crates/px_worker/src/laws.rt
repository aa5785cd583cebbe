ghost use Rattle.px_worker.specs.Laws.{OneAnswer, AnswersBegin, OneStop, WholeInputs, RepliesAreAnalyses};

use px_explore::one_analysis;
use px_wire::one_spelling;

/// Bytes have at most one answer.
pub fn one_answer()
    ensures { OneAnswer }
{
    one_spelling();
    one_analysis();
}

/// Each answer begins with what is owed for the first whole requests, and with each beginning of that.
pub fn answers_begin()
    ensures { AnswersBegin }
{
    one_spelling();
    one_analysis();
}

/// An input is whole requests, or it stops at one place, for one cause.
pub fn one_stop()
    ensures { OneStop }
{
    one_spelling();
}

/// An input of whole requests stops a worker neither as bad nor for other kinds.
pub fn whole_inputs()
    ensures { WholeInputs }
{
    one_spelling();
}

/// What a worker replies to a request is the analysis of its job.
pub fn replies_are_analyses()
    ensures { RepliesAreAnalyses }
{
    one_spelling();
}
