//! What outcomes have in common: each function here is without effect, and its contract is a law.

ghost use Rattle.pl_top.specs.Laws.{OutcomeIsOne, OutcomeIsThere, RequestsCanRun};

use pl_check::laws::{
    fault_or_lines, fault_or_task, first_fault_is_one, lines_are_one, plan_fault_is_one,
    task_is_one,
};

/// Over told files a request has one outcome at most: one status, one text and one line.
pub fn outcome_is_one()
    ensures { OutcomeIsOne }
{
    first_fault_is_one();
    task_is_one();
    fault_or_task();
    plan_fault_is_one();
    lines_are_one();
    fault_or_lines();
}

/// Each request that words are can run: the search that it asks for is there, and can have its limit.
pub fn requests_can_run()
    ensures { RequestsCanRun }
{}

/// Over told files a request that can run has an outcome.
pub fn outcome_is_there()
    ensures { OutcomeIsThere }
{
    fault_or_task();
    fault_or_lines();
    lines_are_one();
}
