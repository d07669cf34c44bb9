//! A law about verdicts. The function does nothing and takes no memory; its contract is the law.

ghost use Rattle.pl_valid.specs.Laws.{VerdictIsOne};

use pl_task::Task;

/// No two verdicts fit one list of lines.
pub fn one_verdict(_task: &Task)
    ensures { VerdictIsOne _task.now }
{}
