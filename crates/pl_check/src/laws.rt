//! What the definitions of this crate have in common: each function here is without effect, and its contract
//! is a law.

ghost use Rattle.pl_check.specs.Laws.{FirstFaultIsLeast, FirstFaultIsOne, TaskIsOne, FaultOrTask};
ghost use Rattle.pl_check.specs.Laws.{FaultExcludesTask, LinesAreOne, PlanFaultIsOne, FaultOrLines};
ghost use Rattle.pl_check.specs.Laws.{FaultExcludesLines};

use pl_text::laws::{fault_is_one, forms_or_fault};

/// The fault that is given is the least of all: by file, by place, then by kind.
pub fn first_fault_is_least()
    ensures { FirstFaultIsLeast }
{}

/// Two files have one first fault at most.
pub fn first_fault_is_one()
    ensures { FirstFaultIsOne }
{
    fault_is_one();
}

/// Two files state one task at most.
pub fn task_is_one()
    ensures { TaskIsOne }
{}

/// Two files that may be read have a first fault or state a task, and never both.
pub fn fault_or_task()
    ensures either { FaultOrTask }
    ensures not_both { FaultExcludesTask }
{
    forms_or_fault();
}

/// A plan file has one list of lines at most.
pub fn lines_are_one()
    ensures { LinesAreOne }
{}

/// A plan file has one first fault at most.
pub fn plan_fault_is_one()
    ensures { PlanFaultIsOne }
{
    fault_is_one();
}

/// A plan file that may be read has a first fault or lines, and never both.
pub fn fault_or_lines()
    ensures either { FaultOrLines }
    ensures not_both { FaultExcludesLines }
{
    forms_or_fault();
}
