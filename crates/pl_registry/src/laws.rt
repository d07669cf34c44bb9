//! Laws about the records of searches. Each function does nothing and takes no memory; its contract is the
//! law.

ghost use Rattle.pl_registry.specs.Laws.{FoundListsArePlans, UnsolvableHasNoPlan, NoneIsShorter};
ghost use Rattle.pl_registry.specs.Laws.{FoundPlanIsLeast, LeastPlanIsOne, PlanOrderIsTotal, LimitIsPassed};
ghost use Rattle.pl_registry.specs.Laws.{EndingIsOne, HasEnding};

use crate::search::Search;
use pl_task::Task;

/// What a search finds is a plan, where it says that there is none there is none, and where its limit ends
/// it, more states than the limit are reachable.
pub fn endings_are_true(_task: &Task, _search: Search)
    ensures found { FoundListsArePlans _task.now _search }
    ensures unsolvable { UnsolvableHasNoPlan _task.now _search }
    ensures limit { LimitIsPassed _task.now _search }
{}

/// No plan has fewer steps than the one that breadth-first search finds, whatever it cuts of states without a
/// goal.
pub fn none_is_shorter(_task: &Task)
    ensures shorter { NoneIsShorter _task.now }
{}

/// The plan that breadth-first search finds is the least one, whatever it cuts of states without a goal: none
/// has fewer steps, and each other plan of as many steps comes after it. Plans are compared step by step, in
/// the order of steps, and no task has two least plans.
pub fn found_plan_is_least(_task: &Task)
    ensures least { FoundPlanIsLeast _task.now }
    ensures one { LeastPlanIsOne _task.now }
    ensures order { PlanOrderIsTotal _task.now }
{}

/// A search with a limit has one ending: no two differ in the record, the outcome, the plan or the counts.
pub fn one_ending(_task: &Task, _search: Search, _limit: u32)
    ensures one { EndingIsOne _task.now _search _limit }
{}

/// A search has an ending where its limit lets it register one state, whatever states are cut: a plan that is
/// found, no state left, or one more state than the limit. With `one_ending` it has exactly one. That there
/// is one is shown by running the search; states are told apart by the atoms that some step of the task
/// deletes or adds, since all others are as at first, and whether a state is new is tried on the atoms that
/// can be true in it.
pub fn ending_is_there(_task: &Task, _search: Search)
    ensures there { HasEnding _task.now _search }
{}
