//! Laws of packed states. Each function does nothing and takes no memory; its contract is the law.

ghost use Rattle.pl_state.specs.Laws.{LayoutIsOne, LayoutTellsApart, LayoutIsAState, StatesHaveOneLayout};

use pl_task::Task;

/// The layout is a function of the set of fluent atoms, and two different sets have different layouts.
pub fn layout_is_one(_task: &Task)
    ensures one { LayoutIsOne _task.now }
    ensures apart { LayoutTellsApart _task.now }
    ensures state { LayoutIsAState _task.now }
    ensures same { StatesHaveOneLayout _task.now }
{}
