//! A test of states that a search may drop.

ghost use Rattle.std.specs.Prelude.{◌≡◌, IsTrue};
ghost use Rattle.std.specs.Fn.{FnReturnsAt};
ghost use Rattle.pl_state.specs.StateOf.{state_in, IsStateOf};
ghost use Rattle.pl_registry.specs.Cut.{ReachesNoGoal};
ghost use Rattle.pl_hooks.specs.Sound.{IsSoundCut};

use pl_state::Packed;
use pl_task::Task;

/// A closure that says of a packed state whether it may be dropped, with the task for which it is sound.
#[derive(Drop)]
pub struct Pruner<'t, F> {
    task: &'t Task,
    cut: F,
}

impl<'t, F: Fn(&Packed) -> bool> Pruner<'t, F> {
    /// A pruner for a task. The closure says yes only for states from which no goal state is reachable.
    pub fn new(task: &'t Task, cut: F) -> Pruner<'t, F>
        requires { IsSoundCut F.Fn task.now cut }
        ensures sound { IsSoundCut F.Fn result.task.now result.cut }
        ensures task { result.task.now ≡ task.now }
        ensures cut { result.cut ≡ cut }
    {
        Pruner { task, cut }
    }

    /// Whether the state may be dropped: an answer that the closure may give.
    #[inline]
    pub fn cut(&self, state: &Packed) -> bool
        requires sound { IsSoundCut F.Fn self.now.task.now self.now.cut }
        requires state { IsStateOf self.now.task.now state.now }
        ensures answers { FnReturnsAt F.Fn self.now.cut state.now result }
        ensures sound { IsTrue result → ReachesNoGoal self.now.task.now
            (state_in self.now.task.now state.now) }
    {
        (self.cut)(state)
    }
}
