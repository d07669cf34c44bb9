//! The rank of a state in a search.

ghost use Rattle.std.specs.Prelude.{◌≡◌};
ghost use Rattle.pl_task.specs.Goal.{unmet};
ghost use Rattle.pl_state.specs.StateOf.{state_in, IsStateOf};
ghost use Rattle.pl_hooks.specs.Sound.{IsUnmetCount};

use pl_state::Packed;
use pl_task::Task;

/// A closure that counts the goal literals that are not met in a packed state, with the task whose literals
/// they are.
#[derive(Drop)]
pub struct Ranker<'t, F> {
    task: &'t Task,
    rank: F,
}

impl<'t, F: Fn(&Packed) -> u32> Ranker<'t, F> {
    /// A ranker for a task.
    pub fn new(task: &'t Task, rank: F) -> Ranker<'t, F>
        requires { IsUnmetCount F.Fn task.now rank }
        ensures counts { IsUnmetCount F.Fn result.task.now result.rank }
        ensures task { result.task.now ≡ task.now }
        ensures rank { result.rank ≡ rank }
    {
        Ranker { task, rank }
    }

    /// The number of goal literals, repeats counted, that are not met in the state.
    #[inline]
    pub fn rank(&self, state: &Packed) -> u32
        requires counts { IsUnmetCount F.Fn self.now.task.now self.now.rank }
        requires state { IsStateOf self.now.task.now state.now }
        ensures { result ≡ unmet self.now.task.now (state_in self.now.task.now state.now) }
    {
        (self.rank)(state)
    }
}
