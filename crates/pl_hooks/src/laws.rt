//! Laws about hooks. Each function does nothing and takes no memory; its contract is the law.

ghost use Rattle.pl_hooks.specs.Laws.{HopelessStatesReachNoGoal, HopelessStatesAreTested};
ghost use Rattle.pl_hooks.specs.Sound.{IsHopelessCut, IsSoundCut};

use pl_state::Packed;
use pl_task::Task;

/// A goal literal that is not met, and whose atom no effect could change, is met in no state that is reached
/// from here.
pub fn hopeless_reaches_no_goal(_task: &Task)
    ensures none { HopelessStatesReachNoGoal _task.now }
{}

/// The test by which a search cuts says yes exactly for the hopeless states: those with a goal literal that
/// is not met, and whose atom no effect could change. Types are not looked at, and a parameter stands for one
/// object at all its places.
pub fn hopeless_states_are_tested(_task: &Task)
    ensures tested { HopelessStatesAreTested _task.now }
{}

/// A closure that says of each state whether it is hopeless is fit for a `Pruner`.
pub fn hopeless_cut_is_sound<F: Fn(&Packed) -> bool>(_task: &Task, _cut: &F)
    ensures sound { IsHopelessCut F.Fn _task.now _cut.now → IsSoundCut F.Fn _task.now _cut.now }
{}
