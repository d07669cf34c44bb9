//! One step of an expanded state.

ghost use Rattle.std.specs.Prelude.{◌≡◌, ◌<◌, length, All};
ghost use Rattle.pl_task.specs.States.{IsStep};
ghost use Rattle.pl_state.specs.StateOf.{IsStateOf};
ghost use Rattle.pl_state.specs.Decided.{IsDecidedGoal};
ghost use Rattle.pl_registry.specs.Registered.{Registered};
ghost use Rattle.pl_hooks.specs.Sound.{IsSoundCut};
ghost use Rattle.pl_hooks.specs.Trying.{Tries};

use crate::Pruner;
use pl_registry::{Outcome, Refused, Registry};
use pl_state::{GoalTest, Packed, apply};
use pl_task::{StepRef, Task};
use std::alloc::{AllocError, Global};

/// Makes the state that the step of entry `n` leads to. A goal state ends the search with the plan that leads
/// there, and a state that is to be registered ends it where the registry is full. The only error is want of
/// memory.
pub fn try_step<F: Fn(&Packed) -> bool>(
    alloc: Global,
    task: &Task,
    goal: &GoalTest,
    registry: &mut Registry,
    pruner: &Pruner<'_, F>,
    n: u32,
    step: StepRef<'_>,
) -> Result<Option<Outcome>, AllocError>
    requires goal { IsDecidedGoal task.now goal.now }
    requires states { All (λ (e : Registered). IsStateOf task.now e.words) registry.old.entries }
    requires number { n < length registry.old.entries }
    requires step { IsStep task.now (record { schema = step.schema; args = step.args.now }) }
    requires same { pruner.now.task.now ≡ task.now }
    requires sound { IsSoundCut F.Fn task.now pruner.now.cut }
    ensures { Tries F.Fn task.now pruner.now.cut registry.old registry.new n
        (record { schema = step.entry.schema; args = step.entry.args.now }) result }
{
    let next = apply(alloc, task, registry.state(n), step)?;
    if goal.holds(task, &next) {
        let plan = registry.path_then(alloc, n, step)?;
        return Ok(Some(Outcome::Found(plan)));
    }
    if pruner.cut(&next) {
        return Ok(None);
    }
    match registry.add(next, n, step) {
        Ok(_) => Ok(None),
        Err(Refused::Full) => Ok(Some(Outcome::Limit)),
        Err(Refused::Memory(e)) => Err(e),
    }
}
