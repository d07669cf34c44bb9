//! One step of an expanded state, in a width search.

ghost use Rattle.std.specs.Prelude.{◌<◌, ℕ, length, All};
ghost use Rattle.pl_task.specs.States.{IsStep};
ghost use Rattle.pl_state.specs.StateOf.{IsStateOf};
ghost use Rattle.pl_state.specs.Decided.{IsDecidedGoal};
ghost use Rattle.pl_registry.specs.Registered.{Registered};
ghost use Rattle.pl_registry.specs.Held.{states_held};
ghost use Rattle.pl_bfs.specs.Sifting.{NotesSeen, TriesNew};

use crate::sieve::Sieve;
use pl_registry::{Outcome, Refused, Registry};
use pl_state::{GoalTest, apply};
use pl_task::{StepRef, Task};
use std::alloc::{AllocError, Global};

/// Makes the state that the step of entry `n` leads to, as `try_step` does, and leaves it out where it isn't
/// new. The only error is want of memory.
pub(crate) fn try_new(
    alloc: Global,
    task: &Task,
    goal: &GoalTest,
    registry: &mut Registry,
    sieve: &mut Sieve,
    n: u32,
    step: StepRef<'_>,
) -> Result<Option<Outcome>, AllocError>
    requires goal { IsDecidedGoal task.now goal.now }
    requires states { All (λ (e : Registered). IsStateOf task.now e.words) registry.old.entries }
    requires number { n < length registry.old.entries }
    requires step { IsStep task.now (record { schema = step.schema; args = step.args.now }) }
    requires seen { (k : ℕ) × NotesSeen task.now k (states_held task.now registry.old) sieve.old.novelty }
    ensures tries { (k : ℕ) → NotesSeen task.now k (states_held task.now registry.old) sieve.old.novelty →
        TriesNew task.now k registry.old registry.new sieve.old sieve.new n
        (record { schema = step.entry.schema; args = step.entry.args.now }) result }
{
    let next = apply(alloc, task, registry.state(n), step)?;
    if goal.holds(task, &next) {
        let plan = registry.path_then(alloc, n, step)?;
        return Ok(Some(Outcome::Found(plan)));
    }
    if !sieve.is_new(task, registry, &next, step)? {
        return Ok(None);
    }
    match registry.add(next, n, step) {
        Ok(_) => Ok(None),
        Err(Refused::Full) => Ok(Some(Outcome::Limit)),
        Err(Refused::Memory(e)) => Err(e),
    }
}
