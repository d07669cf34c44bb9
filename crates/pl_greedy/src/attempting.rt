//! One step of an expanded state, and the place of what it registers among the states that wait.

ghost use Rattle.std.specs.Prelude.{◌≡◌, ◌<◌, length, All};
ghost use Rattle.std.specs.Result.{OnOk};
ghost use Rattle.std.specs.BinaryHeap.{heap_items};
ghost use Rattle.pl_task.specs.States.{IsStep};
ghost use Rattle.pl_state.specs.StateOf.{IsStateOf};
ghost use Rattle.pl_state.specs.Decided.{IsDecidedGoal};
ghost use Rattle.pl_registry.specs.Registered.{Registered};
ghost use Rattle.pl_hooks.specs.Sound.{IsSoundCut, IsUnmetCount};
ghost use Rattle.pl_greedy.specs.UnderWay.{Attempts, IsMoreKeys};

use crate::keys::key;
use pl_hooks::{Pruner, Ranker, try_step};
use pl_registry::{Outcome, Registry};
use pl_state::{GoalTest, Packed};
use pl_task::{StepRef, Task};
use std::alloc::{AllocError, Global};
use std::collections::BinaryHeap;

/// Tries a step of entry `n`. The state that it registers is ranked, once, and waits to be expanded. The only
/// error is want of memory.
pub(crate) fn attempt<F: Fn(&Packed) -> u32, G: Fn(&Packed) -> bool>(
    alloc: Global,
    task: &Task,
    goal: &GoalTest,
    registry: &mut Registry,
    ranker: &Ranker<'_, F>,
    pruner: &Pruner<'_, G>,
    n: u32,
    step: StepRef<'_>,
    waiting: &mut BinaryHeap<u64>,
) -> Result<Option<Outcome>, AllocError>
    requires goal { IsDecidedGoal task.now goal.now }
    requires states { All (λ (e : Registered). IsStateOf task.now e.words) registry.old.entries }
    requires number { n < length registry.old.entries }
    requires step { IsStep task.now (record { schema = step.schema; args = step.args.now }) }
    requires ranked { ranker.now.task.now ≡ task.now }
    requires counts { IsUnmetCount F.Fn task.now ranker.now.rank }
    requires same { pruner.now.task.now ≡ task.now }
    requires sound { IsSoundCut G.Fn task.now pruner.now.cut }
    ensures { Attempts G.Fn task.now pruner.now.cut registry.old registry.new n
        (record { schema = step.entry.schema; args = step.entry.args.now })
        (heap_items waiting.old) (heap_items waiting.new) result }
{
    let before = registry.len();
    if let Some(outcome) = try_step(alloc, task, goal, registry, pruner, n, step)? {
        return Ok(Some(outcome));
    }
    if registry.len() <= before {
        return Ok(None);
    }
    admit(task, registry, ranker, before, waiting)?;
    Ok(None)
}

/// Ranks entry `n`, which waits from now on. The only error is want of memory.
pub(crate) fn admit<F: Fn(&Packed) -> u32>(
    task: &Task,
    registry: &Registry,
    ranker: &Ranker<'_, F>,
    n: u32,
    waiting: &mut BinaryHeap<u64>,
) -> Result<(), AllocError>
    requires states { All (λ (e : Registered). IsStateOf task.now e.words) registry.now.entries }
    requires number { n < length registry.now.entries }
    requires ranked { ranker.now.task.now ≡ task.now }
    requires counts { IsUnmetCount F.Fn task.now ranker.now.rank }
    ensures { OnOk result
        (IsMoreKeys task.now registry.now n (heap_items waiting.old) (heap_items waiting.new)) }
{
    let rank = ranker.rank(registry.state(n));
    waiting.push(key(rank, n))?;
    Ok(())
}
