//! Breadth-first search.

ghost use Rattle.std.specs.Prelude.{◌≡◌, ◌+◌, ◌≤◌, IfOk, IfErr};
ghost use Rattle.pl_hooks.specs.Sound.{IsSoundCut};
ghost use Rattle.pl_gen.specs.Walks.{AreAcyclic};
ghost use Rattle.pl_bfs.specs.Breadth.{IsFresh, IsBreadth, IsBrokenOff, IsLeastIfFound, search_bound};

use crate::expanding::expand;
use pl_hooks::Pruner;
use pl_normal::NormalTask;
use pl_registry::{Ended, Outcome, Registry};
use pl_state::{GoalTest, Packed};
use pl_steps::Steps;
use pl_task::List;
use std::alloc::{AllocError, Global};
use std::sync::ledger::Ledger;

/// Searches for a plan: states are registered in the order in which they are reached, and expanded in the
/// order of their numbers. A successor that the pruner drops isn't registered. A goal state ends the search
/// as soon as it is reached. So the plan that is found is the first, step by step in the order of steps, of
/// all plans with the fewest steps.
///
/// The registry holds the initial state alone, and gives the limit on states. The only error is want of
/// memory.
///
/// Where all schemas are acyclic it takes at most as many probes as the bounds of the expanded states come
/// to.
pub fn breadth<L: Ledger, F: Fn(&Packed) -> bool>(
    alloc: Global,
    normal: &NormalTask<'_>,
    registry: &mut Registry,
    pruner: &Pruner<'_, F>,
    steps: &mut Steps<L>,
) -> Result<Ended, AllocError>
    requires fresh { IsFresh normal.now registry.old }
    requires task { pruner.now.task.now ≡ normal.now }
    requires sound { IsSoundCut F.Fn normal.now pruner.now.cut }
    ensures ended { IfOk result (IsBreadth F.Fn normal.now pruner.now.cut registry.old registry.new) }
    ensures least { IfOk result (λ ended. IsLeastIfFound normal.now ended.outcome) }
    ensures wanting { IfErr result (λ _.
        IsBrokenOff F.Fn normal.now pruner.now.cut registry.old registry.new) }
    ensures cost { IfOk result (λ ended. AreAcyclic normal.now →
        (search : IsBreadth F.Fn normal.now pruner.now.cut registry.old registry.new ended) →
        steps.new ≤ steps.old + search_bound normal.now search.of) }
    ensures rise { steps.old ≤ steps.new }
{
    let goal = GoalTest::of(alloc, normal.task())?;
    if goal.holds(normal.task(), registry.state(0)) {
        let none = List::of(Vec::new(alloc));
        return Ok(registry.ended(Outcome::Found(none), 0, 0));
    }
    if pruner.cut(registry.state(0)) {
        return Ok(registry.ended(Outcome::Unsolvable, 0, 0));
    }
    let mut generated = 0;
    let mut n = 0;
    while n < registry.len() {
        if let Some(ended) = expand(
            alloc,
            normal,
            &goal,
            registry,
            pruner,
            n,
            &mut generated,
            steps,
        )? {
            return Ok(ended);
        }
        n += 1;
    }
    Ok(registry.ended(Outcome::Unsolvable, n as u64, generated))
}
