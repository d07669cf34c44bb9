//! Greedy best-first search.

ghost use Rattle.std.specs.Prelude.{◌≡◌, ◌+◌, ◌≤◌, IfOk, IfErr};
ghost use Rattle.pl_gen.specs.Walks.{AreAcyclic};
ghost use Rattle.pl_registry.specs.Fresh.{IsFresh};
ghost use Rattle.pl_hooks.specs.Sound.{IsSoundCut, IsUnmetCount};
ghost use Rattle.pl_greedy.specs.Greedy.{IsGreedy, IsBrokenOff, search_bound};

use crate::attempting::admit;
use crate::expanding::expand;
use crate::keys::number;
use pl_hooks::{Pruner, Ranker};
use pl_normal::NormalTask;
use pl_registry::{Ended, Outcome, Registry};
use pl_state::{GoalTest, Packed};
use pl_steps::Steps;
use pl_task::List;
use std::alloc::{AllocError, Global};
use std::collections::BinaryHeap;
use std::sync::ledger::Ledger;

/// Searches for a plan: of the registered states that weren't expanded, the one with the fewest unmet goal
/// literals, and among equals the one with the least number, is expanded next. A successor that the pruner
/// drops isn't registered. A goal state ends the search as soon as it is reached.
///
/// The registry holds the initial state alone, and gives the limit on states. The only error is want of
/// memory.
///
/// Where all schemas are acyclic it takes at most as many probes as the bounds of the expanded states come
/// to.
pub fn greedy<L: Ledger, F: Fn(&Packed) -> u32, G: Fn(&Packed) -> bool>(
    alloc: Global,
    normal: &NormalTask<'_>,
    registry: &mut Registry,
    ranker: &Ranker<'_, F>,
    pruner: &Pruner<'_, G>,
    steps: &mut Steps<L>,
) -> Result<Ended, AllocError>
    requires fresh { IsFresh normal.now registry.old }
    requires ranked { ranker.now.task.now ≡ normal.now }
    requires counts { IsUnmetCount F.Fn normal.now ranker.now.rank }
    requires task { pruner.now.task.now ≡ normal.now }
    requires sound { IsSoundCut G.Fn normal.now pruner.now.cut }
    ensures ended { IfOk result (IsGreedy G.Fn normal.now pruner.now.cut registry.old registry.new) }
    ensures wanting { IfErr result (λ _.
        IsBrokenOff G.Fn normal.now pruner.now.cut registry.old registry.new) }
    ensures cost { IfOk result (λ ended. AreAcyclic normal.now →
        (search : IsGreedy G.Fn normal.now pruner.now.cut registry.old registry.new ended) →
        steps.new ≤ steps.old + search_bound normal.now search.of) }
    ensures rise { steps.old ≤ steps.new }
{
    let goal = GoalTest::of(alloc, normal.task())?;
    if goal.holds(normal.task(), registry.state(0)) {
        let none = List::of(Vec::new(alloc));
        return Ok(registry.ended(Outcome::Found(none), 0, 0));
    }
    if pruner.cut(registry.state(0)) {
        return Ok(registry.ended(Outcome::Unsolvable, 0, 0));
    }
    let mut waiting = BinaryHeap::new(alloc);
    admit(normal.task(), registry, ranker, 0, &mut waiting)?;
    let mut generated = 0;
    let mut expanded = 0;
    while let Some(first) = waiting.pop() {
        // No more entries than the limit: so the count fits, and the search ends.
        let _states = registry.len();
        if let Some(ended) = expand(
            alloc,
            normal,
            &goal,
            registry,
            ranker,
            pruner,
            number(first),
            expanded,
            &mut waiting,
            &mut generated,
            steps,
        )? {
            return Ok(ended);
        }
        expanded += 1;
    }
    Ok(registry.ended(Outcome::Unsolvable, expanded as u64, generated))
}
