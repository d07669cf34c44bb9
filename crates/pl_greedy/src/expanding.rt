//! The turn of an entry: its state is expanded.

ghost use Rattle.std.specs.Prelude.{◌≡◌, ◌+◌, ◌<◌, ◌≤◌, ◌++◌, ◌∷◌, ℕ, List, [], length, IfOk};
ghost use Rattle.std.specs.BinaryHeap.{heap_items};
ghost use Rattle.pl_state.specs.Decided.{IsDecidedGoal};
ghost use Rattle.pl_normal.specs.Measures.{probe_bound};
ghost use Rattle.pl_gen.specs.Walks.{AreAcyclic};
ghost use Rattle.pl_registry.specs.Held.{state_at};
ghost use Rattle.pl_registry.specs.Probes.{KeepsEntries};
ghost use Rattle.pl_registry.specs.Registered.{Register};
ghost use Rattle.pl_hooks.specs.Sound.{IsSoundCut, IsUnmetCount};
ghost use Rattle.pl_greedy.specs.UnderWay.{IsChosen, AfterTurn};

use crate::attempting::attempt;
use pl_gen::Prepared;
use pl_hooks::{Pruner, Ranker};
use pl_normal::NormalTask;
use pl_registry::{Ended, Registry};
use pl_state::{GoalTest, Packed};
use pl_steps::Steps;
use std::alloc::{AllocError, Global};
use std::collections::BinaryHeap;
use std::sync::ledger::Ledger;

/// Tries the applicable steps of entry `n`, the first in rank of those that weren't expanded, until the
/// search ends or none is left. `expanded` entries were expanded before. Each step is counted. The only error
/// is want of memory.
///
/// Where all schemas are acyclic it takes at most the bound of the entry's state on probes.
pub(crate) fn expand<L: Ledger, F: Fn(&Packed) -> u32, G: Fn(&Packed) -> bool>(
    alloc: Global,
    normal: &NormalTask<'_>,
    goal: &GoalTest,
    registry: &mut Registry,
    ranker: &Ranker<'_, F>,
    pruner: &Pruner<'_, G>,
    n: u32,
    expanded: u32,
    waiting: &mut BinaryHeap<u64>,
    generated: &mut u64,
    steps: &mut Steps<L>,
) -> Result<Option<Ended>, AllocError>
    requires goal { IsDecidedGoal normal.now goal.now }
    requires number { n < length registry.old.entries }
    requires ranked { ranker.now.task.now ≡ normal.now }
    requires counts { IsUnmetCount F.Fn normal.now ranker.now.rank }
    requires same { pruner.now.task.now ≡ normal.now }
    requires sound { IsSoundCut G.Fn normal.now pruner.now.cut }
    requires way { (first : Register) × (past : List ℕ) × IsChosen G.Fn normal.now pruner.now.cut first
        registry.old past (heap_items waiting.old) n expanded generated.old }
    ensures turn { (first : Register) (past : List ℕ) → IsChosen G.Fn normal.now pruner.now.cut first
        registry.old past (heap_items waiting.old) n expanded generated.old →
        AfterTurn G.Fn normal.now pruner.now.cut first
        registry.new (past ++ n ∷ []) (heap_items waiting.new) expanded generated.new result }
    ensures kept { IfOk result (λ _. KeepsEntries registry.old registry.new) }
    ensures cost { IfOk result (λ _. AreAcyclic normal.now →
        steps.new ≤ steps.old + probe_bound normal.now (state_at normal.now registry.old n)) }
    ensures rise { steps.old ≤ steps.new }
{
    let prepared = Prepared::prepare(alloc, normal, registry.state(n), steps)?;
    let mut walk = prepared.walk();
    while let Some(step) = walk.next(steps) {
        *generated = generated.saturating_add(1);
        if let Some(outcome) = attempt(
            alloc,
            normal.task(),
            goal,
            registry,
            ranker,
            pruner,
            n,
            step,
            waiting,
        )? {
            let expanded = expanded as u64 + 1;
            return Ok(Some(registry.ended(outcome, expanded, *generated)));
        }
    }
    Ok(None)
}
