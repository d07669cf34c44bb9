//! The turn of an entry in a width search: its state is expanded.

ghost use Rattle.std.specs.Prelude.{◌≡◌, ◌+◌, ◌<◌, ◌≤◌, ℕ, length, IfOk, IfSome};
ghost use Rattle.pl_state.specs.Decided.{IsDecidedGoal};
ghost use Rattle.pl_normal.specs.Measures.{probe_bound};
ghost use Rattle.pl_gen.specs.Walks.{AreAcyclic};
ghost use Rattle.pl_registry.specs.Held.{state_at};
ghost use Rattle.pl_registry.specs.Probes.{KeepsEntries};
ghost use Rattle.pl_registry.specs.Registered.{Register};
ghost use Rattle.pl_bfs.specs.Sifting.{IsSiftedBetween, AfterSiftedTurn};

use crate::new_trying::try_new;
use crate::sieve::Sieve;
use pl_gen::Prepared;
use pl_normal::NormalTask;
use pl_registry::{Ended, Registry};
use pl_state::GoalTest;
use pl_steps::Steps;
use std::alloc::{AllocError, Global};
use std::sync::ledger::Ledger;

/// Tries the applicable steps of entry `n`, the first one that wasn't expanded, until the search ends or none
/// is left. Each one is counted. The only error is want of memory.
///
/// Where all schemas are acyclic it takes at most the bound of the entry's state on probes.
pub(crate) fn expand_new<L: Ledger>(
    alloc: Global,
    normal: &NormalTask<'_>,
    goal: &GoalTest,
    registry: &mut Registry,
    sieve: &mut Sieve,
    n: u32,
    generated: &mut u64,
    steps: &mut Steps<L>,
) -> Result<Option<Ended>, AllocError>
    requires goal { IsDecidedGoal normal.now goal.now }
    requires number { n < length registry.old.entries }
    requires way { (k : ℕ) × (first : Register) ×
        IsSiftedBetween normal.now k first registry.old n generated.old sieve.old }
    ensures turn { (k : ℕ) (first : Register) →
        IsSiftedBetween normal.now k first registry.old n generated.old sieve.old →
        AfterSiftedTurn normal.now k first registry.new n generated.new sieve.new result }
    ensures kept { IfOk result (λ _. KeepsEntries registry.old registry.new) }
    ensures counted { IfOk result (λ end. IfSome end (λ ended. ended.stats.expanded ≡ n + 1)) }
    ensures cost { IfOk result (λ _. AreAcyclic normal.now →
        steps.new ≤ steps.old + probe_bound normal.now (state_at normal.now registry.old n)) }
    ensures rise { steps.old ≤ steps.new }
{
    let prepared = Prepared::prepare(alloc, normal, registry.state(n), steps)?;
    let mut walk = prepared.walk();
    while let Some(step) = walk.next(steps) {
        *generated = generated.saturating_add(1);
        if let Some(outcome) = try_new(alloc, normal.task(), goal, registry, sieve, n, step)? {
            let expanded = n as u64 + 1;
            return Ok(Some(registry.ended(outcome, expanded, *generated)));
        }
    }
    Ok(None)
}
