//! Width search.

ghost use Rattle.std.specs.Prelude.{◌≡◌, ◌+◌, ◌≤◌, length, IfOk, IfErr};
ghost use Rattle.pl_gen.specs.Walks.{AreAcyclic};
ghost use Rattle.pl_registry.specs.Registered.{IsRegister};
ghost use Rattle.pl_bfs.specs.Breadth.{IsFresh, search_bound};
ghost use Rattle.pl_bfs.specs.Sifting.{closed_by, stats_by};
ghost use Rattle.pl_bfs.specs.Width.{IsWidth, IsWidthBrokenOff, ending_of_width};

use crate::new_expanding::expand_new;
use crate::sieve::Sieve;
use crate::width_ended::{WidthEnded, WidthOutcome};
use pl_normal::NormalTask;
use pl_registry::{Outcome, Registry};
use pl_state::GoalTest;
use pl_steps::Steps;
use pl_task::List;
use std::alloc::{AllocError, Global};
use std::sync::ledger::Ledger;

/// Searches for a plan as `breadth` does, but registers only states that are new: at most `k` fluent atoms of
/// the state are together in no state that was registered before (Lipovetzky and Geffner 2012). `k` is 1 or
/// 2. Where states were left out that aren't registered, the search may end without a plan though there is
/// one: it says so, by `Exhausted`.
///
/// The registry holds the initial state alone, and gives the limit on states. The only error is want of
/// memory.
///
/// Where all schemas are acyclic it takes at most as many probes as the bounds of the expanded states come
/// to.
pub fn width<L: Ledger>(
    alloc: Global,
    normal: &NormalTask<'_>,
    k: u32,
    registry: &mut Registry,
    steps: &mut Steps<L>,
) -> Result<WidthEnded, AllocError>
    requires some { 1 ≤ k }
    requires few { k ≤ 2 }
    requires fresh { IsFresh normal.now registry.old }
    ensures ended { IfOk result (IsWidth normal.now k registry.old registry.new) }
    ensures wanting { IfErr result (λ _. IsWidthBrokenOff normal.now k registry.old registry.new) }
    ensures cost { IfOk result (λ ended. AreAcyclic normal.now →
        (search : IsWidth normal.now k registry.old registry.new ended) →
        steps.new ≤ steps.old + search_bound normal.now search.of) }
    ensures rise { steps.old ≤ steps.new }
{
    let goal = GoalTest::of(alloc, normal.task())?;
    if goal.holds(normal.task(), registry.state(0)) {
        let none = List::of(Vec::new(alloc));
        return Ok(WidthEnded::of(registry.ended(Outcome::Found(none), 0, 0)));
    }
    let mut sieve = Sieve::of(alloc, normal.task(), k, registry.state(0))?;
    let mut generated = 0;
    let mut n = 0;
    while n < registry.len() {
        if let Some(ended) = expand_new(
            alloc,
            normal,
            &goal,
            registry,
            &mut sieve,
            n,
            &mut generated,
            steps,
        )? {
            return Ok(WidthEnded::of(ended));
        }
        n += 1;
    }
    Ok(closed(sieve.left_out, registry, n as u64, generated))
}

/// The ending of a search that has no state left: whether states were left out decides.
fn closed(left_out: bool, registry: &Registry, expanded: u64, generated: u64) -> WidthEnded
    ensures register { IsRegister registry.now }
    ensures outcome { ending_of_width result.outcome ≡ closed_by left_out }
    ensures stats { result.stats ≡ stats_by (length registry.now.entries) expanded generated }
{
    let ended = registry.ended(Outcome::Unsolvable, expanded, generated);
    let outcome = if left_out {
        WidthOutcome::Exhausted
    } else {
        WidthOutcome::Unsolvable
    };
    WidthEnded {
        outcome,
        stats: ended.stats,
    }
}
