//! The searches for a plan.

ghost use Rattle.std.specs.Prelude.{◌<◌, ◌-◌, ◌≤◌, ◌^◌, IfOk};
ghost use Rattle.pl_bfs.specs.Width.{ending_of_width};
ghost use Rattle.pl_registry.specs.Ending.{ending_of};
ghost use Rattle.pl_registry.specs.declared.search.Search.{Search};
ghost use Rattle.pl_registry.specs.declared.search.Search.TheVariants as search;
ghost use Rattle.pl_top.specs.Asked.{kind_named};
ghost use Rattle.pl_top.specs.Ended.{ending_in, IsSearchedWithin};
ghost use Rattle.pl_top.specs.Searching.{IsOfWidth};

use crate::plan_options::Kind;
use crate::search_end::SearchEnd;
use pl_bfs::{WidthEnded, breadth, width};
use pl_greedy::greedy;
use pl_hooks::{HopelessTest, Pruner, Ranker};
use pl_normal::normal;
use pl_registry::{Ended, Registry};
use pl_state::{GoalTest, Packed, pack};
use pl_steps::Steps;
use pl_task::Task;
use std::alloc::{AllocError, Global};
use std::sync::ledger::Ledger;

/// How the search of this kind ends, with at most `limit` states. The only error is want of memory.
pub fn searched<L: Ledger>(
    alloc: Global,
    task: &Task,
    kind: Kind,
    limit: u32,
    steps: &mut Steps<L>,
) -> Result<SearchEnd, AllocError>
    requires some { 1 ≤ limit }
    requires fits { limit < 2 ^ 32 - 1 }
    ensures ended { IfOk result (λ end. IsSearchedWithin task.now (kind_named kind) limit
        (ending_in end.outcome) end.stats steps.old steps.new) }
    ensures rise { steps.old ≤ steps.new }
{
    match kind {
        Kind::Bfs => Ok(SearchEnd::of(breadth_first(alloc, task, limit, steps)?)),
        Kind::Gbfs => Ok(SearchEnd::of(best_first(alloc, task, limit, steps)?)),
        Kind::Iw1 => Ok(SearchEnd::of_width(by_width(alloc, task, 1, limit, steps)?)),
        Kind::Iw2 => Ok(SearchEnd::of_width(by_width(alloc, task, 2, limit, steps)?)),
    }
}

/// How breadth-first search of the task ends, with at most `limit` states. Hopeless states are cut. The only
/// error is want of memory.
pub fn breadth_first<L: Ledger>(
    alloc: Global,
    task: &Task,
    limit: u32,
    steps: &mut Steps<L>,
) -> Result<Ended, AllocError>
    requires some { 1 ≤ limit }
    requires fits { limit < 2 ^ 32 - 1 }
    ensures ended { IfOk result (λ ended. IsSearchedWithin task.now search.Bfs limit
        (ending_of ended.outcome) ended.stats steps.old steps.new) }
    ensures rise { steps.old ≤ steps.new }
{
    let normal = normal(alloc, task)?;
    let initial = pack(alloc, task, task.init.as_slice())?;
    let mut registry = Registry::new(alloc, limit, initial)?;
    let test = HopelessTest::of(alloc, task)?;
    let pruner = Pruner::new(task, |state: &Packed| test.is_hopeless(task, state));
    breadth(alloc, &normal, &mut registry, &pruner, steps)
}

/// How greedy best-first search of the task ends, by the number of unmet goal literals, with at most `limit`
/// states. Hopeless states are cut. The only error is want of memory.
fn best_first<L: Ledger>(
    alloc: Global,
    task: &Task,
    limit: u32,
    steps: &mut Steps<L>,
) -> Result<Ended, AllocError>
    requires some { 1 ≤ limit }
    requires fits { limit < 2 ^ 32 - 1 }
    ensures ended { IfOk result (λ ended. IsSearchedWithin task.now search.Gbfs limit
        (ending_of ended.outcome) ended.stats steps.old steps.new) }
    ensures rise { steps.old ≤ steps.new }
{
    let normal = normal(alloc, task)?;
    let initial = pack(alloc, task, task.init.as_slice())?;
    let mut registry = Registry::new(alloc, limit, initial)?;
    let goal = GoalTest::of(alloc, task)?;
    let ranker = Ranker::new(task, |state: &Packed| goal.unmet(task, state));
    let test = HopelessTest::of(alloc, task)?;
    let pruner = Pruner::new(task, |state: &Packed| test.is_hopeless(task, state));
    greedy(alloc, &normal, &mut registry, &ranker, &pruner, steps)
}

/// How the search of the task by width `k` ends, which is 1 or 2, with at most `limit` states. The only error
/// is want of memory.
fn by_width<L: Ledger>(
    alloc: Global,
    task: &Task,
    k: u32,
    limit: u32,
    steps: &mut Steps<L>,
) -> Result<WidthEnded, AllocError>
    requires least { 1 ≤ k }
    requires most { k ≤ 2 }
    requires some { 1 ≤ limit }
    requires fits { limit < 2 ^ 32 - 1 }
    ensures ended { (by : Search) → IsOfWidth by k → IfOk result (λ ended. IsSearchedWithin task.now by limit
        (ending_of_width ended.outcome) ended.stats steps.old steps.new) }
    ensures rise { steps.old ≤ steps.new }
{
    let normal = normal(alloc, task)?;
    let initial = pack(alloc, task, task.init.as_slice())?;
    let mut registry = Registry::new(alloc, limit, initial)?;
    width(alloc, &normal, k, &mut registry, steps)
}
