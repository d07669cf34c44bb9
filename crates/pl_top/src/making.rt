//! The command `make`: makes a task, looks for a plan of it, and judges the plan.

ghost use Rattle.std.specs.Prelude.{◌≡◌, ◌≤◌, ◌^◌, All, IfErr, IfOk, length, map};
ghost use Rattle.pl_check.specs.Stated.{AreStated};
ghost use Rattle.pl_io.specs.Outside.{ShelfSeen};
ghost use Rattle.pl_make.specs.Texts.{IsSize, domain_text, problem_text};
ghost use Rattle.pl_registry.specs.Ending.{ending_of};
ghost use Rattle.pl_registry.specs.Ending.Ending.{Found};
ghost use Rattle.pl_registry.specs.declared.search.Search.TheVariants as search;
ghost use Rattle.pl_task.specs.States.{IsStep};
ghost use Rattle.pl_task.specs.declared.plan.PlanLine.TheVariants as line;
ghost use Rattle.pl_top.specs.Answer.{IsInputFault, IsMadeOutcome, IsSummed};
ghost use Rattle.pl_top.specs.Planning.{IsOfTask};
ghost use Rattle.pl_top.specs.Refusal.{IsUnanswered};
ghost use Rattle.pl_top.specs.Request as spec;
ghost use Rattle.pl_top.specs.Run.{RunEnds};
ghost use Rattle.pl_top.specs.Searching.{IsSearchedBy};
ghost use Rattle.pl_top.specs.Work.{IsMadeWithin, IsSearchWithin};
ghost use Rattle.pl_top.specs.Writing.{Finishes};
ghost use Rattle.pl_valid.specs.Verdict.{IsVerdict};

use crate::ending::print_ended;
use crate::planning::stated;
use crate::refusal::{Refusal, refuse};
use crate::search_end::{SearchEnd, SearchOutcome};
use crate::searching::breadth_first;
use crate::summary::print_summary;
use pl_io::Sink;
use pl_make::Kind;
use pl_registry::{Ended, Outcome, Stats};
use pl_steps::Steps;
use pl_task::{Plan, PlanLine, Step, Task};
use pl_valid::{Verdict, judge};
use std::alloc::{AllocError, Global};
use std::sync::ledger::Ledger;

/// Makes a task of the kind in size `n`, where `start` is drawn from, and looks for a plan of it: prints what
/// was counted and the verdict on the plan, or why there is no plan. No file is read.
pub fn make<O: Sink, E: Sink, L: Ledger>(
    alloc: Global,
    kind: Kind,
    n: u32,
    start: u64,
    out: &mut O,
    err: &mut E,
    steps: &mut Steps<L>,
) -> u8
    requires { IsSize kind n }
    ensures ends { (shelf : ShelfSeen) → RunEnds (spec.Make kind n start) shelf shelf
        (O.seen out.old) (O.seen out.new) (E.seen err.old) (E.seen err.new) result }
    ensures work { IsOfTask result → IsMadeWithin kind n start steps.old steps.new }
{
    match made_task(alloc, kind, n, start) {
        Ok(task) => solve(alloc, &task, out, err, steps),
        Err(refusal) => refuse(&refusal, err),
    }
}

/// The task that the texts state, or their first fault.
fn made_task(alloc: Global, kind: Kind, n: u32, start: u64) -> Result<Task, Refusal>
    requires { IsSize kind n }
    ensures task { IfOk result (AreStated (domain_text kind) (problem_text kind n start)) }
    ensures refused { IfErr result (IsUnanswered
        (IsInputFault (domain_text kind) (problem_text kind n start))) }
{
    match pl_make::make(alloc, kind, n, start) {
        Ok(made) => stated(alloc, made.domain.as_slice(), made.problem.as_slice()),
        Err(error) => Err(Refusal::Memory(error)),
    }
}

/// Searches for a plan, prints how the search ended, and answers the status.
fn solve<O: Sink, E: Sink, L: Ledger>(
    alloc: Global,
    task: &Task,
    out: &mut O,
    err: &mut E,
    steps: &mut Steps<L>,
) -> u8
    ensures ends { Finishes (IsMadeOutcome task.now)
        (O.seen out.old) (O.seen out.new) (E.seen err.old) (E.seen err.new) result }
    ensures work { IsOfTask result → IsSearchWithin task.now search.Bfs 1000000 steps.old steps.new }
{
    match breadth_first(alloc, task, 1000000, steps) {
        Ok(ended) => conclude(alloc, task, &ended, out, err),
        Err(error) => refuse(&Refusal::Memory(error), err),
    }
}

/// Prints how the search ended, with the verdict on a plan that it found, and answers the status.
fn conclude<O: Sink, E: Sink>(
    alloc: Global,
    task: &Task,
    ended: &Ended,
    out: &mut O,
    err: &mut E,
) -> u8
    requires { IsSearchedBy task.now search.Bfs 1000000 (ending_of ended.now.outcome) ended.now.stats }
    ensures { Finishes (IsMadeOutcome task.now)
        (O.seen out.old) (O.seen out.new) (E.seen err.old) (E.seen err.new) result }
{
    match &ended.outcome {
        Outcome::Found(plan) => sum_up(alloc, task, plan, &ended.stats, out, err),
        Outcome::Unsolvable => print_ended(
            task,
            &SearchEnd {
                outcome: SearchOutcome::Unsolvable,
                stats: ended.stats,
            },
            1000000,
            false,
            out,
            err,
        ),
        Outcome::Limit => print_ended(
            task,
            &SearchEnd {
                outcome: SearchOutcome::Limit,
                stats: ended.stats,
            },
            1000000,
            false,
            out,
            err,
        ),
    }
}

/// Judges the plan and prints the summary. Answers the status.
fn sum_up<O: Sink, E: Sink>(
    alloc: Global,
    task: &Task,
    plan: &Plan,
    stats: &Stats,
    out: &mut O,
    err: &mut E,
) -> u8
    requires few { length plan.now ≤ 2 ^ 24 }
    requires steps { All (IsStep task.now) plan.now }
    ensures { Finishes (IsSummed task.now plan.now stats.now)
        (O.seen out.old) (O.seen out.new) (E.seen err.old) (E.seen err.new) result }
{
    match verdict_on(alloc, task, plan.as_slice()) {
        Ok(verdict) => print_summary(task, plan, stats, &verdict, out, err),
        Err(error) => refuse(&Refusal::Memory(error), err),
    }
}

/// The verdict on the steps of a plan, which are judged as the lines of a plan file are. The error says that
/// memory ran out.
fn verdict_on(alloc: Global, task: &Task, steps: &[Step]) -> Result<Verdict, AllocError>
    requires few { length steps.now ≤ 2 ^ 24 }
    requires steps { All (IsStep task.now) steps.now }
    ensures { IfOk result (IsVerdict task.now (map line.Step steps.now)) }
{
    let lines = lines_of(alloc, steps)?;
    judge(alloc, task, &lines)
}

/// A line for each step.
fn lines_of(alloc: Global, steps: &[Step]) -> Result<Vec<PlanLine>, AllocError>
    requires { All (λ step. length step.args ≤ 64) steps.now }
    ensures { IfOk result (λ lines. lines.items ≡ map line.Step steps.now) }
{
    let mut lines = Vec::with_capacity(alloc, steps.len())?;
    for step in steps {
        lines.push(line_of(alloc, step)?)?;
    }
    Ok(lines)
}

/// The line of a step.
fn line_of(alloc: Global, step: &Step) -> Result<PlanLine, AllocError>
    requires { length step.now.args ≤ 64 }
    ensures { IfOk result (λ l. l ≡ line.Step step.now) }
{
    let own = Step::of(alloc, step.view())?;
    Ok(PlanLine::Step(own))
}
