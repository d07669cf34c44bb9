//! The command `plan`: looks for a plan.

ghost use Rattle.std.specs.Prelude.{◌≡◌, ◌<◌, ◌-◌, ◌≤◌, ◌^◌, IfErr, IfOk, length};
ghost use Rattle.std.specs.Option.{option_map};
ghost use Rattle.pl_check.specs.Stated.{AreStated};
ghost use Rattle.pl_io.specs.Outside.{most_file_bytes};
ghost use Rattle.pl_top.specs.Answer.{Outcome, IsAnswer, IsInputFault, IsSearchOutcome};
ghost use Rattle.pl_top.specs.Asked.{kind_named, plan_options_named};
ghost use Rattle.pl_top.specs.Refusal.{HasBegun, IsRefused, IsUnanswered};
ghost use Rattle.pl_top.specs.Request as spec;
ghost use Rattle.pl_top.specs.Run.{RunEnds};
ghost use Rattle.pl_top.specs.Searching.{limit_of, limit_or_default, search_of, search_or_bfs};
ghost use Rattle.pl_top.specs.Work.{IsPlanWithin, IsSearchEnded, IsSearchWithin, IsTaskRead};
ghost use Rattle.pl_top.specs.Writing.{Finishes};

use crate::ending::print_ended;
use crate::plan_options::{Kind, PlanOptions};
use crate::reading::read_task_files;
use crate::refusal::{Refusal, refuse};
use crate::searching::searched;
use crate::validating::of_input;
use pl_check::{CheckEnd, check};
use pl_io::{Shelf, Sink};
use pl_steps::Steps;
use pl_task::Task;
use std::alloc::Global;
use std::sync::ledger::Ledger;

/// Looks for a plan of the task that domain and problem state: prints it, or why there is none.
pub fn plan<S: Shelf, O: Sink, E: Sink, L: Ledger>(
    alloc: Global,
    domain: &str,
    problem: &str,
    options: PlanOptions,
    shelf: &mut S,
    out: &mut O,
    err: &mut E,
    steps: &mut Steps<L>,
) -> u8
    requires fits { limit_or_default options.limit < 2 ^ 32 - 1 }
    requires some { 1 ≤ limit_or_default options.limit }
    ensures ends { RunEnds (spec.FindPlan domain.now problem.now (plan_options_named options))
        (S.seen shelf.old) (S.seen shelf.new) (O.seen out.old) (O.seen out.new)
        (E.seen err.old) (E.seen err.new) result }
    ensures work { IsSearchEnded result → IsPlanWithin domain.now problem.now (plan_options_named options)
        (S.seen shelf.old) (S.seen shelf.new) steps.old steps.new }
{
    match read_task(alloc, domain, problem, options, shelf) {
        Ok(task) => solve(alloc, &task, options, out, err, steps),
        Err(refusal) => refuse(&refusal, err),
    }
}

/// Reads the two files, in their order, and the task that they state.
fn read_task<S: Shelf>(
    alloc: Global,
    domain: &str,
    problem: &str,
    _options: PlanOptions,
    shelf: &mut S,
) -> Result<Task, Refusal>
    ensures task { let request = spec.FindPlan domain.now problem.now (plan_options_named _options) in
        IfOk result (λ task. (outcome : Outcome) →
        IsSearchOutcome task (plan_options_named _options) outcome →
        IsAnswer request (S.seen shelf.old).files (S.seen shelf.new).place outcome) }
    ensures read { IfOk result (IsTaskRead domain.now problem.now (S.seen shelf.old) (S.seen shelf.new)) }
    ensures begun { let request = spec.FindPlan domain.now problem.now (plan_options_named _options) in
        IfOk result (λ task. HasBegun request 2 (S.seen shelf.old) (S.seen shelf.new)) }
    ensures refused { let request = spec.FindPlan domain.now problem.now (plan_options_named _options) in
        IfErr result (IsRefused request (S.seen shelf.old) (S.seen shelf.new)) }
{
    let read = read_task_files(alloc, shelf, domain, problem)?;
    stated(alloc, &read.domain, &read.problem)
}

/// The task that the bytes of a domain and a problem state, or their first fault.
pub fn stated(alloc: Global, domain: &[u8], problem: &[u8]) -> Result<Task, Refusal>
    requires domain { length domain.now ≤ most_file_bytes }
    requires problem { length problem.now ≤ most_file_bytes }
    ensures task { IfOk result (AreStated domain.now problem.now) }
    ensures refused { IfErr result (IsUnanswered (IsInputFault domain.now problem.now)) }
{
    match check(alloc, domain, problem) {
        Ok(task) => Ok(task),
        Err(CheckEnd::Fault(fault)) => Err(of_input(domain, problem, fault)),
        Err(CheckEnd::Memory(error)) => Err(Refusal::Memory(error)),
    }
}

/// Searches for a plan, prints how the search ended, and answers the status.
fn solve<O: Sink, E: Sink, L: Ledger>(
    alloc: Global,
    task: &Task,
    options: PlanOptions,
    out: &mut O,
    err: &mut E,
    steps: &mut Steps<L>,
) -> u8
    requires fits { limit_or_default options.limit < 2 ^ 32 - 1 }
    requires some { 1 ≤ limit_or_default options.limit }
    ensures ends { Finishes (IsSearchOutcome task.now (plan_options_named options))
        (O.seen out.old) (O.seen out.new) (E.seen err.old) (E.seen err.new) result }
    ensures work { let asked = plan_options_named options in
        IsSearchEnded result → IsSearchWithin task.now (search_of asked)
        (limit_of asked) steps.old steps.new }
{
    let kind = kind_of(options.search);
    let limit = limit_of(options.limit);
    match searched(alloc, task, kind, limit, steps) {
        Ok(end) => print_ended(task, &end, limit, options.stats, out, err),
        Err(error) => refuse(&Refusal::Memory(error), err),
    }
}

/// By which search: breadth-first where none is named.
fn kind_of(search: Option<Kind>) -> Kind
    ensures { kind_named result ≡ search_or_bfs (option_map kind_named search) }
{
    search.unwrap_or(Kind::Bfs)
}

/// How many states are registered at most: a million where no limit is given.
fn limit_of(limit: Option<u32>) -> u32
    ensures { result ≡ limit_or_default limit }
{
    limit.unwrap_or(1000000)
}
