//! The command `successors`: lists the steps that are applicable in a state.

ghost use Rattle.std.specs.Prelude.{◌≡◌, ◌≤◌, ◌+◌, IfErr, IfOk, IfSome, length};
ghost use Rattle.pl_io.specs.Outside.{BegunThen, most_file_bytes};
ghost use Rattle.pl_state.specs.StateOf.{state_in, IsStateOf};
ghost use Rattle.pl_normal.specs.Measures.{probe_bound};
ghost use Rattle.pl_gen.specs.Walks.{AreAcyclic, AreLocal};
ghost use Rattle.pl_top.specs.Answer.{Outcome, IsAnswer, IsListed, list_outcome};
ghost use Rattle.pl_top.specs.Asked.{bytes_in, items_in, options_named};
ghost use Rattle.pl_top.specs.Listing.{page_bound};
ghost use Rattle.pl_top.specs.Refusal.{HasBegun, IsPlanUnread, IsPlanWhole, IsRefused, IsUnanswered};
ghost use Rattle.pl_top.specs.Refusal.{names_after};
ghost use Rattle.pl_top.specs.Request as spec;
ghost use Rattle.pl_top.specs.Run.{RunEnds};
ghost use Rattle.pl_top.specs.Starting.{IsPageOf, IsReady, IsStartOf, IsStartRead, IsStartStated, IsWorkedAt};
ghost use Rattle.pl_top.specs.Work.{IsListWithin, IsWalkWithin};
ghost use Rattle.pl_top.specs.Writing.{Finishes};

use crate::listing::{ListEnd, put_list};
use crate::reaching::{Destination, reached};
use crate::reading::{read_file, read_task_files};
use crate::refusal::{Refusal, cannot_write, refuse};
use crate::request::Options;
use crate::starting::{Start, start_of};
use crate::validating::print_verdict;
use pl_check::FileRole;
use pl_io::{Shelf, Sink};
use pl_state::Packed;
use pl_steps::Steps;
use std::alloc::Global;
use std::sync::ledger::Ledger;

/// Lists the applicable steps of the state that the options name, or says why there is no list.
pub fn successors<S: Shelf, O: Sink, E: Sink, L: Ledger>(
    alloc: Global,
    domain: &str,
    problem: &str,
    options: Options<'_>,
    shelf: &mut S,
    out: &mut O,
    err: &mut E,
    steps: &mut Steps<L>,
) -> u8
    ensures ends { RunEnds (spec.Successors domain.now problem.now (options_named options.entry))
        (S.seen shelf.old) (S.seen shelf.new) (O.seen out.old) (O.seen out.new) (E.seen err.old)
        (E.seen err.new)
        result }
    ensures work { result ≡ 0 → IsListWithin domain.now problem.now (options_named options.entry)
        (S.seen shelf.old) (S.seen shelf.new) steps.old steps.new }
{
    match started(alloc, domain, problem, options, shelf) {
        Ok(start) => finish(alloc, &start, out, err, steps),
        Err(refusal) => refuse(&refusal, err),
    }
}

/// Reads the files, in their order, and what they and the text of the step say.
fn started<S: Shelf>(
    alloc: Global,
    domain: &str,
    problem: &str,
    options: Options<'_>,
    shelf: &mut S,
) -> Result<Start, Refusal>
    ensures start { let request = spec.Successors domain.now problem.now (options_named options.entry) in
        IfOk result (λ start. (outcome : Outcome) → IsWorkedAt start outcome →
        IsAnswer request (S.seen shelf.old).files (S.seen shelf.new).place outcome) }
    ensures read { IfOk result (IsStartRead domain.now problem.now (bytes_in options.entry.after)
        (S.seen shelf.old) (S.seen shelf.new)) }
    ensures page { IfOk result (IsPageOf (bytes_in options.entry.past) options.entry.count) }
    ensures ready { IfOk result IsReady }
    ensures begun { let request = spec.Successors domain.now problem.now (options_named options.entry) in
        IfOk result (λ start. HasBegun request 3 (S.seen shelf.old) (S.seen shelf.new)) }
    ensures refused { let request = spec.Successors domain.now problem.now (options_named options.entry) in
        IfErr result (IsRefused request (S.seen shelf.old) (S.seen shelf.new)) }
{
    let read = read_task_files(alloc, shelf, domain, problem)?;
    let plan = read_plan_file(alloc, shelf, options.after)?;
    start_from(
        alloc,
        &read.domain,
        &read.problem,
        &plan,
        options.past,
        options.count,
    )
}

/// The bytes of the plan file, where one is named.
fn read_plan_file<S: Shelf>(
    alloc: Global,
    shelf: &mut S,
    name: Option<&str>,
) -> Result<Option<Vec<u8>>, Refusal>
    ensures whole { IfOk result (λ plan. IsPlanWhole (bytes_in name.entry)
        (S.seen shelf.old).files (items_in plan)) }
    ensures unread { IfErr result (IsPlanUnread (bytes_in name.entry) (S.seen shelf.old) (S.seen shelf.new)) }
    ensures files { (S.seen shelf.new).files ≡ (S.seen shelf.old).files }
    ensures faults { (S.seen shelf.old).faults ≤ (S.seen shelf.new).faults }
    ensures begun { BegunThen (S.seen shelf.old).begun (names_after (bytes_in name.entry))
        (S.seen shelf.new).begun }
{
    let Some(name) = name else {
        return Ok(None);
    };
    match read_file(alloc, shelf, FileRole::Plan, name) {
        Ok(bytes) => Ok(Some(bytes)),
        Err(refusal) => Err(refusal),
    }
}

/// What the bytes of the files and the text of the step say.
fn start_from(
    alloc: Global,
    domain: &[u8],
    problem: &[u8],
    plan: &Option<Vec<u8>>,
    past: Option<&str>,
    count: Option<u32>,
) -> Result<Start, Refusal>
    requires domain { length domain.now ≤ most_file_bytes }
    requires problem { length problem.now ≤ most_file_bytes }
    requires plan { IfSome plan.now (λ bytes. length bytes.items ≤ most_file_bytes) }
    ensures start { IfOk result
        (IsStartOf domain.now problem.now (items_in plan.now) (bytes_in past.entry) count) }
    ensures stated { IfOk result (IsStartStated domain.now problem.now (items_in plan.now)) }
    ensures page { IfOk result (IsPageOf (bytes_in past.entry) count) }
    ensures ready { IfOk result IsReady }
    ensures refused { IfErr result (IsUnanswered
        (IsListed domain.now problem.now (items_in plan.now) (bytes_in past.entry) count)) }
{
    match plan {
        None => start_of(alloc, domain, problem, None, past, count),
        Some(bytes) => start_of(alloc, domain, problem, Some(bytes.as_slice()), past, count),
    }
}

/// Prints the list of a start or the verdict that refuses a line of its plan, and answers the status.
fn finish<O: Sink, E: Sink, L: Ledger>(
    alloc: Global,
    start: &Start,
    out: &mut O,
    err: &mut E,
    steps: &mut Steps<L>,
) -> u8
    requires { IsReady start.now }
    ensures ends { Finishes (IsWorkedAt start.now)
        (O.seen out.old) (O.seen out.new) (E.seen err.old) (E.seen err.new) result }
    ensures work { result ≡ 0 → IsWalkWithin start.now.task start.now.lines start.now.past start.now.count
        steps.old steps.new }
{
    match reached(alloc, &start.task, start.lines.as_slice()) {
        Ok(Destination::Refused(verdict)) => print_verdict(&verdict, out, err),
        Ok(Destination::State(state)) => print_list(alloc, start, &state, out, err, steps),
        Err(error) => refuse(&Refusal::Memory(error), err),
    }
}

/// Prints the list for a state, and answers the status.
fn print_list<O: Sink, E: Sink, L: Ledger>(
    alloc: Global,
    start: &Start,
    state: &Packed,
    out: &mut O,
    err: &mut E,
    steps: &mut Steps<L>,
) -> u8
    requires ready { IsReady start.now }
    requires state { IsStateOf start.now.task state.now }
    ensures ends { Finishes (λ outcome. outcome ≡
        list_outcome start.now.task (state_in start.now.task state.now) start.now.past start.now.count)
        (O.seen out.old) (O.seen out.new) (E.seen err.old) (E.seen err.new) result }
    ensures work { result ≡ 0 → AreAcyclic start.now.task →
        steps.new ≤ steps.old + probe_bound start.now.task (state_in start.now.task state.now) }
    ensures page { result ≡ 0 → AreAcyclic start.now.task →
        AreLocal start.now.task 0 (length start.now.task.schemas) → steps.new ≤ steps.old +
        page_bound start.now.task (state_in start.now.task state.now) start.now.past start.now.count }
{
    match put_list(
        alloc,
        &start.task,
        state,
        start.past.as_ref(),
        start.count,
        out,
        steps,
    ) {
        Ok(()) => 0,
        Err(ListEnd::Failed(_)) => cannot_write(err),
        Err(ListEnd::Memory(error)) => refuse(&Refusal::Memory(error), err),
    }
}
