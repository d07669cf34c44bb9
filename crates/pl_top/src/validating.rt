//! The command `validate`: judges a plan.

ghost use Rattle.std.specs.Prelude.{◌≡◌, ◌≤◌, length, IfOk, IfErr};
ghost use Rattle.pl_io.specs.Outside.{most_file_bytes};
ghost use Rattle.pl_top.specs.Answer.{IsAnswer, IsJudged, bytes_of, verdict_outcome, verdict_status};
ghost use Rattle.pl_top.specs.Refusal.{HasBegun, IsRefused, IsUnjudged, input_refusal};
ghost use Rattle.pl_top.specs.Request as spec;
ghost use Rattle.pl_print.specs.Texts.{verdict_text};
ghost use Rattle.pl_top.specs.Run.{RunEnds};
ghost use Rattle.pl_top.specs.Writing.{Writes};

use crate::reading::{read_file, read_task_files};
use crate::refusal::{Refusal, cannot_write, refuse};
use pl_check::{CheckEnd, FileRole, InputFault, check, read_plan};
use pl_io::{Shelf, Sink};
use pl_print::put_verdict;
use pl_text::line_column;
use pl_valid::{Verdict, judge};
use std::alloc::Global;

/// Judges the plan on the task that domain and problem state: prints the verdict, or why there is none.
pub fn validate<S: Shelf, O: Sink, E: Sink>(
    alloc: Global,
    domain: &str,
    problem: &str,
    plan: &str,
    shelf: &mut S,
    out: &mut O,
    err: &mut E,
) -> u8
    ensures { RunEnds (spec.Validate domain.now problem.now plan.now) (S.seen shelf.old) (S.seen shelf.new)
        (O.seen out.old) (O.seen out.new) (E.seen err.old) (E.seen err.new) result }
{
    match verdict_on(alloc, domain, problem, plan, shelf) {
        Ok(verdict) => print_verdict(&verdict, out, err),
        Err(refusal) => refuse(&refusal, err),
    }
}

/// Prints the verdict, and answers the status.
pub fn print_verdict<O: Sink, E: Sink>(verdict: &Verdict, out: &mut O, err: &mut E) -> u8
    ensures { Writes (verdict_text verdict.now) (verdict_status verdict.now)
        (O.seen out.old) (O.seen out.new) (E.seen err.old) (E.seen err.new) result }
{
    match put_verdict(out, verdict) {
        Ok(()) => status(verdict),
        Err(_) => cannot_write(err),
    }
}

/// The status of a run that prints the verdict.
fn status(verdict: &Verdict) -> u8
    ensures { result ≡ verdict_status verdict.now }
{
    match verdict {
        Verdict::Valid(_) => 0,
        Verdict::Invalid { .. } | Verdict::GoalMissed => 1,
    }
}

/// Reads the three files, in this order, and judges the plan.
fn verdict_on<S: Shelf>(
    alloc: Global,
    domain: &str,
    problem: &str,
    plan: &str,
    shelf: &mut S,
) -> Result<Verdict, Refusal>
    ensures verdict { let request = spec.Validate domain.now problem.now plan.now in IfOk result (λ verdict.
        IsAnswer request (S.seen shelf.old).files (S.seen shelf.new).place (verdict_outcome verdict)) }
    ensures begun { let request = spec.Validate domain.now problem.now plan.now in
        IfOk result (λ verdict. HasBegun request 3 (S.seen shelf.old) (S.seen shelf.new)) }
    ensures refused { let request = spec.Validate domain.now problem.now plan.now in
        IfErr result (IsRefused request (S.seen shelf.old) (S.seen shelf.new)) }
{
    let read = read_task_files(alloc, shelf, domain, problem)?;
    let plan = read_file(alloc, shelf, FileRole::Plan, plan)?;
    judged(alloc, &read.domain, &read.problem, &plan)
}

/// The verdict on the plan, or the first fault of the files.
fn judged(alloc: Global, domain: &[u8], problem: &[u8], plan: &[u8]) -> Result<Verdict, Refusal>
    requires domain { length domain.now ≤ most_file_bytes }
    requires problem { length problem.now ≤ most_file_bytes }
    requires plan { length plan.now ≤ most_file_bytes }
    ensures verdict { IfOk result (λ verdict. IsJudged domain.now problem.now plan.now
        (verdict_outcome verdict)) }
    ensures refused { IfErr result (IsUnjudged domain.now problem.now plan.now) }
{
    let task = match check(alloc, domain, problem) {
        Ok(task) => task,
        Err(CheckEnd::Fault(fault)) => return Err(of_input(domain, problem, fault)),
        Err(CheckEnd::Memory(error)) => return Err(Refusal::Memory(error)),
    };
    let lines = match read_plan(alloc, plan, &task) {
        Ok(lines) => lines,
        Err(CheckEnd::Fault(fault)) => return Err(faulty(plan, fault)),
        Err(CheckEnd::Memory(error)) => return Err(Refusal::Memory(error)),
    };
    match judge(alloc, &task, lines.as_slice()) {
        Ok(verdict) => Ok(verdict),
        Err(error) => Err(Refusal::Memory(error)),
    }
}

/// The refusal for a fault of the domain or of the problem.
pub fn of_input(domain: &[u8], problem: &[u8], fault: InputFault) -> Refusal
    requires domain { length domain.now ≤ most_file_bytes }
    requires problem { length problem.now ≤ most_file_bytes }
    ensures { result ≡ input_refusal (bytes_of domain.now problem.now fault.file) fault }
{
    match fault.file {
        FileRole::Domain => faulty(domain, fault),
        FileRole::Problem => faulty(problem, fault),
        FileRole::Plan => faulty(&[], fault),
    }
}

/// The refusal for a fault of a file with these bytes, by its line and its column.
pub fn faulty(bytes: &[u8], fault: InputFault) -> Refusal
    requires { length bytes.now ≤ most_file_bytes }
    ensures { result ≡ input_refusal bytes.now fault }
{
    let (line, column) = line_column(bytes, fault.at.min(bytes.len() as u32));
    Refusal::Input {
        file: fault.file,
        line,
        column,
        kind: fault.kind,
    }
}
