//! The top call.

ghost use Rattle.std.specs.Prelude.{◌≡◌, ◌≢◌, [], IfSome, IfNone};
ghost use Rattle.pl_print.specs.Texts.{fault_text};
ghost use Rattle.pl_print.specs.declared.fault.Fault.TheVariants as fault;
ghost use Rattle.pl_top.specs.Asked.{named};
ghost use Rattle.pl_top.specs.Planning.{IfSays, IsDecisive};
ghost use Rattle.pl_top.specs.Request as spec;
ghost use Rattle.pl_top.specs.Run.{RunEnds, IsComplete, IsLinePut, IfProbeless};
ghost use Rattle.pl_top.specs.Searching.{CanRun};
ghost use Rattle.pl_top.specs.Work.{IsWithin};

use crate::making::make;
use crate::planning::plan;
use crate::refusal::put_line;
use crate::request::{Request, request_of};
use crate::successors::successors;
use crate::validating::validate;
use crate::words::Words;
use pl_check::laws::task_is_one;
use pl_io::{Shelf, Sink};
use pl_print::Fault;
use pl_steps::Steps;
use std::alloc::Global;
use std::sync::ledger::Ledger;

/// Does what the words ask: reads the files from the shelf, writes the answer to `out` and a refusal's line
/// to `err`, and answers the exit status. `steps` counts the probes of the run.
pub fn run<S: Shelf, O: Sink, E: Sink, L: Ledger>(
    alloc: Global,
    words: &Words,
    shelf: &mut S,
    out: &mut O,
    err: &mut E,
    steps: &mut Steps<L>,
) -> u8
    ensures no_request { IfNone (spec.request_of words.now)
        ((result ≡ 2) × (shelf.new ≡ shelf.old) × (out.new ≡ out.old) × (steps.new ≡ steps.old)) }
    ensures bad_words { IfNone (spec.request_of words.now)
        (IsLinePut (fault_text fault.Words) (E.seen err.old) (E.seen err.new)) }
    ensures ends { IfSome (spec.request_of words.now) (λ request.
        RunEnds request (S.seen shelf.old) (S.seen shelf.new) (O.seen out.old) (O.seen out.new)
        (E.seen err.old) (E.seen err.new) result) }
    ensures no_file { IfSome (spec.request_of words.now) (λ request.
        spec.names_of request ≡ [] → shelf.new ≡ shelf.old) }
    ensures no_read { IfSome (spec.request_of words.now) (λ request. spec.names_of request ≡ [] →
        result ≢ 4) }
    ensures probes { IfSome (spec.request_of words.now) (λ request.
        IfProbeless request (steps.new ≡ steps.old)) }
    ensures work { IfSome (spec.request_of words.now) (λ request.
        IsWithin request (S.seen shelf.old) (S.seen shelf.new) steps.old steps.new result) }
    ensures complete { IfSome (spec.request_of words.now) (λ request.
        IsComplete request (S.seen shelf.old) (S.seen shelf.new) (O.seen out.old) (O.seen out.new) result) }
    ensures says { IfSome (spec.request_of words.now) (λ request.
        IfSays request (S.seen shelf.old) (S.seen shelf.new) (O.seen out.old) (O.seen out.new) result) }
    ensures decisive { IfSome (spec.request_of words.now) (λ request.
        IsDecisive request (S.seen shelf.old) (S.seen shelf.new) (O.seen out.old) (O.seen out.new) result) }
{
    match request_of(words) {
        None => {
            put_line(err, &Fault::Words);
            2
        }
        Some(request) => {
            task_is_one();
            perform(alloc, &request, shelf, out, err, steps)
        }
    }
}

/// Calls the command that is asked for.
fn perform<S: Shelf, O: Sink, E: Sink, L: Ledger>(
    alloc: Global,
    request: &Request<'_>,
    shelf: &mut S,
    out: &mut O,
    err: &mut E,
    steps: &mut Steps<L>,
) -> u8
    requires { CanRun (named request.now) }
    ensures ends { RunEnds (named request.now) (S.seen shelf.old) (S.seen shelf.new)
        (O.seen out.old) (O.seen out.new) (E.seen err.old) (E.seen err.new) result }
    ensures no_file { spec.names_of (named request.now) ≡ [] → shelf.new ≡ shelf.old }
    ensures probes { IfProbeless (named request.now) (steps.new ≡ steps.old) }
    ensures work { IsWithin (named request.now) (S.seen shelf.old) (S.seen shelf.new) steps.old steps.new
        result }
{
    match *request {
        Request::Validate {
            domain,
            problem,
            plan,
        } => validate(alloc, domain, problem, plan, shelf, out, err),
        Request::Successors {
            domain,
            problem,
            options,
        } => successors(alloc, domain, problem, options, shelf, out, err, steps),
        Request::Plan {
            domain,
            problem,
            options,
        } => plan(alloc, domain, problem, options, shelf, out, err, steps),
        Request::Make { kind, n, start } => make(alloc, kind, n, start, out, err, steps),
    }
}
