//! Prints how a search ended.

ghost use Rattle.std.specs.Prelude.{◌≡◌, OnOk, OnErr};
ghost use Rattle.std.specs.Io.KnownBytes.{Appends};
ghost use Rattle.pl_io.specs.Outside.{AppendsFront, HasCause};
ghost use Rattle.pl_top.specs.Ended.{ending_in};
ghost use Rattle.pl_top.specs.Searching as spec;
ghost use Rattle.pl_top.specs.Searching.{AreStepsOf, ended_text, ending_status, ending_text};
ghost use Rattle.pl_top.specs.Writing.{Writes};

use crate::refusal::cannot_write;
use crate::search_end::{SearchEnd, SearchOutcome};
use itoa::Buffer;
use pl_io::{Failed, Sink, put_all, put_pieces};
use pl_print::{put_plan, put_stats};
use pl_registry::Stats;
use pl_task::Task;

/// Prints how the search ended under its limit, and what it counted where that is asked for. Answers the
/// status.
pub fn print_ended<O: Sink, E: Sink>(
    task: &Task,
    end: &SearchEnd,
    limit: u32,
    stats: bool,
    out: &mut O,
    err: &mut E,
) -> u8
    requires { AreStepsOf task.now (ending_in end.now.outcome) }
    ensures { Writes (ended_text task.now limit stats (ending_in end.now.outcome) end.now.stats)
        (ending_status (ending_in end.now.outcome))
        (O.seen out.old) (O.seen out.new) (E.seen err.old) (E.seen err.new) result }
{
    match put_ended(out, task, end, limit, stats) {
        Ok(()) => status(&end.outcome),
        Err(_) => cannot_write(err),
    }
}

/// The status of a run that prints the outcome.
fn status(outcome: &SearchOutcome) -> u8
    ensures { result ≡ ending_status (ending_in outcome.now) }
{
    match outcome {
        SearchOutcome::Found(_) => 0,
        SearchOutcome::Unsolvable => 1,
        SearchOutcome::Exhausted => 7,
        SearchOutcome::Limit => 6,
    }
}

/// Writes the outcome, and then the counts.
fn put_ended<O: Sink>(
    out: &mut O,
    task: &Task,
    end: &SearchEnd,
    limit: u32,
    stats: bool,
) -> Result<(), Failed>
    requires { AreStepsOf task.now (ending_in end.now.outcome) }
    ensures all { OnOk result (Appends (O.seen out.old).written (O.seen out.new).written
        (ended_text task.now limit stats (ending_in end.now.outcome) end.now.stats)) }
    ensures front { OnErr result (AppendsFront (O.seen out.old).written (O.seen out.new).written
        (ended_text task.now limit stats (ending_in end.now.outcome) end.now.stats)) }
    ensures cause { HasCause (O.seen out.old).faults (O.seen out.new).faults result }
{
    put_outcome(out, task, &end.outcome, limit)?;
    put_counts(out, &end.stats, stats)
}

/// Writes a plan, `unsolvable`, `exhausted`, or `limit N`.
fn put_outcome<O: Sink>(
    out: &mut O,
    task: &Task,
    outcome: &SearchOutcome,
    limit: u32,
) -> Result<(), Failed>
    requires { AreStepsOf task.now (ending_in outcome.now) }
    ensures all { OnOk result (Appends (O.seen out.old).written (O.seen out.new).written
        (ending_text task.now limit (ending_in outcome.now))) }
    ensures front { OnErr result (AppendsFront (O.seen out.old).written (O.seen out.new).written
        (ending_text task.now limit (ending_in outcome.now))) }
    ensures cause { HasCause (O.seen out.old).faults (O.seen out.new).faults result }
{
    match outcome {
        SearchOutcome::Found(plan) => put_plan(out, task, plan),
        SearchOutcome::Unsolvable => put_all(out, b"unsolvable\n"),
        SearchOutcome::Exhausted => put_all(out, b"exhausted\n"),
        SearchOutcome::Limit => put_limit(out, limit),
    }
}

/// Writes `limit N`.
fn put_limit<O: Sink>(out: &mut O, limit: u32) -> Result<(), Failed>
    ensures all { OnOk result (Appends (O.seen out.old).written (O.seen out.new).written
        (spec.limit_text limit)) }
    ensures front { OnErr result (AppendsFront (O.seen out.old).written (O.seen out.new).written
        (spec.limit_text limit)) }
    ensures cause { HasCause (O.seen out.old).faults (O.seen out.new).faults result }
{
    let mut digits = Buffer::new();
    put_pieces(out, &[b"limit ", digits.format(limit).as_bytes(), b"\n"])
}

/// Writes the counts, where they are asked for.
fn put_counts<O: Sink>(out: &mut O, stats: &Stats, are_asked: bool) -> Result<(), Failed>
    ensures all { OnOk result (Appends (O.seen out.old).written (O.seen out.new).written
        (spec.counts_text are_asked stats.now)) }
    ensures front { OnErr result (AppendsFront (O.seen out.old).written (O.seen out.new).written
        (spec.counts_text are_asked stats.now)) }
    ensures cause { HasCause (O.seen out.old).faults (O.seen out.new).faults result }
{
    if are_asked {
        return put_stats(out, stats);
    }
    Ok(())
}
