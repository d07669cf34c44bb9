//! Prints the summary of a made task.

ghost use Rattle.std.specs.Prelude.{OnOk, OnErr};
ghost use Rattle.std.specs.Io.KnownBytes.{Appends};
ghost use Rattle.pl_io.specs.Outside.{AppendsFront, HasCause};
ghost use Rattle.pl_top.specs.Summary as spec;
ghost use Rattle.pl_top.specs.Summary.{summary_text};
ghost use Rattle.pl_top.specs.Writing.{Writes};

use crate::refusal::cannot_write;
use itoa::Buffer;
use pl_io::{Failed, Sink, put_pieces};
use pl_print::put_verdict;
use pl_registry::Stats;
use pl_task::{Plan, Task};
use pl_valid::Verdict;

/// Prints what was made and counted, and the verdict on the plan. Answers the status.
pub fn print_summary<O: Sink, E: Sink>(
    task: &Task,
    plan: &Plan,
    stats: &Stats,
    verdict: &Verdict,
    out: &mut O,
    err: &mut E,
) -> u8
    ensures { Writes (summary_text task.now plan.now stats.now verdict.now) 0
        (O.seen out.old) (O.seen out.new) (E.seen err.old) (E.seen err.new) result }
{
    match put_summary(out, task, plan, stats, verdict) {
        Ok(()) => 0,
        Err(_) => cannot_write(err),
    }
}

/// Writes the counts, and then the verdict.
fn put_summary<O: Sink>(
    out: &mut O,
    task: &Task,
    plan: &Plan,
    stats: &Stats,
    verdict: &Verdict,
) -> Result<(), Failed>
    ensures all { OnOk result (Appends (O.seen out.old).written (O.seen out.new).written
        (summary_text task.now plan.now stats.now verdict.now)) }
    ensures front { OnErr result (AppendsFront (O.seen out.old).written (O.seen out.new).written
        (summary_text task.now plan.now stats.now verdict.now)) }
    ensures cause { HasCause (O.seen out.old).faults (O.seen out.new).faults result }
{
    let objects = task.objects.as_slice().len();
    let atoms = task.init.as_slice().len();
    put_counts(out, objects, atoms, plan.as_slice().len(), stats)?;
    put_verdict(out, verdict)
}

/// Writes how many objects and initial atoms there are, how long the plan is, and what the search counted.
fn put_counts<O: Sink>(
    out: &mut O,
    objects: usize,
    atoms: usize,
    length: usize,
    stats: &Stats,
) -> Result<(), Failed>
    ensures all { OnOk result (Appends (O.seen out.old).written (O.seen out.new).written
        (spec.counts_text objects atoms length stats.now)) }
    ensures front { OnErr result (AppendsFront (O.seen out.old).written (O.seen out.new).written
        (spec.counts_text objects atoms length stats.now)) }
    ensures cause { HasCause (O.seen out.old).faults (O.seen out.new).faults result }
{
    let mut first = Buffer::new();
    let mut second = Buffer::new();
    let mut third = Buffer::new();
    let mut states = Buffer::new();
    let mut expanded = Buffer::new();
    let mut generated = Buffer::new();
    put_pieces(
        out,
        &[
            b"objects ",
            first.format(objects).as_bytes(),
            b"\natoms ",
            second.format(atoms).as_bytes(),
            b"\nlength ",
            third.format(length).as_bytes(),
            b"\nstates ",
            states.format(stats.states).as_bytes(),
            b"\nexpanded ",
            expanded.format(stats.expanded).as_bytes(),
            b"\ngenerated ",
            generated.format(stats.generated).as_bytes(),
            b"\n",
        ],
    )
}
