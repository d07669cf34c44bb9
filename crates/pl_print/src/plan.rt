//! Plans, a line for each step.

ghost use Rattle.std.specs.Prelude.{flat_map, All, OnOk, OnErr};
ghost use Rattle.std.specs.Io.KnownBytes.{Appends};
ghost use Rattle.pl_io.specs.Outside.{AppendsFront, HasCause};
ghost use Rattle.pl_task.specs.States.{IsStep};
ghost use Rattle.pl_print.specs.Texts.{step_text, plan_text};

use crate::step::put_step;
use itoa::Buffer;
use pl_io::{Failed, Sink, put_pieces};
use pl_task::{Plan, Step, Task};

/// Writes a plan: its steps, each on a line of its own, and then `; length N` and the line's end.
///
/// # Errors
///
/// `Failed` where the sink failed. Then a front of the text was written, and maybe nothing.
pub fn put_plan<O: Sink>(sink: &mut O, task: &Task, plan: &Plan) -> Result<(), Failed>
    requires steps { All (IsStep task.now) plan.now }
    ensures all { OnOk result (Appends (O.seen sink.old).written (O.seen sink.new).written
        (plan_text task.now plan.now)) }
    ensures front { OnErr result (AppendsFront (O.seen sink.old).written (O.seen sink.new).written
        (plan_text task.now plan.now)) }
    ensures cause { HasCause (O.seen sink.old).faults (O.seen sink.new).faults result }
{
    let steps = plan.as_slice();
    put_steps(sink, task, steps)?;
    let mut digits = Buffer::new();
    let length = digits.format(steps.len());
    put_pieces(sink, &[b"; length ", length.as_bytes(), b"\n"])?;
    Ok(())
}

/// Writes the steps, each on a line of its own.
fn put_steps<O: Sink>(sink: &mut O, task: &Task, steps: &[Step]) -> Result<(), Failed>
    requires steps { All (IsStep task.now) steps.now }
    ensures all { OnOk result (Appends (O.seen sink.old).written (O.seen sink.new).written
        (flat_map (step_text task.now) steps.now)) }
    ensures front { OnErr result (AppendsFront (O.seen sink.old).written (O.seen sink.new).written
        (flat_map (step_text task.now) steps.now)) }
    ensures cause { HasCause (O.seen sink.old).faults (O.seen sink.new).faults result }
{
    for step in steps {
        put_owned_step(sink, task, step)?;
    }
    Ok(())
}

/// Writes a step, as `put_step` does.
fn put_owned_step<O: Sink>(sink: &mut O, task: &Task, step: &Step) -> Result<(), Failed>
    requires step { IsStep task.now step.now }
    ensures all { OnOk result (Appends (O.seen sink.old).written (O.seen sink.new).written
        (step_text task.now step.now)) }
    ensures front { OnErr result (AppendsFront (O.seen sink.old).written (O.seen sink.new).written
        (step_text task.now step.now)) }
    ensures cause { HasCause (O.seen sink.old).faults (O.seen sink.new).faults result }
{
    put_step(sink, task, step.view())?;
    Ok(())
}
