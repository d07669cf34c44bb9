//! Steps, each on a line of its own.

ghost use Rattle.std.specs.Prelude.{◌<◌, length, flat_map, All, OnOk, OnErr};
ghost use Rattle.std.specs.Io.KnownBytes.{Appends};
ghost use Rattle.pl_io.specs.Outside.{AppendsFront, HasCause};
ghost use Rattle.pl_task.specs.States.{IsStep};
ghost use Rattle.pl_print.specs.Texts.{argument_text, step_text};

use pl_io::{Failed, Sink, put_all, put_pieces};
use pl_task::{ObjectDef, StepRef, Task};

/// Writes a step, as `(ACTION OBJECT OBJECT ..)`, and the line's end.
///
/// # Errors
///
/// `Failed` where the sink failed. Then a front of the line was written, and maybe nothing.
pub fn put_step<O: Sink>(sink: &mut O, task: &Task, step: StepRef<'_>) -> Result<(), Failed>
    requires step { IsStep task.now (record { schema = step.schema; args = step.args.now }) }
    ensures all { OnOk result (Appends (O.seen sink.old).written (O.seen sink.new).written
        (step_text task.now (record { schema = step.entry.schema; args = step.entry.args.now }))) }
    ensures front { OnErr result (AppendsFront (O.seen sink.old).written (O.seen sink.new).written
        (step_text task.now (record { schema = step.entry.schema; args = step.entry.args.now }))) }
    ensures cause { HasCause (O.seen sink.old).faults (O.seen sink.new).faults result }
{
    let schema = &task.schemas.as_slice()[step.schema as usize];
    put_pieces(sink, &[b"(", schema.name.as_slice()])?;
    put_arguments(sink, task.objects.as_slice(), step.args)?;
    put_all(sink, b")\n")?;
    Ok(())
}

/// Writes the names of the objects, each after a blank.
fn put_arguments<O: Sink>(sink: &mut O, objects: &[ObjectDef], args: &[u32]) -> Result<(), Failed>
    requires within { All (λ o. o < length objects.now) args.now }
    ensures all { OnOk result (Appends (O.seen sink.old).written (O.seen sink.new).written
        (flat_map (argument_text objects.now) args.now)) }
    ensures front { OnErr result (AppendsFront (O.seen sink.old).written (O.seen sink.new).written
        (flat_map (argument_text objects.now) args.now)) }
    ensures cause { HasCause (O.seen sink.old).faults (O.seen sink.new).faults result }
{
    for number in args {
        put_argument(sink, objects, *number)?;
    }
    Ok(())
}

/// Writes the name of an object after a blank.
fn put_argument<O: Sink>(sink: &mut O, objects: &[ObjectDef], number: u32) -> Result<(), Failed>
    requires within { number < length objects.now }
    ensures all { OnOk result (Appends (O.seen sink.old).written (O.seen sink.new).written
        (argument_text objects.now number)) }
    ensures front { OnErr result (AppendsFront (O.seen sink.old).written (O.seen sink.new).written
        (argument_text objects.now number)) }
    ensures cause { HasCause (O.seen sink.old).faults (O.seen sink.new).faults result }
{
    let object = &objects[number as usize];
    put_pieces(sink, &[b" ", object.name.as_slice()])?;
    Ok(())
}
