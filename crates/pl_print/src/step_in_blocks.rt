//! Steps on their way to a sink in blocks.

ghost use Rattle.std.specs.Prelude.{◌≡◌, ◌<◌, ◌++◌, [], length, flat_map, All, OnOk, OnErr};
ghost use Rattle.pl_io.specs.Outside.{AppendsFront, HasCause};
ghost use Rattle.pl_io.specs.Blocks.{SendsOn, held_of};
ghost use Rattle.pl_task.specs.States.{IsStep};
ghost use Rattle.pl_print.specs.Texts.{argument_text, step_text};

use pl_io::{Blocks, Failed, Sink};
use pl_task::{ObjectDef, StepRef, Task};

/// Puts the line of a step, as `put_step` writes it, into the blocks.
///
/// # Errors
///
/// `Failed` where the sink failed. Then a front of what was held back and the line was written, the rest is
/// lost, and nothing is held back.
pub fn put_step_in_blocks<O: Sink>(
    blocks: &mut Blocks,
    sink: &mut O,
    task: &Task,
    step: StepRef<'_>,
) -> Result<(), Failed>
    requires step { IsStep task.now (record { schema = step.schema; args = step.args.now }) }
    ensures all { OnOk result
        (SendsOn (O.seen sink.old).written (O.seen sink.new).written (held_of blocks.old)
        (step_text task.now (record { schema = step.entry.schema; args = step.entry.args.now }))
        (held_of blocks.new)) }
    ensures front { OnErr result
        (AppendsFront (O.seen sink.old).written (O.seen sink.new).written (held_of blocks.old ++
        step_text task.now (record { schema = step.entry.schema; args = step.entry.args.now }))) }
    ensures lost { OnErr result (held_of blocks.new ≡ []) }
    ensures cause { HasCause (O.seen sink.old).faults (O.seen sink.new).faults result }
{
    let schema = &task.schemas.as_slice()[step.schema as usize];
    blocks.put_pieces(sink, &[b"(", schema.name.as_slice()])?;
    put_arguments(blocks, sink, task.objects.as_slice(), step.args)?;
    blocks.put(sink, b")\n")?;
    Ok(())
}

/// Puts the names of the objects into the blocks, each after a blank.
fn put_arguments<O: Sink>(
    blocks: &mut Blocks,
    sink: &mut O,
    objects: &[ObjectDef],
    args: &[u32],
) -> Result<(), Failed>
    requires within { All (λ o. o < length objects.now) args.now }
    ensures all { OnOk result
        (SendsOn (O.seen sink.old).written (O.seen sink.new).written (held_of blocks.old)
        (flat_map (argument_text objects.now) args.now) (held_of blocks.new)) }
    ensures front { OnErr result (AppendsFront (O.seen sink.old).written (O.seen sink.new).written
        (held_of blocks.old ++ flat_map (argument_text objects.now) args.now)) }
    ensures lost { OnErr result (held_of blocks.new ≡ []) }
    ensures cause { HasCause (O.seen sink.old).faults (O.seen sink.new).faults result }
{
    for number in args {
        put_argument(blocks, sink, objects, *number)?;
    }
    Ok(())
}

/// Puts the name of an object into the blocks, after a blank.
fn put_argument<O: Sink>(
    blocks: &mut Blocks,
    sink: &mut O,
    objects: &[ObjectDef],
    number: u32,
) -> Result<(), Failed>
    requires within { number < length objects.now }
    ensures all { OnOk result
        (SendsOn (O.seen sink.old).written (O.seen sink.new).written (held_of blocks.old)
        (argument_text objects.now number) (held_of blocks.new)) }
    ensures front { OnErr result (AppendsFront (O.seen sink.old).written (O.seen sink.new).written
        (held_of blocks.old ++ argument_text objects.now number)) }
    ensures lost { OnErr result (held_of blocks.new ≡ []) }
    ensures cause { HasCause (O.seen sink.old).faults (O.seen sink.new).faults result }
{
    let object = &objects[number as usize];
    blocks.put_pieces(sink, &[b" ", object.name.as_slice()])?;
    Ok(())
}
