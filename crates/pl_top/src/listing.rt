//! Writes the list of the steps that are applicable in a state.

ghost use Rattle.std.specs.Prelude.{◌≡◌, ◌≤◌, ◌+◌, ◌*◌, ◌++◌, [], length};
ghost use Rattle.std.specs.Prelude.{All, IfErr, IfOk, IfSome, OnErr, OnOk};
ghost use Rattle.std.specs.Io.KnownBytes.{Appends};
ghost use Rattle.pl_io.specs.Blocks.{held_of};
ghost use Rattle.pl_io.specs.Outside.{AppendsFront, HasCause};
ghost use Rattle.pl_task.specs.States.{IsStep};
ghost use Rattle.pl_state.specs.StateOf.{state_in, IsStateOf};
ghost use Rattle.pl_normal.specs.Measures.{largest_size, probe_bound};
ghost use Rattle.pl_gen.specs.Walks.{AreAcyclic, AreLocal, resume_reads, state_of_prepared, walk_reads};
ghost use Rattle.pl_top.specs.Listing.{end_text, first_steps, list_text, listed_steps};
ghost use Rattle.pl_top.specs.Listing.{page_bound, successors_text};
ghost use Rattle.pl_top.specs.Putting as spec;
ghost use Rattle.pl_top.specs.Putting.{IsListEnd, IsNextCut, IsNextPut};

use pl_gen::{Prepared, Walk};
use pl_io::{Blocks, Failed, Sink};
use pl_normal::laws::steps_are_listed_in_order;
use pl_normal::normal;
use pl_print::put_step_in_blocks;
use pl_state::Packed;
use pl_steps::Steps;
use pl_task::laws::tests_decide;
use pl_task::{Step, Task};
use std::alloc::{AllocError, Global};
use std::sync::ledger::Ledger;

/// Why a list was not written.
#[derive(Debug, Drop)]
pub enum ListEnd {
    /// The sink failed within it.
    Failed(Failed),
    /// Memory ran out before it.
    Memory(AllocError),
}

/// Writes the applicable steps of a state past a step, at most `count` of them, and whether there are more.
///
/// All memory is taken before the first byte is written.
pub fn put_list<O: Sink, L: Ledger>(
    alloc: Global,
    task: &Task,
    state: &Packed,
    past: Option<&Step>,
    count: Option<u32>,
    out: &mut O,
    steps: &mut Steps<L>,
) -> Result<(), ListEnd>
    requires state { IsStateOf task.now state.now }
    requires past { IfSome past (λ step. IsStep task.now step.now) }
    ensures all { let text = successors_text task.now (state_in task.now state.now)
        (spec.lent past.entry) count in
        OnOk result (Appends (O.seen out.old).written (O.seen out.new).written text) }
    ensures end { let text = successors_text task.now (state_in task.now state.now)
        (spec.lent past.entry) count in
        IfErr result (IsListEnd text (O.seen out.old) (O.seen out.new)) }
    ensures work { OnOk result (AreAcyclic task.now →
        steps.new ≤ steps.old + probe_bound task.now (state_in task.now state.now)) }
    ensures page { OnOk result (AreAcyclic task.now → AreLocal task.now 0 (length task.now.schemas) →
        steps.new ≤ steps.old +
        page_bound task.now (state_in task.now state.now) (spec.lent past.entry) count) }
{
    let normal = match normal(alloc, task) {
        Ok(normal) => normal,
        Err(error) => return Err(ListEnd::Memory(error)),
    };
    let prepared = match Prepared::prepare(alloc, &normal, state, steps) {
        Ok(prepared) => prepared,
        Err(error) => return Err(ListEnd::Memory(error)),
    };
    let mut blocks = match Blocks::new(alloc) {
        Ok(blocks) => blocks,
        Err(error) => return Err(ListEnd::Memory(error)),
    };
    let mut walk = walk_past(&prepared, task, past, steps);
    match put_steps(&mut blocks, out, &mut walk, task, count, steps) {
        Ok(()) => Ok(()),
        Err(failed) => Err(ListEnd::Failed(failed)),
    }
}

/// The walk over the applicable steps past a step, or over all of them.
fn walk_past<'p, L: Ledger>(
    prepared: &'p Prepared<'_, '_>,
    _task: &Task,
    past: Option<&Step>,
    steps: &mut Steps<L>,
) -> Walk<'p>
    requires task { prepared.now.task ≡ _task.now }
    requires past { IfSome past (λ step. IsStep _task.now step.now) }
    ensures left { result.left ≡ listed_steps _task.now (state_of_prepared prepared.now)
        (spec.lent past.entry) }
    ensures steps { All (IsStep _task.now) result.left }
    ensures cost { steps.new + result.reads ≤ steps.old + walk_reads prepared.now }
    ensures prepared { result.prepared ≡ prepared.now }
    ensures few { steps.new ≤ steps.old + resume_reads prepared.now }
{
    steps_are_listed_in_order(_task);
    tests_decide(_task);
    match past {
        None => prepared.walk(),
        Some(step) => prepared.resume(step.view(), steps),
    }
}

/// Writes the steps that a walk has left, at most `count` of them, and whether there are more. It takes no
/// memory: lines are gathered in the blocks, so that a line costs no call of the sink.
pub fn put_steps<O: Sink, L: Ledger>(
    blocks: &mut Blocks,
    out: &mut O,
    walk: &mut Walk<'_>,
    task: &Task,
    count: Option<u32>,
    steps: &mut Steps<L>,
) -> Result<(), Failed>
    requires left { All (IsStep task.now) walk.old.left }
    requires none_held { held_of blocks.old ≡ [] }
    ensures all { OnOk result (Appends (O.seen out.old).written (O.seen out.new).written
        (list_text task.now count walk.old.left)) }
    ensures front { OnErr result (AppendsFront (O.seen out.old).written (O.seen out.new).written
        (list_text task.now count walk.old.left)) }
    ensures cause { HasCause (O.seen out.old).faults (O.seen out.new).faults result }
    ensures cost { steps.new ≤ steps.old + walk.old.reads }
    ensures page { let over = walk.old.prepared.task in AreLocal over 0 (length over.schemas) →
        steps.new ≤ steps.old + 2 * largest_size over * (length (first_steps count walk.old.left) + 1) }
{
    let mut count = count;
    while !is_spent(count) {
        let given = put_next(blocks, out, walk, task, steps)?;
        if !given {
            return put_last(blocks, out, b"; end\n");
        }
        count = one_less(count);
    }
    put_end(blocks, out, walk, steps)
}

/// Whether no line may follow any more.
fn is_spent(count: Option<u32>) -> bool
    ensures { result ≡ spec.is_spent count }
{
    match count {
        None => false,
        Some(count) => count == 0,
    }
}

/// One line less may follow.
fn one_less(count: Option<u32>) -> Option<u32>
    ensures { result ≡ spec.one_less count }
{
    match count {
        None => None,
        Some(count) => Some(count.saturating_sub(1)),
    }
}

/// Takes the line of the next step where one is left, and says whether one was.
fn put_next<O: Sink, L: Ledger>(
    blocks: &mut Blocks,
    out: &mut O,
    walk: &mut Walk<'_>,
    task: &Task,
    steps: &mut Steps<L>,
) -> Result<bool, Failed>
    requires { All (IsStep task.now) walk.old.left }
    ensures put { IfOk result (IsNextPut task.now walk.old.left walk.new.left
        (O.seen out.old).written (O.seen out.new).written (held_of blocks.old) (held_of blocks.new)) }
    ensures cut { OnErr result (IsNextCut task.now walk.old.left
        (O.seen out.old).written (O.seen out.new).written (held_of blocks.old)) }
    ensures cause { HasCause (O.seen out.old).faults (O.seen out.new).faults result }
    ensures cost { steps.new + walk.new.reads ≤ steps.old + walk.old.reads }
    ensures prepared { walk.new.prepared ≡ walk.old.prepared }
    ensures each { let over = walk.old.prepared.task in AreLocal over 0 (length over.schemas) →
        steps.new ≤ steps.old + 2 * largest_size over }
{
    match walk.next(steps) {
        None => Ok(false),
        Some(step) => {
            put_step_in_blocks(blocks, out, task, step)?;
            Ok(true)
        }
    }
}

/// Writes the last line: whether a step is left.
fn put_end<O: Sink, L: Ledger>(
    blocks: &mut Blocks,
    out: &mut O,
    walk: &mut Walk<'_>,
    steps: &mut Steps<L>,
) -> Result<(), Failed>
    ensures all { OnOk result (Appends (O.seen out.old).written (O.seen out.new).written
        (held_of blocks.old ++ end_text walk.old.left)) }
    ensures front { OnErr result (AppendsFront (O.seen out.old).written (O.seen out.new).written
        (held_of blocks.old ++ end_text walk.old.left)) }
    ensures cause { HasCause (O.seen out.old).faults (O.seen out.new).faults result }
    ensures cost { steps.new ≤ steps.old + walk.old.reads }
    ensures each { let over = walk.old.prepared.task in AreLocal over 0 (length over.schemas) →
        steps.new ≤ steps.old + 2 * largest_size over }
{
    match walk.next(steps) {
        None => put_last(blocks, out, b"; end\n"),
        Some(_) => put_last(blocks, out, b"; more\n"),
    }
}

/// Writes what is held back, and then the last line.
fn put_last<O: Sink>(blocks: &mut Blocks, out: &mut O, line: &[u8]) -> Result<(), Failed>
    ensures all { OnOk result (Appends (O.seen out.old).written (O.seen out.new).written
        (held_of blocks.old ++ line.now)) }
    ensures front { OnErr result (AppendsFront (O.seen out.old).written (O.seen out.new).written
        (held_of blocks.old ++ line.now)) }
    ensures cause { HasCause (O.seen out.old).faults (O.seen out.new).faults result }
{
    blocks.put(out, line)?;
    blocks.finish(out)
}
