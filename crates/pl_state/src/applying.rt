//! The state that a step leads to.

ghost use Rattle.std.specs.Prelude.{◌≡◌, ◌*◌, ◌<◌, ◌≤◌, ◌^◌, length, map, All, IfOk, OnOk, ◌||◌};
ghost use Rattle.std.specs.List.{list_any};
ghost use Rattle.pl_rows.specs.Rows.{rows_of, IsAscending};
ghost use Rattle.pl_task.specs.States.{State, IsStep, atom_at, changed, result_of};
ghost use Rattle.pl_task.specs.WellFormed.{is_of_predicate};
ghost use Rattle.pl_state.specs.Layout.{AreTrueRows, IsLayoutOf};
ghost use Rattle.pl_state.specs.StateOf.{state_in, IsStateOf};
ghost use Rattle.pl_state.specs.Changing.{AppendsPart, AreEffects, IsEffectAt};

use crate::merging::merge;
use crate::packed::Packed;
use crate::parts::{part_end, part_in};
use crate::rows::Rows;
use pl_task::{Lifted, StepRef, Task};
use std::alloc::{AllocError, Global};

/// The most objects that an atom has.
const MOST_OBJECTS: usize = 64;

/// The state that the step leads to, whether or not it is applicable: without its deletes, then with its
/// adds.
///
/// It takes one pass over the words. Parts of predicates that the step doesn't touch are copied whole, and
/// the others are merged with its deletes and adds. It takes one block of memory. The only error is want of
/// memory; a set with more than 4,294,967,295 atoms of one fluent predicate has no layout, and always meets
/// it.
pub fn apply(
    alloc: Global,
    task: &Task,
    state: &Packed,
    step: StepRef<'_>,
) -> Result<Packed, AllocError>
    requires state { IsStateOf task.now state.now }
    requires step { IsStep task.now (record { schema = step.schema; args = step.args.now }) }
    ensures layout { IfOk result (IsLayoutOf task.now (result_of task.now (state_in task.now state.now)
        (record { schema = step.entry.schema; args = step.entry.args.now }))) }
    ensures kept { IfOk result (IsStateOf task.now) }
    ensures state { IfOk result (λ next. state_in task.now next
        ≡ result_of task.now (state_in task.now state.now)
        (record { schema = step.entry.schema; args = step.entry.args.now })) }
{
    let schema = &task.schemas.as_slice()[step.schema as usize];
    let deletes = schema.delete.as_slice();
    let adds = schema.add.as_slice();
    let words = changed_words(alloc, task, state.words(), step.args, deletes, adds)?;
    Ok(Packed::of(words))
}

/// The words of the state without the deletes, then with the adds.
fn changed_words(
    alloc: Global,
    task: &Task,
    old: &[u32],
    args: &[u32],
    deletes: &[Lifted],
    adds: &[Lifted],
) -> Result<Vec<u32>, AllocError>
    requires state { IsStateOf task.now old.now }
    requires deletes { AreEffects task.now args.now deletes.now }
    requires adds { AreEffects task.now args.now adds.now }
    ensures { IfOk result (λ words. IsLayoutOf task.now (changed (state_in task.now old.now)
        (map (atom_at args.now) deletes.now) (map (atom_at args.now) adds.now)) words.items) }
{
    let mut room = [0; MOST_OBJECTS];
    let predicates = task.predicates.as_slice();
    let mut new = Vec::with_capacity(alloc, most_words(old, adds))?;
    let mut from = 0;
    let mut at = 0;
    for number in 0..predicates.len() {
        let definition = &predicates[number];
        if definition.is_static {
            continue;
        }
        let predicate = number as u32;
        let arity = definition.arity;
        let start = at;
        at = part_end(old, start, arity);
        if !is_touched(deletes, adds, predicate) {
            continue;
        }
        new.extend_from_slice(&old[from..start])?;
        let part = part_in(old, start, arity);
        let row = &mut room[..arity as usize];
        change_part(
            task, &mut new, part, arity, args, deletes, adds, predicate, row,
        )?;
        from = at;
    }
    new.extend_from_slice(&old[from..])?;
    Ok(new)
}

/// Appends the part of a predicate after the deletes and adds. `row` is room for one row.
fn change_part(
    _task: &Task,
    new: &mut Vec<u32>,
    old: Rows<'_>,
    arity: u32,
    args: &[u32],
    deletes: &[Lifted],
    adds: &[Lifted],
    predicate: u32,
    row: &mut [u32],
) -> Result<(), AllocError>
    requires whole { length old.flat.now ≡ arity * old.count }
    requires few { old.count < 2 ^ 32 }
    requires ascending { IsAscending (rows_of arity old.count old.flat.now) }
    requires row { length row.old ≡ arity }
    requires deletes { All (IsEffectAt (length _task.now.objects) args.now predicate arity) deletes.now }
    requires adds { All (IsEffectAt (length _task.now.objects) args.now predicate arity) adds.now }
    ensures { OnOk result ((s : State) →
        AreTrueRows (length _task.now.objects) s predicate arity
        (rows_of arity old.entry.count old.entry.flat.now) →
        AppendsPart (length _task.now.objects)
        (changed s (map (atom_at args.now) deletes.now) (map (atom_at args.now) adds.now))
        predicate arity new.old.items new.new.items) }
{
    let at = new.len();
    new.push(0)?;
    let count = merge(new, old, arity, args, deletes, adds, predicate, row)?;
    new[at] = count;
    Ok(())
}

/// Whether an effect is on the predicate.
#[inline]
fn is_touched(deletes: &[Lifted], adds: &[Lifted], predicate: u32) -> bool
    ensures { result ≡ (list_any (is_of_predicate predicate) deletes.now
        || list_any (is_of_predicate predicate) adds.now) }
{
    are_on(deletes, predicate) || are_on(adds, predicate)
}

/// Whether one of the effects is on the predicate.
#[inline]
fn are_on(effects: &[Lifted], predicate: u32) -> bool
    ensures { result ≡ list_any (is_of_predicate predicate) effects.now }
{
    effects.iter().any(|effect| effect.predicate == predicate)
}

/// How many words there are at most after the adds.
fn most_words(old: &[u32], adds: &[Lifted]) -> usize {
    let mut most = old.len();
    for add in adds {
        most = most.saturating_add(add.terms.as_slice().len());
    }
    most
}
