//! The sets of a state that have an atom which a step adds.

ghost use Rattle.std.specs.Prelude.{[], length, map, All, OnOk};
ghost use Rattle.pl_task.specs.declared.data.Lifted.{Lifted as LiftedAtom};
ghost use Rattle.pl_task.specs.States.{IsStep};
ghost use Rattle.pl_state.specs.StateOf.{state_in, IsStateOf};
ghost use Rattle.pl_state.specs.Changing.{HasValue};
ghost use Rattle.pl_novel.specs.Keys.{key_under, keys_added, AreNumbered, NotesAdded, Extends};

use crate::key::Key;
use crate::numbering::{number_state, place};
use crate::pair::Pair;
use crate::pairing::note_pairs_with;
use indexmap::IndexSet;
use pl_state::Packed;
use pl_task::{Lifted, StepRef, Task};
use std::alloc::{AllocError, Global};

/// Puts the atoms that the step adds behind the others, those aside that are there. Under width 2 it does so
/// with the state's other atoms, too, and puts each pair that has an added atom behind the others. `numbers`
/// and `added` are room for the numbers of the state's atoms and of the added ones.
pub(crate) fn note_added(
    alloc: Global,
    width: u32,
    atoms: &mut IndexSet<Key>,
    pairs: &mut IndexSet<Pair>,
    key: &mut Key,
    numbers: &mut Vec<usize>,
    added: &mut Vec<usize>,
    task: &Task,
    state: &Packed,
    step: StepRef<'_>,
) -> Result<(), AllocError>
    requires state { IsStateOf task.now state.now }
    requires step { IsStep task.now (record { schema = step.schema; args = step.args.now }) }
    ensures ok { OnOk result (NotesAdded task.now (state_in task.now state.now) width
        (keys_added task.now (record { schema = step.entry.schema; args = step.entry.args.now }))
        atoms.old.keys pairs.old.keys atoms.new.keys pairs.new.keys) }
    ensures atoms { Extends atoms.old.keys atoms.new.keys }
    ensures pairs { Extends pairs.old.keys pairs.new.keys }
{
    number_added(alloc, atoms, key, added, task, step)?;
    if width < 2 {
        return Ok(());
    }
    number_state(alloc, atoms, key, numbers, task, state)?;
    note_pairs_with(pairs, numbers.as_slice(), added.as_slice())
}

/// Puts the atoms that the step adds behind the others, those aside that are there, and makes `numbers` the
/// list of their numbers, in the order of the effects.
fn number_added(
    alloc: Global,
    atoms: &mut IndexSet<Key>,
    key: &mut Key,
    numbers: &mut Vec<usize>,
    task: &Task,
    step: StepRef<'_>,
) -> Result<(), AllocError>
    requires { IsStep task.now (record { schema = step.schema; args = step.args.now }) }
    ensures ok { OnOk result (AreNumbered atoms.old.keys []
        (keys_added task.now (record { schema = step.entry.schema; args = step.entry.args.now }))
        atoms.new.keys numbers.new.items) }
    ensures extends { Extends atoms.old.keys atoms.new.keys }
{
    numbers.clear();
    let schema = &task.schemas.as_slice()[step.schema as usize];
    let adds = schema.add.as_slice();
    number_effects(alloc, atoms, key, numbers, step.args, adds)
}

/// The same for effects under arguments, whose numbers go behind those that are there.
fn number_effects(
    alloc: Global,
    atoms: &mut IndexSet<Key>,
    key: &mut Key,
    numbers: &mut Vec<usize>,
    args: &[u32],
    effects: &[Lifted],
) -> Result<(), AllocError>
    requires { All (λ (e : LiftedAtom). All (HasValue (length args.now)) e.terms) effects.now }
    ensures ok { OnOk result
        (AreNumbered atoms.old.keys numbers.old.items (map (key_under args.now) effects.now)
        atoms.new.keys numbers.new.items) }
    ensures extends { Extends atoms.old.keys atoms.new.keys }
{
    for i in 0..effects.len() {
        key.set_under(args, &effects[i])?;
        numbers.push(place(alloc, atoms, key)?)?;
    }
    Ok(())
}
