//! The numbers of the atoms of a state.

ghost use Rattle.std.specs.Prelude.{◌≡◌, ◌+◌, ◌*◌, ◌≤◌, ◌∷◌, length, map, take, drop, IfOk, OnOk};
ghost use Rattle.pl_rows.specs.Rows.{rows_of};
ghost use Rattle.pl_state.specs.StateOf.{state_in, IsStateOf};
ghost use Rattle.pl_novel.specs.Keys.{IsPlaced, AreNumbered, AreStateNumbers, Extends};

use crate::key::Key;
use indexmap::IndexSet;
use pl_state::{Packed, Rows, true_rows};
use pl_task::Task;
use std::alloc::{AllocError, Global};

/// Puts the fluent atoms of a state behind the others, those aside that are there, and makes `numbers` the
/// list of their numbers, in the order of atoms.
pub(crate) fn number_state(
    alloc: Global,
    atoms: &mut IndexSet<Key>,
    key: &mut Key,
    numbers: &mut Vec<usize>,
    task: &Task,
    state: &Packed,
) -> Result<(), AllocError>
    requires { IsStateOf task.now state.now }
    ensures ok { OnOk result
        (AreStateNumbers task.now (state_in task.now state.now) (length task.now.predicates) atoms.old.keys
        atoms.new.keys numbers.new.items) }
    ensures extends { Extends atoms.old.keys atoms.new.keys }
{
    numbers.clear();
    let predicates = task.predicates.as_slice();
    for predicate in 0..predicates.len() {
        let definition = &predicates[predicate];
        if definition.is_static {
            continue;
        }
        let rows = true_rows(task, state, predicate as u32);
        number_rows(
            alloc,
            atoms,
            key,
            numbers,
            predicate as u32,
            definition.arity,
            rows,
        )?;
    }
    Ok(())
}

/// The same for the atoms of one predicate, whose numbers go behind those that are there.
fn number_rows(
    alloc: Global,
    atoms: &mut IndexSet<Key>,
    key: &mut Key,
    numbers: &mut Vec<usize>,
    predicate: u32,
    arity: u32,
    rows: Rows<'_>,
) -> Result<(), AllocError>
    requires { length rows.flat.now ≡ arity * rows.count }
    ensures ok { OnOk result (AreNumbered atoms.old.keys numbers.old.items
        (map (λ row. predicate ∷ row) (rows_of arity rows.entry.count rows.entry.flat.now)) atoms.new.keys
        numbers.new.items) }
    ensures extends { Extends atoms.old.keys atoms.new.keys }
{
    for i in 0..rows.count {
        key.set(predicate, row_at(rows.flat, arity as usize, i))?;
        numbers.push(place(alloc, atoms, key)?)?;
    }
    Ok(())
}

/// The row with a number, of rows that lie one after another.
#[inline]
fn row_at(flat: &[u32], width: usize, i: usize) -> &[u32]
    requires { i * width + width ≤ length flat.now }
    ensures { result.now ≡ take width (drop (i * width) flat.now) }
{
    let start = i * width;
    &flat[start..start + width]
}

/// The number of the atom with this key, which goes last if it is not there. It is looked up once if it is
/// there, without memory.
pub(crate) fn place(
    alloc: Global,
    atoms: &mut IndexSet<Key>,
    key: &Key,
) -> Result<usize, AllocError>
    ensures ok { IfOk result (IsPlaced atoms.old.keys key.now atoms.new.keys) }
    ensures extends { Extends atoms.old.keys atoms.new.keys }
{
    if let Some(number) = atoms.get_index_of(key) {
        return Ok(number);
    }
    let (number, _) = atoms.insert_full(key.copy(alloc)?)?;
    Ok(number)
}
