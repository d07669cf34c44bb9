//! Packing a list of atoms.

ghost use Rattle.std.specs.Prelude.{◌≡◌, ◌*◌, ◌<◌, ◌^◌, ◌++◌, ◌==◌, length, map, filter, All, IfOk, OnOk};
ghost use Rattle.pl_rows.specs.Rows.{rows_of, AreRows, Rows as RowsOf};
ghost use Rattle.pl_task.specs.States.{state_of, initial};
ghost use Rattle.pl_task.specs.WellFormed.{IsAtomOf};
ghost use Rattle.pl_state.specs.Layout.{part_of, IsLayoutOf};
ghost use Rattle.pl_state.specs.StateOf.{state_in, IsStateOf};
ghost use Rattle.pl_state.specs.Statics.{IsAtomTable};
ghost use Rattle.pl_state.specs.Changing.{AppendsPart, IsAtomAt};

use crate::count::as_word;
use crate::packed::Packed;
use pl_rows::{Range, Table};
use pl_task::{Atom, Task};
use std::alloc::{AllocError, Global};

/// The state with these atoms, of which those over static predicates are left out. Their order and repeats
/// don't matter.
///
/// The only error is want of memory. A set with more than 4,294,967,295 atoms of one fluent predicate has no
/// layout, and always meets it.
pub fn pack(alloc: Global, task: &Task, atoms: &[Atom]) -> Result<Packed, AllocError>
    requires { All (IsAtomOf task.now.objects task.now.predicates) atoms.now }
    ensures layout { IfOk result (IsLayoutOf task.now (state_of atoms.now)) }
    ensures kept { IfOk result (IsStateOf task.now) }
    ensures initial { IfOk result (λ packed. atoms.now ≡ task.now.init →
        state_in task.now packed ≡ initial task.now) }
{
    let predicates = task.predicates.as_slice();
    let mut words = Vec::new(alloc);
    for number in 0..predicates.len() {
        let definition = &predicates[number];
        if definition.is_static {
            continue;
        }
        let arity = definition.arity;
        pack_part(alloc, task, &mut words, atoms, number as u32, arity)?;
    }
    Ok(Packed::of(words))
}

/// Appends the part of a predicate.
fn pack_part(
    alloc: Global,
    _task: &Task,
    words: &mut Vec<u32>,
    atoms: &[Atom],
    predicate: u32,
    arity: u32,
) -> Result<(), AllocError>
    requires { All (IsAtomAt (length _task.now.objects) predicate arity) atoms.now }
    ensures { OnOk result (AppendsPart (length _task.now.objects) (state_of atoms.now) predicate arity
        words.old.items words.new.items) }
{
    let table = atom_table(alloc, atoms, predicate, arity)?;
    push_part(words, &table)?;
    Ok(())
}

/// The table of the atoms of a predicate.
pub fn atom_table(
    alloc: Global,
    atoms: &[Atom],
    predicate: u32,
    arity: u32,
) -> Result<Table, AllocError>
    requires { All (λ a. a.predicate ≡ predicate → length a.objects ≡ arity) atoms.now }
    ensures { IfOk result (IsAtomTable (state_of atoms.now) predicate arity) }
{
    let (count, flat) = gathered(alloc, atoms, predicate, arity)?;
    Table::from_rows(alloc, arity, count, flat)
}

/// The rows of the atoms of a predicate, in their order: how many, and their values one after another.
fn gathered(
    alloc: Global,
    atoms: &[Atom],
    predicate: u32,
    _arity: u32,
) -> Result<(usize, Vec<u32>), AllocError>
    requires { All (λ a. a.predicate ≡ predicate → length a.objects ≡ _arity) atoms.now }
    ensures whole { IfOk result (λ r. length r.1.items ≡ _arity * r.0) }
    ensures rows { IfOk result (λ r. rows_of _arity r.0 r.1.items
        ≡ map (λ a. a.objects) (filter (λ a. a.predicate == predicate) atoms.now)) }
{
    let mut count = 0;
    let mut flat = Vec::new(alloc);
    for atom in atoms {
        if atom.predicate != predicate {
            continue;
        }
        flat.extend_from_slice(atom.objects.as_slice())?;
        count += 1;
    }
    Ok((count, flat))
}

/// Appends the number of the table's rows, and its rows.
fn push_part(words: &mut Vec<u32>, table: &Table) -> Result<(), AllocError>
    ensures words { OnOk result (words.new.items ≡ words.old.items ++ part_of table.now.rows) }
    ensures fits { OnOk result (length table.now.rows < 2 ^ 32) }
    ensures table { AreRows table.now.arity table.now.rows }
{
    let count = table.len();
    words.push(as_word(count)?)?;
    words.extend_from_slice(table.part(Range { from: 0, to: count }))?;
    Ok(())
}
