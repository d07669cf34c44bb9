//! A state as the set of its true atoms, and what a step changes in it.

ghost use Rattle.std.specs.Prelude.{◌≡◌, [], ◌∷◌, length, map, All, IfOk, OnOk};
ghost use Rattle.pl_task.specs.States.{IsStep, atom_at, value_of, initial, state_of, changed, result_of};
ghost use Rattle.pl_valid.specs.Judging.{HasValue};

use crate::held::Held;
use indexmap::IndexSet;
use pl_task::{Lifted, Step, Task, Term};
use smallvec::SmallVec;
use std::alloc::{AllocError, Global};

/// The initial state.
pub fn initial_state(alloc: Global, task: &Task) -> Result<IndexSet<Held>, AllocError>
    ensures { IfOk result (λ atoms. state_of atoms.keys ≡ initial task.now) }
{
    let init = task.init.as_slice();
    let mut atoms = IndexSet::with_capacity(alloc, init.len())?;
    for atom in init {
        add(&mut atoms, Held::of(alloc, atom)?)?;
    }
    Ok(atoms)
}

/// Executes a step, applicable or not: removes what it deletes, then inserts what it adds.
///
/// It takes a look-up for each atom that the step names, and memory for those that become true.
pub fn execute(
    alloc: Global,
    task: &Task,
    atoms: &mut IndexSet<Held>,
    step: &Step,
) -> Result<(), AllocError>
    requires { IsStep task.now step.now }
    ensures { OnOk result (state_of atoms.new.keys ≡ result_of task.now (state_of atoms.old.keys) step.now) }
{
    let step = step.view();
    let schema = &task.schemas.as_slice()[step.schema as usize];
    delete_all(alloc, atoms, step.args, schema.delete.as_slice())?;
    add_all(alloc, atoms, step.args, schema.add.as_slice())?;
    Ok(())
}

/// The atom with the arguments put in for the parameters.
pub fn grounded(alloc: Global, args: &[u32], atom: &Lifted) -> Result<Held, AllocError>
    requires { All (HasValue (length args.now)) atom.now.terms }
    ensures { IfOk result (λ a. a ≡ atom_at args.now atom.now) }
{
    let mut objects = SmallVec::new(alloc);
    for term in atom.terms.as_slice() {
        objects.push(value(args, *term))?;
    }
    Ok(Held::new(atom.predicate, objects))
}

/// The object that a term stands for.
pub fn value(args: &[u32], term: Term) -> u32
    requires { HasValue (length args.now) term }
    ensures { result ≡ value_of args.now term }
{
    match term {
        Term::Parameter(n) => args[n as usize],
        Term::Object(n) => n,
    }
}

/// Makes the atoms false.
fn delete_all(
    alloc: Global,
    atoms: &mut IndexSet<Held>,
    args: &[u32],
    effects: &[Lifted],
) -> Result<(), AllocError>
    requires { All (λ (a : Lifted). All (HasValue (length args.now)) a.terms) effects.now }
    ensures { OnOk result (state_of atoms.new.keys ≡ changed (state_of atoms.old.keys)
        (map (atom_at args.now) effects.now) []) }
{
    for effect in effects {
        delete(atoms, &grounded(alloc, args, effect)?);
    }
    Ok(())
}

/// Makes the atoms true.
fn add_all(
    alloc: Global,
    atoms: &mut IndexSet<Held>,
    args: &[u32],
    effects: &[Lifted],
) -> Result<(), AllocError>
    requires { All (λ (a : Lifted). All (HasValue (length args.now)) a.terms) effects.now }
    ensures { OnOk result (state_of atoms.new.keys ≡ changed (state_of atoms.old.keys) []
        (map (atom_at args.now) effects.now)) }
{
    for effect in effects {
        add(atoms, grounded(alloc, args, effect)?)?;
    }
    Ok(())
}

/// Makes an atom false.
fn delete(atoms: &mut IndexSet<Held>, atom: &Held)
    ensures { state_of atoms.new.keys ≡ changed (state_of atoms.old.keys) (atom.now ∷ []) [] }
{
    let _ = atoms.swap_remove(atom);
}

/// Makes an atom true.
fn add(atoms: &mut IndexSet<Held>, atom: Held) -> Result<(), AllocError>
    ensures { OnOk result (state_of atoms.new.keys ≡ changed (state_of atoms.old.keys) [] (atom ∷ [])) }
{
    let _ = atoms.insert(atom)?;
    Ok(())
}
