//! Parts of a task without names: atoms, literals of a goal, predicates and objects.

ghost use Rattle.std.specs.Prelude.{◌≡◌, ◌↔◌, [], length, All, IfOk, IsTrue};
ghost use Rattle.pl_task.specs.Atoms.{atom_of};
ghost use Rattle.pl_task.specs.WellFormed.{IsAtomOf};
ghost use Rattle.pl_samples.specs.Places.{literal_of, plain, AreAtomsOf};

use pl_task::{Atom, GoalLiteral, List, ObjectDef, PredicateDef, Task};
use std::alloc::{AllocError, Global};

/// The number of a predicate, and those of objects.
pub type AtomCase = (u32, &'static [u32]);

/// The atom of a predicate with these objects.
pub fn atom(alloc: Global, predicate: u32, objects: &[u32]) -> Result<Atom, AllocError>
    ensures { IfOk result (λ a. a ≡ atom_of predicate objects.now) }
{
    Ok(Atom {
        predicate,
        objects: List::of(objects.to_vec(alloc)?),
    })
}

/// The literal of a goal that wants the atom true, or false.
pub fn literal(
    alloc: Global,
    predicate: u32,
    objects: &[u32],
    wanted: bool,
) -> Result<GoalLiteral, AllocError>
    ensures { IfOk result (λ g. g ≡ literal_of predicate objects.now wanted) }
{
    Ok(GoalLiteral {
        atom: atom(alloc, predicate, objects)?,
        wanted,
    })
}

/// A predicate.
pub fn definition(alloc: Global, arity: u32, is_static: bool) -> PredicateDef
    ensures { result ≡ record { name = []; arity = arity; is_static = is_static } }
{
    PredicateDef {
        name: List::of(Vec::new(alloc)),
        arity,
        is_static,
    }
}

/// So many objects without a declared type.
pub fn objects(alloc: Global, count: u32) -> Result<Vec<ObjectDef>, AllocError>
    ensures many { IfOk result (λ v. length v.items ≡ count) }
    ensures plain { IfOk result (λ v. All (λ o. o ≡ plain) v.items) }
{
    let mut made = Vec::new(alloc);
    for _i in 0..count {
        made.push(ObjectDef {
            name: List::of(Vec::new(alloc)),
            types: List::of(Vec::new(alloc)),
        })?;
    }
    Ok(made)
}

/// Whether it is an atom of the task.
pub fn is_atom(task: &Task, predicate: u32, objects: &[u32]) -> bool
    ensures { IsTrue result ↔ IsAtomOf task.now.objects task.now.predicates (atom_of predicate objects.now) }
{
    let predicates = task.predicates.as_slice();
    if predicate as usize >= predicates.len() {
        return false;
    }
    let definition = &predicates[predicate as usize];
    if objects.len() != definition.arity as usize {
        return false;
    }
    let count = task.objects.as_slice().len();
    objects.iter().all(|object| (*object as usize) < count)
}

/// Those of the cases that are atoms of the task.
pub fn atoms(alloc: Global, task: &Task, cases: &[AtomCase]) -> Result<Vec<Atom>, AllocError>
    ensures within { IfOk result (λ v. All (IsAtomOf task.now.objects task.now.predicates) v.items) }
    ensures all { IfOk result (λ v. AreAtomsOf task.now cases.now v.items) }
{
    let mut made = Vec::new(alloc);
    for (predicate, objects) in cases {
        if is_atom(task, *predicate, *objects) {
            made.push(atom(alloc, *predicate, *objects)?)?;
        }
    }
    Ok(made)
}
