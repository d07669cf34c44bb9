//! What no clause says: that the calls answer with ample memory, and values from the rules.

ghost use Rattle.std.specs.Prelude.{◌<◌, ◌↔◌, length, All, IsTrue};
ghost use Rattle.pl_task.specs.WellFormed.{AreTypes};
ghost use Rattle.pl_task.specs.declared.data.ObjectDef.{ObjectDef};

use pl_task::{Atom, List, Mark, ObjectDef, Step, StepRef, Task, TypeDef};
use std::alloc::{AllocError, Global};
use std::collections::{BTreeSet, HashSet};
use std::test::Fail;

/// `[parents]` of types 0, 1, .. and `[types]` of objects 0, 1, .., without predicates, schemas, atoms and
/// goal.
struct TypeCase {
    parents: &'static [&'static [u32]],
    objects: &'static [&'static [u32]],
    object: u32,
    type_number: u32,
    has: bool,
}

// Types 1, 2 and 3 run in a circle, 4 stands under 1, and 5 has no parent.
const CIRCLE: &[&[u32]] = &[&[], &[2], &[3], &[1, 0], &[1], &[]];

const TYPE_CASES: &[TypeCase] = &[
    TypeCase {
        parents: &[&[]],
        objects: &[&[]],
        object: 0,
        type_number: 0,
        has: true,
    },
    TypeCase {
        parents: CIRCLE,
        objects: &[&[5]],
        object: 0,
        type_number: 0,
        has: true,
    },
    TypeCase {
        parents: CIRCLE,
        objects: &[&[4]],
        object: 0,
        type_number: 4,
        has: true,
    },
    TypeCase {
        parents: CIRCLE,
        objects: &[&[4]],
        object: 0,
        type_number: 1,
        has: true,
    },
    TypeCase {
        parents: CIRCLE,
        objects: &[&[5], &[4]],
        object: 1,
        type_number: 3,
        has: true,
    },
    TypeCase {
        parents: CIRCLE,
        objects: &[&[5], &[4]],
        object: 0,
        type_number: 3,
        has: false,
    },
    TypeCase {
        parents: CIRCLE,
        objects: &[&[4]],
        object: 0,
        type_number: 5,
        has: false,
    },
    TypeCase {
        parents: CIRCLE,
        objects: &[&[1, 5]],
        object: 0,
        type_number: 5,
        has: true,
    },
    TypeCase {
        parents: CIRCLE,
        objects: &[&[1, 5]],
        object: 0,
        type_number: 4,
        has: false,
    },
];

fn list_of(alloc: Global, numbers: &[u32]) -> Result<List<u32>, AllocError> {
    Ok(List::of(numbers.to_vec(alloc)?))
}

fn atom(alloc: Global, predicate: u32, objects: &[u32]) -> Result<Atom, AllocError> {
    Ok(Atom {
        predicate,
        objects: list_of(alloc, objects)?,
    })
}

#[test]
fn steps_are_copied_and_lent(rt: HostRuntime) -> Result<(), Fail> {
    let alloc = rt.alloc();
    for length in [0, 1, 8, 9, 64] {
        let args = vec![in alloc; 7; length]?;
        let lent = StepRef {
            schema: 3,
            args: args.as_slice(),
        };
        let step = Step::of(alloc, lent)?;
        assert_eq!(rt; step.view().schema, 3);
        assert!(rt; step.view().args == args.as_slice(), "{length} arguments");
        let mark = Mark::of(lent);
        assert_eq!(rt; mark.view().schema, 3);
        assert!(rt; mark.view().args == args.as_slice(), "{length} arguments");
    }
    Ok(())
}

#[test]
fn atoms_are_ordered_and_hashed(rt: HostRuntime) -> Result<(), Fail> {
    let alloc = rt.alloc();
    let low = atom(alloc, 0, &[5, 1])?;
    let middle = atom(alloc, 1, &[0])?;
    let high = atom(alloc, 1, &[0, 0])?;
    assert!(rt; low < middle);
    assert!(rt; middle < high);
    assert!(rt; low == atom(alloc, 0, &[5, 1])?);
    let mut sorted = BTreeSet::new(alloc);
    sorted.insert(middle)?;
    assert!(rt; sorted.contains(&atom(alloc, 1, &[0])?));
    assert!(rt; !sorted.contains(&high));
    let mut hashed: HashSet<Atom> = HashSet::new(alloc);
    hashed.insert(low)?;
    assert!(rt; hashed.contains(&atom(alloc, 0, &[5, 1])?));
    assert!(rt; !hashed.contains(&high));
    Ok(())
}

/// Whether all numbers are below the bound.
fn are_below(numbers: &[u32], bound: usize) -> bool
    ensures { IsTrue result ↔ All (λ n. n < bound) numbers.now }
{
    numbers.iter().all(|n| (*n as usize) < bound)
}

/// Whether there is a type, and all parents are types.
fn are_types(types: &[TypeDef]) -> bool
    ensures { IsTrue result → AreTypes types.now }
{
    for definition in types {
        if !are_below(definition.parents.as_slice(), types.len()) {
            return false;
        }
    }
    !types.is_empty() && types.len() < 100
}

/// Whether the types of all objects are below the number of types.
fn are_objects(count: usize, objects: &[ObjectDef]) -> bool
    ensures { IsTrue result → All (λ (o : ObjectDef). All (λ t. t < count) o.types) objects.now }
{
    for definition in objects {
        if !are_below(definition.types.as_slice(), count) {
            return false;
        }
    }
    true
}

/// A task with these types and objects alone.
fn typed_task(alloc: Global, types: Vec<TypeDef>, objects: Vec<ObjectDef>) -> Task
    requires types { AreTypes types.items }
    requires objects { All (λ (o : ObjectDef). All (λ t. t < length types.items) o.types) objects.items }
    requires few { length objects.items < 100 }
{
    Task {
        types: List::of(types),
        objects: List::of(objects),
        predicates: List::of(Vec::new(alloc)),
        schemas: List::of(Vec::new(alloc)),
        init: List::of(Vec::new(alloc)),
        goal: List::of(Vec::new(alloc)),
    }
}

/// The task of a case.
fn task_of(alloc: Global, case: &TypeCase) -> Result<Option<Task>, AllocError> {
    let mut types = Vec::new(alloc);
    for parents in case.parents {
        types.push(TypeDef {
            name: List::of(Vec::new(alloc)),
            parents: list_of(alloc, parents)?,
        })?;
    }
    let mut objects = Vec::new(alloc);
    for numbers in case.objects {
        objects.push(ObjectDef {
            name: List::of(Vec::new(alloc)),
            types: list_of(alloc, numbers)?,
        })?;
    }
    if are_types(&types) && are_objects(types.len(), &objects) && objects.len() < 100 {
        return Ok(Some(typed_task(alloc, types, objects)));
    }
    Ok(None)
}

#[test]
fn types_are_reached_through_parents(rt: HostRuntime) -> Result<(), Fail> {
    let alloc = rt.alloc();
    for (i, case) in TYPE_CASES.iter().enumerate() {
        let task = task_of(alloc, case)?.ok_or("numbers out of range")?;
        assert!(rt; (case.object as usize) < task.objects.as_slice().len());
        assert!(rt; (case.type_number as usize) < task.types.as_slice().len());
        let has = task.has_type(alloc, case.object, case.type_number)?;
        assert_eq!(rt; has, case.has, "case {i}");
        assert!(rt;
            !task.is_step(StepRef {
                schema: 0,
                args: &[]
            })
        );
    }
    Ok(())
}
