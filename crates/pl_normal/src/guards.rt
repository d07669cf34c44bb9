//! The guards of a schema.

ghost use Rattle.std.specs.Prelude.{◌≡◌, ◌<◌, ◌++◌, ◌==◌, length, slice_get, Some, All, IfOk, OnOk};
ghost use Rattle.pl_task.specs.WellFormed.{IsLiteralOf, IsLiftedOf};
ghost use Rattle.pl_task.specs.declared.data.Parameter.{Parameter as ParameterOf};
ghost use Rattle.pl_task.specs.declared.data.PredicateDef.{PredicateDef as PredicateOf};
ghost use Rattle.pl_normal.specs.Guards.{known, is_positive, is_as_wanted, wanted_guard, atom_guard};
ghost use Rattle.pl_normal.specs.Guards.{has_some_type};
ghost use Rattle.pl_normal.specs.Guards.{type_guard, type_guards, guard_over, equality_guard, literal_guard};
ghost use Rattle.pl_normal.specs.Guards.{literal_guards};
ghost use Rattle.pl_normal.specs.Scope.{IsSlotOf, IsLiteralBelow};
ghost use Rattle.pl_normal.specs.Slots.{slots_of, are_fixed, fixed_value};
ghost use Rattle.pl_normal.specs.Tables.{AreStatics, row_atom};

use crate::form::Guard;
use crate::slots::{are_fixed, fixed_values, slot_of, slots_of};
use crate::tables::has_row;
use pl_join::Slot;
use pl_rows::Table;
use pl_task::{Atom, Lifted, List, Literal, Parameter, Task};
use std::alloc::{AllocError, Global};

/// Whether a literal wants its atom or its equality true or false.
#[derive(Clone, Copy)]
pub enum Sign {
    /// It is wanted true.
    Positive,
    /// It is wanted false.
    Negative,
}

/// The guards of a schema, but for those that are true in every state. `slots` are those of the parameters.
pub fn guards(
    alloc: Global,
    task: &Task,
    statics: &[Option<Table>],
    parameters: &[Parameter],
    slots: &[Slot],
    condition: &[Literal],
) -> Result<Vec<Guard>, AllocError>
    requires statics { AreStatics task.now statics.now }
    requires many { length slots.now ≡ length parameters.now }
    requires slots { All (IsSlotOf (length task.now.objects)) slots.now }
    requires types { All (λ (p : ParameterOf). All (λ t. t < length task.now.types) p.types) parameters.now }
    requires literals { All (IsLiteralOf task.now.predicates (length task.now.objects) (length slots.now))
        condition.now }
    ensures { IfOk result (λ v. v.items
        ≡ type_guards task.now parameters.now slots.now ++ literal_guards task.now slots.now condition.now) }
{
    let mut guards = type_guards(alloc, task, parameters, slots)?;
    for literal in condition {
        add_literal_guard(alloc, task, statics, &mut guards, slots, literal)?;
    }
    Ok(guards)
}

/// The guards of the types of the fixed parameters.
fn type_guards(
    alloc: Global,
    task: &Task,
    parameters: &[Parameter],
    slots: &[Slot],
) -> Result<Vec<Guard>, AllocError>
    requires many { length slots.now ≡ length parameters.now }
    requires slots { All (IsSlotOf (length task.now.objects)) slots.now }
    requires types { All (λ (p : ParameterOf). All (λ t. t < length task.now.types) p.types) parameters.now }
    ensures { IfOk result (λ v. v.items ≡ type_guards task.now parameters.now slots.now) }
{
    let mut guards = Vec::new(alloc);
    for p in 0..slots.len() {
        add_type_guard(
            alloc,
            task,
            &mut guards,
            parameters[p].types.as_slice(),
            slots[p],
        )?;
    }
    Ok(guards)
}

/// Appends the guard of a parameter's types, if it is fixed.
fn add_type_guard(
    alloc: Global,
    task: &Task,
    guards: &mut Vec<Guard>,
    types: &[u32],
    slot: Slot,
) -> Result<(), AllocError>
    requires types { All (λ t. t < length task.now.types) types.now }
    requires slot { IsSlotOf (length task.now.objects) slot }
    ensures { OnOk result (guards.new.items ≡ guards.old.items ++ type_guard task.now types.now slot) }
{
    match slot {
        Slot::Class(_) => Ok(()),
        Slot::Fixed(object) => add_known(guards, has_some_type(alloc, task, types, object)?),
    }
}

/// Whether the object has one of the types.
pub fn has_some_type(
    alloc: Global,
    task: &Task,
    types: &[u32],
    object: u32,
) -> Result<bool, AllocError>
    requires types { All (λ t. t < length task.now.types) types.now }
    requires object { object < length task.now.objects }
    ensures { IfOk result (λ answer. answer ≡ has_some_type task.now types.now object) }
{
    for type_number in types {
        if task.has_type(alloc, object, *type_number)? {
            return Ok(true);
        }
    }
    Ok(false)
}

/// Appends a guard that is known without a state: none where it is true.
fn add_known(guards: &mut Vec<Guard>, is_true: bool) -> Result<(), AllocError>
    ensures { OnOk result (guards.new.items ≡ guards.old.items ++ known is_true) }
{
    if is_true {
        return Ok(());
    }
    guards.push(Guard::Never)?;
    Ok(())
}

/// Appends the guard that the literal is, if it has no class.
fn add_literal_guard(
    alloc: Global,
    task: &Task,
    statics: &[Option<Table>],
    guards: &mut Vec<Guard>,
    slots: &[Slot],
    literal: &Literal,
) -> Result<(), AllocError>
    requires statics { AreStatics task.now statics.now }
    requires literal { IsLiteralOf task.now.predicates (length task.now.objects)
        (length slots.now) literal.now }
    requires below { IsLiteralBelow (length slots.now) literal.now }
    ensures { OnOk result (guards.new.items ≡ guards.old.items
        ++ literal_guard task.now slots.now literal.now) }
{
    match literal {
        Literal::Atom(atom) => {
            add_atom_guard(alloc, task, statics, guards, slots, Sign::Positive, atom)
        }
        Literal::NotAtom(atom) => {
            add_atom_guard(alloc, task, statics, guards, slots, Sign::Negative, atom)
        }
        Literal::Equal(a, b) => {
            add_equality_guard(
                guards,
                Sign::Positive,
                slot_of(slots, *a),
                slot_of(slots, *b),
            )
        }
        Literal::NotEqual(a, b) => {
            add_equality_guard(
                guards,
                Sign::Negative,
                slot_of(slots, *a),
                slot_of(slots, *b),
            )
        }
    }
}

/// Appends the guard of two fixed slots, whose objects are wanted equal or different.
fn add_equality_guard(
    guards: &mut Vec<Guard>,
    sign: Sign,
    a: Slot,
    b: Slot,
) -> Result<(), AllocError>
    ensures { OnOk result (guards.new.items ≡ guards.old.items ++ equality_guard (is_positive sign) a b) }
{
    match a {
        Slot::Class(_) => match b {
            Slot::Class(_) => Ok(()),
            Slot::Fixed(_) => Ok(()),
        },
        Slot::Fixed(a) => match b {
            Slot::Class(_) => Ok(()),
            Slot::Fixed(b) => add_known(guards, is_as_wanted(sign, a == b)),
        },
    }
}

/// Whether something is there just where it is wanted.
fn is_as_wanted(sign: Sign, there: bool) -> bool
    ensures { result ≡ is_as_wanted (is_positive sign) there }
{
    match sign {
        Sign::Positive => there,
        Sign::Negative => !there,
    }
}

/// Appends the guard of an atom without a class, which is wanted true or false.
fn add_atom_guard(
    alloc: Global,
    task: &Task,
    statics: &[Option<Table>],
    guards: &mut Vec<Guard>,
    slots: &[Slot],
    sign: Sign,
    atom: &Lifted,
) -> Result<(), AllocError>
    requires statics { AreStatics task.now statics.now }
    requires atom { IsLiftedOf task.now.predicates (length task.now.objects) (length slots.now) atom.now }
    ensures { OnOk result (guards.new.items
        ≡ guards.old.items ++ guard_over task.now (is_positive sign) atom.now.predicate
        (slots_of slots.now atom.now.terms)) }
{
    let row = slots_of(alloc, slots, atom.terms.as_slice())?;
    if !are_fixed(&row) {
        return Ok(());
    }
    let objects = fixed_values(alloc, &row)?;
    add_ground_guard(task, statics, guards, sign, atom.predicate, objects)
}

/// Appends the guard of a ground atom. The initial atoms decide it where its predicate is static.
fn add_ground_guard(
    task: &Task,
    statics: &[Option<Table>],
    guards: &mut Vec<Guard>,
    sign: Sign,
    predicate: u32,
    objects: Vec<u32>,
) -> Result<(), AllocError>
    requires statics { AreStatics task.now statics.now }
    requires predicate { predicate < length task.now.predicates }
    requires arity { (d : PredicateOf) → slice_get task.now.predicates predicate ≡ Some d
        → length objects.items ≡ d.arity }
    ensures { OnOk result (guards.new.items
        ≡ guards.old.items ++ atom_guard task.now (is_positive sign)
        (row_atom predicate objects.items)) }
{
    match &statics[predicate as usize] {
        Some(table) => add_known(guards, is_as_wanted(sign, has_row(table, &objects))),
        None => {
            let objects = List::of(objects);
            guards.push(wanted_guard(sign, Atom { predicate, objects }))?;
            Ok(())
        }
    }
}

/// The guard of an atom over a fluent predicate.
fn wanted_guard(sign: Sign, atom: Atom) -> Guard
    ensures { result ≡ wanted_guard (is_positive sign) atom }
{
    match sign {
        Sign::Positive => Guard::Holds(atom),
        Sign::Negative => Guard::Absent(atom),
    }
}
