//! The classes of a schema's parameters, and the objects that equalities fix them to.

ghost use Rattle.std.specs.Prelude.{◌≡◌, ◌<◌, ◌≤◌, ◌++◌, length, map, slice_index, All, IfOk, OnOk};
ghost use Rattle.std.specs.List.{range_with_len};
ghost use Rattle.pl_normal.specs.Classes.{equality_list, equality_of, literal_equality, equalities};
ghost use Rattle.pl_normal.specs.Classes.{fixing_of, literal_fixing, fixings, class_of, parameter_classes};
ghost use Rattle.pl_normal.specs.Classes.{object_of};
ghost use Rattle.pl_normal.specs.Slots.{class_slot, slot_object};
ghost use Rattle.pl_normal.specs.Scope.{IsLiteralBelow, renamed, joined_by};

use pl_join::Slot;
use pl_task::{Literal, Schema, Term};
use std::alloc::{AllocError, Global};

/// A positive equality of a parameter and an object.
#[derive(Clone, Copy)]
pub struct Fixing {
    pub parameter: u32,
    pub object: u32,
}

/// The class of each parameter: the least parameter that equalities between parameters join it to.
pub fn parameter_classes(alloc: Global, schema: &Schema) -> Result<Vec<u32>, AllocError>
    requires few { length schema.now.parameters ≤ 64 }
    requires literals { All (IsLiteralBelow (length schema.now.parameters)) schema.now.condition }
    ensures { IfOk result (λ v. v.items ≡ parameter_classes schema.now) }
{
    let mut all = all_numbers(alloc, schema.parameters.as_slice().len() as u32)?;
    let classes = all.as_mut_slice();
    join_parameters(classes, schema.condition.as_slice());
    Ok(all)
}

/// The numbers below a bound.
fn all_numbers(alloc: Global, bound: u32) -> Result<Vec<u32>, AllocError>
    ensures { IfOk result (λ v. v.items ≡ range_with_len 0 bound) }
{
    (0..bound).collect(alloc)
}

/// Joins the classes of parameters, each its own at first, along the equalities.
fn join_parameters(classes: &mut [u32], condition: &[Literal])
    requires start { classes.old ≡ range_with_len 0 (length classes.old) }
    requires literals { All (IsLiteralBelow (length classes.old)) condition.now }
    ensures { classes.new ≡ map (class_of (equalities condition.now))
        (range_with_len 0 (length classes.old)) }
{
    for literal in condition {
        join_by(classes, literal);
    }
}

/// Joins the classes of two parameters, if the literal is an equality of them.
fn join_by(classes: &mut [u32], literal: &Literal)
    requires { IsLiteralBelow (length classes.old) literal.now }
    ensures { classes.new ≡ joined_by (literal_equality literal.now) classes.old }
{
    match equality(literal) {
        None => {}
        Some((a, b)) => merge(classes, a, b),
    }
}

/// The two parameters of an equality between parameters.
fn equality(literal: &Literal) -> Option<(u32, u32)>
    ensures { literal_equality literal.now ≡ equality_list result }
{
    match literal {
        Literal::Atom(_) => None,
        Literal::NotAtom(_) => None,
        Literal::Equal(a, b) => both_parameters(*a, *b),
        Literal::NotEqual(_, _) => None,
    }
}

/// Both terms, if they are parameters.
fn both_parameters(a: Term, b: Term) -> Option<(u32, u32)>
    ensures { equality_of a b ≡ equality_list result }
{
    match a {
        Term::Parameter(a) => match b {
            Term::Parameter(b) => Some((a, b)),
            Term::Object(_) => None,
        },
        Term::Object(_) => None,
    }
}

/// Gives the classes of two parameters one name, the lesser of their names.
fn merge(classes: &mut [u32], a: u32, b: u32)
    requires a_within { a < length classes.old }
    requires b_within { b < length classes.old }
    ensures { classes.new ≡ map (renamed (slice_index classes.old a) (slice_index classes.old b))
        classes.old }
{
    let x = classes[a as usize];
    let y = classes[b as usize];
    for k in 0..classes.len() {
        classes[k] = rename(x, y, classes[k]);
    }
}

/// The lesser of two names in place of the greater, and any other name.
fn rename(x: u32, y: u32, name: u32) -> u32
    ensures { result ≡ renamed x y name }
{
    if name == x.max(y) { x.min(y) } else { name }
}

/// The equalities of a parameter and an object, in reading order.
pub fn fixings(alloc: Global, condition: &[Literal]) -> Result<Vec<Fixing>, AllocError>
    ensures { IfOk result (λ v. v.items ≡ fixings condition.now) }
{
    let mut found = Vec::new(alloc);
    for literal in condition {
        add_fixing(&mut found, literal)?;
    }
    Ok(found)
}

/// Appends the literal's parameter and object, if it is an equality of the two.
fn add_fixing(found: &mut Vec<Fixing>, literal: &Literal) -> Result<(), AllocError>
    ensures { OnOk result (found.new.items ≡ found.old.items ++ literal_fixing literal.now) }
{
    match literal {
        Literal::Atom(_) => Ok(()),
        Literal::NotAtom(_) => Ok(()),
        Literal::Equal(a, b) => add_fixing_of(found, *a, *b),
        Literal::NotEqual(_, _) => Ok(()),
    }
}

/// Appends the parameter and the object, if the terms are one of each.
fn add_fixing_of(found: &mut Vec<Fixing>, a: Term, b: Term) -> Result<(), AllocError>
    ensures { OnOk result (found.new.items ≡ found.old.items ++ fixing_of a b) }
{
    match a {
        Term::Parameter(parameter) => match b {
            Term::Parameter(_) => Ok(()),
            Term::Object(object) => {
                found.push(Fixing { parameter, object })?;
                Ok(())
            }
        },
        Term::Object(object) => match b {
            Term::Parameter(parameter) => {
                found.push(Fixing { parameter, object })?;
                Ok(())
            }
            Term::Object(_) => Ok(()),
        },
    }
}

/// The slots of parameters, by their classes.
pub fn class_slots(
    alloc: Global,
    classes: &[u32],
    fixings: &[Fixing],
) -> Result<Vec<Slot>, AllocError>
    requires { All (λ f. f.parameter < length classes.now) fixings.now }
    ensures { IfOk result (λ v. v.items
        ≡ map (λ class. class_slot (object_of classes.now fixings.now class) class) classes.now) }
{
    let mut slots = Vec::with_capacity(alloc, classes.len())?;
    for class in classes {
        slots.push(slot_of_class(classes, fixings, *class))?;
    }
    Ok(slots)
}

/// The slot of a class: the object that it is fixed to, or itself.
fn slot_of_class(classes: &[u32], fixings: &[Fixing], class: u32) -> Slot
    requires { All (λ f. f.parameter < length classes.now) fixings.now }
    ensures { result ≡ class_slot (object_of classes.now fixings.now class) class }
{
    match object_of(classes, fixings, class) {
        None => Slot::Class(class),
        Some(object) => Slot::Fixed(object),
    }
}

/// The object of the first fixing of a parameter of the class.
fn object_of(classes: &[u32], fixings: &[Fixing], class: u32) -> Option<u32>
    requires { All (λ f. f.parameter < length classes.now) fixings.now }
    ensures { result ≡ object_of classes.now fixings.now class }
{
    for fixing in fixings {
        if classes[fixing.parameter as usize] == class {
            return Some(fixing.object);
        }
    }
    None
}

/// The objects of the slots that are fixed.
pub fn slot_objects(alloc: Global, slots: &[Slot]) -> Result<Vec<Option<u32>>, AllocError>
    ensures { IfOk result (λ v. v.items ≡ map slot_object slots.now) }
{
    let mut objects = Vec::with_capacity(alloc, slots.len())?;
    for slot in slots {
        objects.push(slot_object(*slot))?;
    }
    Ok(objects)
}

/// The object of a fixed slot.
fn slot_object(slot: Slot) -> Option<u32>
    ensures { result ≡ slot_object slot }
{
    match slot {
        Slot::Fixed(object) => Some(object),
        Slot::Class(_) => None,
    }
}
