//! Slots of terms.

ghost use Rattle.std.specs.Prelude.{◌≡◌, length, map, All, IfOk};
ghost use Rattle.pl_join.specs.Relation.{IsSlotBelow};
ghost use Rattle.pl_normal.specs.Slots.{slot_of, slots_of, is_fixed, are_fixed, fixed_value, class_bit};
ghost use Rattle.pl_normal.specs.Slots.{class_set};
ghost use Rattle.pl_normal.specs.Scope.{IsTermBelow};

use pl_join::Slot;
use pl_task::Term;
use std::alloc::{AllocError, Global};

/// The slot of a term: that of a parameter, or the object.
pub fn slot_of(slots: &[Slot], term: Term) -> Slot
    requires { IsTermBelow (length slots.now) term }
    ensures { result ≡ slot_of slots.now term }
{
    match term {
        Term::Parameter(parameter) => slots[parameter as usize],
        Term::Object(object) => Slot::Fixed(object),
    }
}

/// The slots of terms.
pub fn slots_of(alloc: Global, slots: &[Slot], terms: &[Term]) -> Result<Vec<Slot>, AllocError>
    requires { All (IsTermBelow (length slots.now)) terms.now }
    ensures { IfOk result (λ v. v.items ≡ slots_of slots.now terms.now) }
{
    let mut made = Vec::with_capacity(alloc, terms.len())?;
    for term in terms {
        made.push(slot_of(slots, *term))?;
    }
    Ok(made)
}

/// Whether the slot is an object.
pub fn is_fixed(slot: Slot) -> bool
    ensures { result ≡ is_fixed slot }
{
    match slot {
        Slot::Fixed(_) => true,
        Slot::Class(_) => false,
    }
}

/// Whether no slot is a class.
pub fn are_fixed(slots: &[Slot]) -> bool
    ensures { result ≡ are_fixed slots.now }
{
    for slot in slots {
        if !is_fixed(*slot) {
            return false;
        }
    }
    true
}

/// The objects of slots, 0 for a class.
pub fn fixed_values(alloc: Global, slots: &[Slot]) -> Result<Vec<u32>, AllocError>
    ensures { IfOk result (λ v. v.items ≡ map fixed_value slots.now) }
{
    let mut values = Vec::with_capacity(alloc, slots.len())?;
    for slot in slots {
        values.push(fixed_value(*slot))?;
    }
    Ok(values)
}

/// The object of a slot, 0 for a class.
fn fixed_value(slot: Slot) -> u32
    ensures { result ≡ fixed_value slot }
{
    match slot {
        Slot::Fixed(object) => object,
        Slot::Class(_) => 0,
    }
}

/// The classes of the slots: bit `c` is set for class `c`.
pub fn class_set(slots: &[Slot]) -> u64
    requires { All (IsSlotBelow 64) slots.now }
    ensures { result ≡ class_set slots.now }
{
    let mut set = 0;
    for slot in slots {
        set |= class_bit(*slot);
    }
    set
}

/// The class of a slot as a set, and the empty set for an object.
fn class_bit(slot: Slot) -> u64
    requires { IsSlotBelow 64 slot }
    ensures { result ≡ class_bit slot }
{
    match slot {
        Slot::Fixed(_) => 0,
        Slot::Class(class) => 1 << class,
    }
}
