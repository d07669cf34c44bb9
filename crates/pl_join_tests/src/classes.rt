//! Whether slots and classes are as the calls of relations want them.

ghost use Rattle.std.specs.Prelude.{◌≡◌, All, Contains, IsTrue};
ghost use Rattle.pl_join.specs.Relation.{AreDistinct, IsSlotBelow, IsSlotOver, has_class};

use Slot::{Class, Fixed};
use pl_join::Slot;

/// Whether the class is one of these.
fn has(classes: &[u32], class: u32) -> bool
    ensures { result ≡ has_class classes.now class }
{
    classes.iter().any(|known| *known == class)
}

fn is_below(slot: Slot) -> bool
    ensures { IsTrue result → IsSlotBelow 64 slot }
{
    match slot {
        Fixed(_) => true,
        Class(class) => class < 64,
    }
}

/// Whether each class is a class of a schema.
pub fn are_below(slots: &[Slot]) -> bool
    ensures { IsTrue result → All (IsSlotBelow 64) slots.now }
{
    for slot in slots {
        if !is_below(*slot) {
            return false;
        }
    }
    true
}

/// Whether the slot is fixed, or one of these classes.
pub fn is_over(classes: &[u32], slot: Slot) -> bool
    ensures { IsTrue result → IsSlotOver classes.now slot }
{
    match slot {
        Fixed(_) => true,
        Class(class) => has(classes, class),
    }
}

/// Whether each slot that is a class is one of these classes.
pub fn are_over(classes: &[u32], slots: &[Slot]) -> bool
    ensures { IsTrue result → All (IsSlotOver classes.now) slots.now }
{
    for slot in slots {
        if !is_over(classes, *slot) {
            return false;
        }
    }
    true
}

/// Whether all that are wanted are among the classes.
pub fn are_held(classes: &[u32], wanted: &[u32]) -> bool
    ensures { IsTrue result → All (Contains classes.now) wanted.now }
{
    for class in wanted {
        if !has(classes, *class) {
            return false;
        }
    }
    true
}

/// Whether no class stands twice.
pub fn are_distinct(classes: &[u32]) -> bool
    ensures { IsTrue result → AreDistinct classes.now }
{
    for (i, class) in classes.iter().enumerate() {
        if has(&classes[..i], *class) {
            return false;
        }
    }
    true
}
