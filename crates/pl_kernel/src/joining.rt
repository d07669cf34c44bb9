//! The join of all relations of a core.

ghost use Rattle.std.specs.Prelude.{◌≡◌, ◌+◌, ◌<◌, ◌≤◌, ◌∷◌, [], ◌↔◌, ℕ, length, map, Contains, IfOk};
ghost use Rattle.pl_join.specs.Relation.{ClassRows, Assignment, AreDistinct, Holds, IsJoinOfAll};
ghost use Rattle.pl_kernel.specs.ClassesByAppearance.{classes_by_appearance};
ghost use Rattle.pl_kernel.specs.Joining.{HaveSameJoin};

use crate::classes::ordered_classes;
use crate::sequence::next_place;
use pl_join::{Relation, hash_join, project};
use pl_steps::Steps;
use std::alloc::{AllocError, Global};
use std::sync::ledger::Ledger;

/// The join of all relations, over their classes by first appearance, within one relation by rising number.
///
/// It begins with the first relation, goes on with the first remaining one that shares a class with those
/// joined, and takes the first remaining one where none does. That order changes the work, and neither the
/// rows nor the classes.
///
/// The only error is want of memory. The probes are those of the joins, and one per row of what is brought
/// into order at the end: a join whose classes came in another order. For one relation it takes at most one
/// probe per row.
pub fn core_table<L: Ledger>(
    alloc: Global,
    core: &[Relation],
    steps: &mut Steps<L>,
) -> Result<Relation, AllocError>
    requires { 0 < length core.now }
    ensures classes { IfOk result (λ r. r.classes ≡ classes_by_appearance core.now) }
    ensures rows { IfOk result (IsJoinOfAll core.now) }
    ensures one { (relation : ClassRows) → core.now ≡ relation ∷ []
        → steps.new ≤ steps.old + length relation.rows }
    ensures rise { steps.old ≤ steps.new }
{
    let classes = ordered_classes(alloc, core)?;
    let first = &core[0];
    let mut left = references(alloc, &core[1..])?;
    if left.is_empty() {
        return project(alloc, first, &classes, steps);
    }
    let mut joined = join_next(alloc, first, &mut left, steps)?;
    while !left.is_empty() {
        joined = join_next(alloc, &joined, &mut left, steps)?;
    }
    arranged(alloc, joined, &classes, steps)
}

/// References to the relations, in their order.
fn references<'a>(alloc: Global, relations: &'a [Relation]) -> Result<Vec<&'a Relation>, AllocError>
    ensures { IfOk result (λ v. map (λ r. r.now) v.items ≡ relations.now) }
{
    relations.iter().collect(alloc)
}

/// The join with the next of the relations that are left, which is taken out of them.
fn join_next<L: Ledger>(
    alloc: Global,
    joined: &Relation,
    left: &mut Vec<&Relation>,
    steps: &mut Steps<L>,
) -> Result<Relation, AllocError>
    requires { 0 < length left.old.items }
    ensures fewer { length left.new.items + 1 ≡ length left.old.items }
    ensures same { IfOk result (λ r. HaveSameJoin
        (r ∷ map (λ x. x.now) left.new.items) (joined.now ∷ map (λ x. x.now) left.old.items)) }
    ensures rise { steps.old ≤ steps.new }
{
    let next = left.remove(next_place(joined.classes(), left));
    hash_join(alloc, joined, next, steps)
}

/// The relation over its classes in this order. It takes no probe where they stand in it already.
fn arranged<L: Ledger>(
    alloc: Global,
    relation: Relation,
    classes: &[u32],
    steps: &mut Steps<L>,
) -> Result<Relation, AllocError>
    requires distinct { AreDistinct classes.now }
    requires members { (c : ℕ) → Contains classes.now c ↔ Contains relation.classes c }
    ensures classes { IfOk result (λ r. r.classes ≡ classes.now) }
    ensures rows { IfOk result (λ r. (f : Assignment) → Holds r f ↔ Holds relation f) }
    ensures cost { relation.classes ≡ classes.now → steps.new ≡ steps.old }
    ensures rise { steps.old ≤ steps.new }
{
    if relation.classes() == classes {
        return Ok(relation);
    }
    project(alloc, &relation, classes, steps)
}
