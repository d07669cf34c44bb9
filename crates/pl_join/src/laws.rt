//! Laws of relations, each the contract of a function that does nothing.

ghost use Rattle.std.specs.Prelude.{◌≡◌, ◌↔◌, ◌≤◌, length};
ghost use Rattle.pl_join.specs.Relation.{ClassRows, Assignment, IsRelation, Holds};

use crate::keyed::Keyed;
use crate::relation::Relation;

/// A set of assignments has one relation over its classes: two relations with the same classes in the same
/// order that hold the same assignments are the same, with the same rows.
pub fn one_relation_for_a_set()
    ensures { (relation other : ClassRows) → IsRelation relation → IsRelation other
        → relation.classes ≡ other.classes →
        ((f : Assignment) → Holds relation f ↔ Holds other f) → relation ≡ other }
{}

/// What is known of every relation: its classes are distinct, and its rows ascend, each as wide as the classes
/// are many.
pub fn relation_is_one(relation: &Relation)
    ensures { IsRelation relation.now }
{
    let _ = relation.classes();
}

/// What is known of every keyed relation: it is one, and its key is a front of its classes.
pub fn keyed_is_a_relation(keyed: &Keyed)
    ensures relation { IsRelation keyed.now.relation }
    ensures width { keyed.now.width ≤ length keyed.now.relation.classes }
{
    let _ = keyed.classes();
}
