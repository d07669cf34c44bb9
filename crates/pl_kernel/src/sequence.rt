//! Which relation is joined next.

ghost use Rattle.std.specs.Prelude.{◌≡◌, ◌<◌, length, map};
ghost use Rattle.pl_kernel.specs.Joining.{IsNext, share_class};

use crate::classes::has;
use pl_join::Relation;

/// The place of the first relation that shares a class with these, and of the first of all where none does.
pub fn next_place(classes: &[u32], left: &[&Relation]) -> usize
    requires { 0 < length left.now }
    ensures { IsNext classes.now (map (λ r. r.now) left.now) result }
{
    for (place, relation) in left.iter().enumerate() {
        if shares(classes, relation) {
            return place;
        }
    }
    0
}

/// Whether the relation has one of the classes.
fn shares(classes: &[u32], relation: &Relation) -> bool
    ensures { result ≡ share_class classes.now relation.now }
{
    relation.classes().iter().any(|class| has(classes, *class))
}
