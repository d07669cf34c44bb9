//! The classes of several relations, in the order in which they are met.

ghost use Rattle.std.specs.Prelude.{◌≡◌, ◌↔◌, ℕ, Contains, IfOk};
ghost use Rattle.pl_join.specs.Relation.{AreDistinct, has_class, without};
ghost use Rattle.pl_kernel.specs.ClassesByAppearance.{rising, classes_by_appearance};
ghost use Rattle.pl_kernel.specs.Joining.{IsClassOf};

use pl_join::Relation;
use std::alloc::{AllocError, Global};

/// The number of classes: they are the numbers below it.
const CLASSES: u32 = 64;

/// The classes of the relations by first appearance, within one relation by rising number.
pub fn ordered_classes(alloc: Global, relations: &[Relation]) -> Result<Vec<u32>, AllocError>
    ensures order { IfOk result (λ v. v.items ≡ classes_by_appearance relations.now) }
    ensures distinct { IfOk result (λ v. AreDistinct v.items) }
    ensures members { IfOk result (λ v. (c : ℕ) → Contains v.items c ↔ IsClassOf relations.now c) }
{
    let mut met = Vec::new(alloc);
    for relation in relations {
        let fresh = fresh_classes(alloc, relation.classes(), &met)?;
        met.extend_from_slice(&fresh)?;
    }
    Ok(met)
}

/// The classes that are not among those met, by rising number.
fn fresh_classes(alloc: Global, classes: &[u32], met: &[u32]) -> Result<Vec<u32>, AllocError>
    ensures { IfOk result (λ v. v.items ≡ without (rising classes.now) met.now) }
{
    let mut fresh = Vec::new(alloc);
    for class in 0..CLASSES {
        if has(classes, class) && !has(met, class) {
            fresh.push(class)?;
        }
    }
    Ok(fresh)
}

/// Whether the class is among these.
pub fn has(classes: &[u32], class: u32) -> bool
    ensures { result ≡ has_class classes.now class }
{
    classes.iter().any(|known| *known == class)
}
