//! The order of the classes that a removal of ears gives.

ghost use Rattle.std.specs.Prelude.{◌≡◌, ◌≢◌, ◌<◌, ◌↔◌, ◌++◌, ℕ, All, AllPairs, Contains, length, IfOk, OnOk};
ghost use Rattle.pl_hyper.specs.Ears.{IsRemoval};
ghost use Rattle.pl_hyper.specs.ClassOrder.{classes_of, class_order, IsClass, BeginsWithWalked};

use crate::ear::Ear;
use std::alloc::{AllocError, Global};

/// The classes in the order in which they are met by a walk over the core and then the removed edges, the
/// last removed first.
pub fn order_of_classes(
    alloc: Global,
    edges: &[u64],
    removed: &[Ear],
    core: &[u32],
) -> Result<Vec<u32>, AllocError>
    requires removed { All (λ ear. ear.edge < length edges.now) removed.now }
    requires core { All (λ e. e < length edges.now) core.now }
    requires removal { IsRemoval (record { edges = edges.now; removed = removed.now; core = core.now }) }
    ensures order { IfOk result (λ v. v.items
        ≡ class_order (record { edges = edges.now; removed = removed.now; core = core.now })) }
    ensures once { IfOk result (λ v. AllPairs (λ a b. a ≢ b) v.items) }
    ensures classes { IfOk result
        (λ v. (class : ℕ) → Contains v.items class ↔ IsClass edges.now class) }
    ensures below { IfOk result (λ v. All (λ class. class < 64) v.items) }
    ensures walked { IfOk result (λ v. BeginsWithWalked
        (record { edges = edges.now; removed = removed.now; core = core.now }) v.items) }
{
    let mut order = Vec::with_capacity(alloc, 64)?;
    let mut met = 0;
    for edge in core {
        let classes = edges[*edge as usize];
        append_classes(&mut order, classes & !met)?;
        met |= classes;
    }
    for ear in removed.iter().rev() {
        let classes = edges[ear.edge as usize];
        append_classes(&mut order, classes & !met)?;
        met |= classes;
    }
    Ok(order)
}

/// Appends the classes, rising.
fn append_classes(order: &mut Vec<u32>, classes: u64) -> Result<(), AllocError>
    ensures { OnOk result (order.new.items ≡ order.old.items ++ classes_of classes) }
{
    // Most edges of a walk bring no class that was not met before.
    if classes == 0 {
        return Ok(());
    }
    for class in 0..64 {
        if classes >> class & 1 == 1 {
            order.push(class)?;
        }
    }
    Ok(())
}
