//! The order of a schema's parameters.

ghost use Rattle.std.specs.Prelude.{◌≡◌, ◌++◌, IfOk, OnOk};
ghost use Rattle.pl_hyper.specs.ClassOrder.{class_order};
ghost use Rattle.pl_normal.specs.ParameterOrder.{then_others};
ghost use Rattle.pl_normal.specs.Scope.{other_of};

use pl_hyper::EarPlan;
use std::alloc::{AllocError, Global};

/// The classes of the ears in class order, then the other numbers below `count`, rising.
pub fn parameter_order(alloc: Global, count: u32, plan: &EarPlan) -> Result<Vec<u32>, AllocError>
    ensures { IfOk result (λ v. v.items ≡ then_others count (class_order plan.now)) }
{
    let classes = plan.class_order(alloc)?;
    then_others(alloc, count, &classes)
}

/// The classes, then the other numbers below `count`, rising.
fn then_others(alloc: Global, count: u32, classes: &[u32]) -> Result<Vec<u32>, AllocError>
    ensures { IfOk result (λ v. v.items ≡ then_others count classes.now) }
{
    let mut order = Vec::from_slice(alloc, classes)?;
    for p in 0..count {
        add_other(&mut order, classes, p)?;
    }
    Ok(order)
}

/// Appends the number, unless it is one of the classes.
fn add_other(order: &mut Vec<u32>, classes: &[u32], p: u32) -> Result<(), AllocError>
    ensures { OnOk result (order.new.items ≡ order.old.items ++ other_of classes.now p) }
{
    if classes.contains(&p) {
        return Ok(());
    }
    order.push(p)?;
    Ok(())
}
