//! The relations of a join with their columns in class order.

ghost use Rattle.std.specs.Prelude.{◌≡◌, ◌+◌, ◌<◌, ◌≤◌, ℕ, Some, length, All, Contains, IfOk, OnOk};
ghost use Rattle.std.specs.Prelude.{◌↔◌, IsTrue};
ghost use Rattle.pl_join.specs.Relation.{ClassRows, AreDistinct};
ghost use Rattle.pl_reduce.specs.Recipes.{option_at};
ghost use Rattle.pl_reduce.specs.Lent.{option_rows, own_rows};
ghost use Rattle.pl_reduce.specs.Arranged.{ordered, IsArrangement, IsArrangedAt, AreArrangedBelow};

use crate::pairs::own_at;
use pl_join::{Relation, project};
use pl_steps::Steps;
use std::alloc::{AllocError, Global};
use std::sync::ledger::Ledger;

/// Puts the columns of all relations behind the root's into the order. A relation that has them so is left as
/// it is.
pub fn arrange_all<L: Ledger>(
    alloc: Global,
    own: &mut Vec<Option<Relation>>,
    order: &[u32],
    steps: &mut Steps<L>,
) -> Result<(), AllocError>
    requires distinct { AreDistinct order.now }
    requires held { (k : ℕ) (r : ClassRows) → 0 < k → option_at own.old.items k ≡ Some r
        → All (Contains order.now) r.classes }
    ensures arranged { OnOk result
        (AreArrangedBelow order.now own.old.items own.new.items (length own.old.items)) }
    ensures cost { steps.new ≤ steps.old + own_rows own.old.items }
    ensures rise { steps.old ≤ steps.new }
{
    for node in 1..own.len() {
        arrange_node(alloc, own, node, order, steps)?;
    }
    Ok(())
}

/// Puts the columns of one relation into the order. It takes no probe where they stand so already.
fn arrange_node<L: Ledger>(
    alloc: Global,
    own: &mut Vec<Option<Relation>>,
    node: usize,
    order: &[u32],
    steps: &mut Steps<L>,
) -> Result<(), AllocError>
    requires within { node < length own.old.items }
    requires distinct { AreDistinct order.now }
    requires held { (r : ClassRows) → option_at own.old.items node ≡ Some r
        → All (Contains order.now) r.classes }
    ensures arranged { OnOk result (IsArrangedAt order.now own.old.items own.new.items node) }
    ensures cost { steps.new ≤ steps.old + option_rows (option_at own.old.items node) }
    ensures no_cost { (r : ClassRows) → option_at own.old.items node ≡ Some r
        → r.classes ≡ ordered order.now r.classes → steps.new ≡ steps.old }
    ensures rise { steps.old ≤ steps.new }
{
    if let Some(arranged) = arrangement(alloc, own, node, order, steps)? {
        own[node] = Some(arranged);
    }
    Ok(())
}

/// The relation of a node with its columns in the order; None where there is none, or they stand so already,
/// which takes no probe.
pub fn arrangement<L: Ledger>(
    alloc: Global,
    own: &[Option<Relation>],
    node: usize,
    order: &[u32],
    steps: &mut Steps<L>,
) -> Result<Option<Relation>, AllocError>
    requires within { node < length own.now }
    requires distinct { AreDistinct order.now }
    requires held { (r : ClassRows) → option_at own.now node ≡ Some r → All (Contains order.now) r.classes }
    ensures arranged { IfOk result (IsArrangement order.now (option_at own.now node)) }
    ensures cost { steps.new ≤ steps.old + option_rows (option_at own.now node) }
    ensures no_cost { (r : ClassRows) → option_at own.now node ≡ Some r
        → r.classes ≡ ordered order.now r.classes → steps.new ≡ steps.old }
    ensures rise { steps.old ≤ steps.new }
{
    let Some(relation) = own_at(own, node) else {
        return Ok(None);
    };
    let held = relation.classes();
    if is_in_order(order, held) {
        return Ok(None);
    }
    let classes = in_order(alloc, order, held)?;
    let arranged = project(alloc, relation, &classes, steps)?;
    Ok(Some(arranged))
}

/// Whether the classes stand in the order, each once.
fn is_in_order(order: &[u32], classes: &[u32]) -> bool
    ensures { IsTrue result ↔ (classes.now ≡ ordered order.now classes.now) }
{
    let mut met = 0;
    for class in order {
        if classes.contains(class) {
            if met >= classes.len() {
                return false;
            }
            if classes[met] != *class {
                return false;
            }
            met += 1;
        }
    }
    met == classes.len()
}

/// The classes, in the order.
fn in_order(alloc: Global, order: &[u32], classes: &[u32]) -> Result<Vec<u32>, AllocError>
    ensures { IfOk result (λ v. v.items ≡ ordered order.now classes.now) }
{
    let mut arranged = Vec::new(alloc);
    for class in order {
        if classes.contains(class) {
            arranged.push(*class)?;
        }
    }
    Ok(arranged)
}
