//! Fixed relations that others take the place of: what was handed in for a node is kept only where one does.

ghost use Rattle.std.specs.Prelude.{◌≡◌, ◌<◌, ◌≤◌, ℕ, None, Some, true, length, is_some, All, Contains};
ghost use Rattle.std.specs.Prelude.{set, IfOk, OnOk};
ghost use Rattle.pl_join.specs.Relation.{ClassRows, AreDistinct};
ghost use Rattle.pl_reduce.specs.Arranged.{IsArrangedAt, AreArrangedBelow};
ghost use Rattle.pl_reduce.specs.Handed.{handed_in};
ghost use Rattle.pl_reduce.specs.Recipes.{option_at};

use crate::arranging::arrangement;
use pl_join::Relation;
use pl_steps::Steps;
use std::alloc::{AllocError, Global};
use std::mem;
use std::sync::ledger::Ledger;

/// No origin for any of the nodes.
pub fn no_origins(alloc: Global, nodes: usize) -> Result<Vec<Option<Relation>>, AllocError>
    ensures many { IfOk result (λ v. length v.items ≡ nodes) }
    ensures none { IfOk result (λ v. (k : ℕ) → option_at v.items k ≡ None) }
{
    let mut origins = Vec::with_capacity(alloc, nodes)?;
    for _node in 0..nodes {
        origins.push(None)?;
    }
    Ok(origins)
}

/// Puts a relation in the place of a node's. That which was handed in for the node becomes its origin.
pub fn put(
    nodes: &mut Vec<Option<Relation>>,
    origins: &mut Vec<Option<Relation>>,
    node: usize,
    relation: Relation,
)
    requires within { node < length nodes.old.items }
    requires many { length origins.old.items ≡ length nodes.old.items }
    requires there { is_some (option_at nodes.old.items node) ≡ true }
    ensures nodes { nodes.new.items ≡ set nodes.old.items node (Some relation) }
    ensures many { length origins.new.items ≡ length origins.old.items }
    ensures handed { handed_in origins.new.items nodes.new.items
        ≡ handed_in origins.old.items nodes.old.items }
{
    let before = mem::replace(&mut nodes[node], Some(relation));
    if origins[node].is_none() {
        origins[node] = before;
    }
}

/// Puts the columns of all relations behind the root's into the order, as `arrange_all` does.
pub fn arrange_fixed<L: Ledger>(
    alloc: Global,
    nodes: &mut Vec<Option<Relation>>,
    origins: &mut Vec<Option<Relation>>,
    order: &[u32],
    steps: &mut Steps<L>,
) -> Result<(), AllocError>
    requires many { length origins.old.items ≡ length nodes.old.items }
    requires distinct { AreDistinct order.now }
    requires held { (k : ℕ) (r : ClassRows) → 0 < k → option_at nodes.old.items k ≡ Some r
        → All (Contains order.now) r.classes }
    ensures arranged { OnOk result
        (AreArrangedBelow order.now nodes.old.items nodes.new.items (length nodes.old.items)) }
    ensures many { OnOk result (length origins.new.items ≡ length nodes.new.items) }
    ensures handed { OnOk result
        (handed_in origins.new.items nodes.new.items ≡ handed_in origins.old.items nodes.old.items) }
    ensures rise { steps.old ≤ steps.new }
{
    for node in 1..nodes.len() {
        arrange_one(alloc, nodes, origins, node, order, steps)?;
    }
    Ok(())
}

/// Puts the columns of one relation into the order.
fn arrange_one<L: Ledger>(
    alloc: Global,
    nodes: &mut Vec<Option<Relation>>,
    origins: &mut Vec<Option<Relation>>,
    node: usize,
    order: &[u32],
    steps: &mut Steps<L>,
) -> Result<(), AllocError>
    requires within { node < length nodes.old.items }
    requires many { length origins.old.items ≡ length nodes.old.items }
    requires distinct { AreDistinct order.now }
    requires held { (r : ClassRows) → option_at nodes.old.items node ≡ Some r
        → All (Contains order.now) r.classes }
    ensures arranged { OnOk result (IsArrangedAt order.now nodes.old.items nodes.new.items node) }
    ensures many { OnOk result (length origins.new.items ≡ length nodes.new.items) }
    ensures handed { OnOk result
        (handed_in origins.new.items nodes.new.items ≡ handed_in origins.old.items nodes.old.items) }
    ensures rise { steps.old ≤ steps.new }
{
    if let Some(arranged) = arrangement(alloc, nodes, node, order, steps)? {
        put(nodes, origins, node, arranged);
    }
    Ok(())
}
