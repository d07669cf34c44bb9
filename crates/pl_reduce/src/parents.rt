//! The parents of the nodes: which node an ear's parent is.

ghost use Rattle.std.specs.Prelude.{◌≡◌, ◌<◌, ℕ, length, slice_index, IfOk};
ghost use Rattle.pl_reduce.specs.PlanNodes.{IsNodeOf, AreParentNodes};

use pl_hyper::EarPlan;
use std::alloc::{AllocError, Global};

/// For each node but the root, the node of its ear's parent; the root is its own.
///
/// The parent of an ear is removed later or stays in the core, whose node is the root. The time is linear in
/// the edges.
pub fn parent_nodes(alloc: Global, plan: &EarPlan) -> Result<Vec<usize>, AllocError>
    ensures { IfOk result (λ parents. AreParentNodes plan.now parents.items) }
{
    let node_of = edge_nodes(alloc, plan)?;
    let ears = plan.removed();
    let mut parents = Vec::with_capacity(alloc, ears.len() + 1)?;
    parents.push(0)?;
    for ear in ears {
        parents.push(node_of[ear.parent as usize])?;
    }
    Ok(parents)
}

/// For each edge the node that it belongs to: that of its ear, or the root where it stayed.
fn edge_nodes(alloc: Global, plan: &EarPlan) -> Result<Vec<usize>, AllocError>
    ensures length { IfOk result (λ nodes. length nodes.items ≡ length plan.now.edges) }
    ensures nodes { IfOk result (λ nodes. (edge : ℕ) → edge < length plan.now.edges
        → IsNodeOf plan.now edge (slice_index nodes.items edge)) }
{
    let mut nodes = vec![in alloc; 0; plan.edges().len()]?;
    for (i, ear) in plan.removed().iter().enumerate() {
        nodes[ear.edge as usize] = i + 1;
    }
    Ok(nodes)
}
