//! What all reductions over a plan read of it: the layout of the walk, and the parents of the nodes.

ghost use Rattle.std.specs.Prelude.{◌<◌, ◌^◌, ℕ, slice_index, IfOk};
ghost use Rattle.pl_reduce.specs.Fixing.{IsPlan};
ghost use Rattle.pl_reduce.specs.Layout.{IsLayoutFor};

use crate::layout::Layout;
use crate::parents::parent_nodes;
use pl_hyper::EarPlan;
use pl_hyper::laws::plan_is_a_removal;
use std::alloc::{AllocError, Global};

/// The layout of the joins over a plan, and for each node that of its ear's parent.
pub fn planned(alloc: Global, plan: &EarPlan) -> Result<(Layout, Vec<usize>), AllocError>
    ensures plan { IfOk result (λ r. IsPlan plan.now r.0.classes r.1.items) }
    ensures layout { IfOk result (λ r. IsLayoutFor plan.now r.0) }
{
    edges_are_words(plan.edges());
    plan_is_a_removal(plan);
    let layout = Layout::of(alloc, plan)?;
    let parents = parent_nodes(alloc, plan)?;
    Ok((layout, parents))
}

/// A law: an edge has no class beyond the bits of its number.
fn edges_are_words(edges: &[u64])
    ensures { (e : ℕ) → slice_index edges.now e < 2 ^ 64 }
{}
