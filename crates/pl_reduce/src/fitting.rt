//! The test whether relations are as the full reducer wants them.

ghost use Rattle.std.specs.Prelude.{◌≡◌, ◌==◌, ◌↔◌, ◌<◌, ◌≤◌, ℕ, Some, length, filter, All, Contains, IfOk};
ghost use Rattle.std.specs.Prelude.{IsTrue};
ghost use Rattle.std.specs.Int.{bit_at};
ghost use Rattle.pl_hyper.specs.declared.ear.Ear.{Ear};
ghost use Rattle.pl_hyper.specs.Edges.{Holds};
ghost use Rattle.pl_hyper.specs.Ears.{ear_at};
ghost use Rattle.pl_hyper.specs.ClassOrder.{IsHeldBy};
ghost use Rattle.pl_reduce.specs.Plan.{relation_at, core_order, AreOverPlan};
ghost use Rattle.pl_reduce.specs.Recipes.{option_at, AreFixed, IsOverEar, IsOverNodeOf};

use crate::pairs::own_at;
use crate::recipe::Recipe;
use crate::reduced::Reduced;
use pl_hyper::EarPlan;
use pl_join::Relation;
use std::alloc::{AllocError, Global};

impl Reduced<'_> {
    /// Whether the relations are as `reduce` wants them: there is an edge, `root` is over the classes of the
    /// core's edges, in class order, and `rest` has one relation for each removed ear, over the classes of
    /// the ear's edge in any order.
    ///
    /// It reads no row, and takes time linear in the edges and in the classes of the relations. The only
    /// error is want of memory.
    pub fn fits(
        alloc: Global,
        root: &Relation,
        rest: &[Relation],
        plan: &EarPlan,
    ) -> Result<bool, AllocError>
        ensures { IfOk result (λ yes. IsTrue yes ↔ AreOverPlan plan.now root.now rest.now) }
    {
        if plan.core().is_empty() {
            return Ok(false);
        }
        if !are_over_ears(rest, plan) {
            return Ok(false);
        }
        is_over_core(alloc, root.classes(), plan)
    }
}

impl Recipe {
    /// Whether the relations are as `of` wants them, and `Reduced::reduce_with`: there is an edge, each node
    /// has a place for its relation, and a relation that is there is over the classes of its node, that of
    /// the root in class order.
    ///
    /// It reads no row. The only error is want of memory.
    pub fn fits(
        alloc: Global,
        plan: &EarPlan,
        relations: &[Option<Relation>],
    ) -> Result<bool, AllocError>
        ensures { IfOk result (λ yes. IsTrue yes ↔ AreFixed plan.now relations.now) }
    {
        if plan.core().is_empty() || relations.len() != plan.removed().len() + 1 {
            return Ok(false);
        }
        for node in 0..relations.len() {
            if !is_over_node_of(alloc, plan, relations, node)? {
                return Ok(false);
            }
        }
        Ok(true)
    }
}

/// Whether the relation of a node, if it has one, is over the classes of the node.
fn is_over_node_of(
    alloc: Global,
    plan: &EarPlan,
    relations: &[Option<Relation>],
    node: usize,
) -> Result<bool, AllocError>
    requires node { node < length relations.now }
    requires few { node ≤ length plan.now.removed }
    ensures { IfOk result (λ yes. IsTrue yes ↔ IsOverNodeOf plan.now node (option_at relations.now node)) }
{
    match own_at(relations, node) {
        None => Ok(true),
        Some(relation) => is_over_node(alloc, plan, relation, node),
    }
}

/// Whether the relation is over the classes of the node, in class order at the root.
fn is_over_node(
    alloc: Global,
    plan: &EarPlan,
    relation: &Relation,
    node: usize,
) -> Result<bool, AllocError>
    requires { node ≤ length plan.now.removed }
    ensures { IfOk result (λ yes. IsTrue yes ↔ IsOverNodeOf plan.now node (Some relation.now)) }
{
    if node == 0 {
        return is_over_core(alloc, relation.classes(), plan);
    }
    Ok(is_over_ear(plan, relation, node - 1))
}

/// Whether the relation is over the classes of the ear's edge.
fn is_over_ear(plan: &EarPlan, relation: &Relation, ear: usize) -> bool
    requires { ear < length plan.now.removed }
    ensures { IsTrue result ↔ IsOverEar plan.now relation.now ear }
{
    is_over(
        relation.classes(),
        plan.edges()[plan.removed()[ear].edge as usize],
    )
}

/// Whether these are the classes of the core's edges, in class order.
fn is_over_core(alloc: Global, classes: &[u32], plan: &EarPlan) -> Result<bool, AllocError>
    ensures { IfOk result (λ yes. IsTrue yes ↔ (classes.now ≡ core_order plan.now)) }
{
    let order = plan.class_order(alloc)?;
    let held = held_by(plan.edges(), plan.core());
    let core = order_of(alloc, &order, held)?;
    Ok(classes == core.as_slice())
}

/// The classes that some of the edges hold, as a set.
pub fn held_by(edges: &[u64], some: &[u32]) -> u64
    requires { All (λ e. e < length edges.now) some.now }
    ensures { (c : ℕ) → (bit_at result c ≡ 1) ↔ IsHeldBy edges.now some.now c }
{
    let mut held = 0;
    for edge in some {
        held |= edges[*edge as usize];
    }
    held
}

/// The classes of a set, in the order.
pub fn order_of(alloc: Global, order: &[u32], set: u64) -> Result<Vec<u32>, AllocError>
    requires { All (λ c. c < 64) order.now }
    ensures { IfOk result (λ v. v.items ≡ filter (λ c. bit_at set c == 1) order.now) }
{
    let mut classes = Vec::new(alloc);
    for class in order {
        if set >> *class & 1 == 1 {
            classes.push(*class)?;
        }
    }
    Ok(classes)
}

/// Whether there is one relation for each removed ear, and it is over the classes of the ear's edge.
fn are_over_ears(rest: &[Relation], plan: &EarPlan) -> bool
    ensures { IsTrue result
        ↔ ((length rest.now ≡ length plan.now.removed)
        × ((i c : ℕ) (d : Ear) → i < length rest.now
        → Contains (relation_at rest.now i).classes c ↔ Holds plan.now.edges (ear_at plan.now i d).edge c)) }
{
    if rest.len() != plan.removed().len() {
        return false;
    }
    for (ear, relation) in rest.iter().enumerate() {
        if !is_over_ear(plan, relation, ear) {
            return false;
        }
    }
    true
}

/// Whether these are the classes of the edge.
fn is_over(classes: &[u32], edge: u64) -> bool
    requires { All (λ c. c < 64) classes.now }
    ensures { IsTrue result ↔ ((c : ℕ) → Contains classes.now c ↔ (bit_at edge c ≡ 1)) }
{
    set_of(classes) == edge
}

/// The classes as a set.
fn set_of(classes: &[u32]) -> u64
    requires { All (λ c. c < 64) classes.now }
    ensures { (c : ℕ) → (bit_at result c ≡ 1) ↔ Contains classes.now c }
{
    let mut set = 0;
    for class in classes {
        set |= 1 << *class;
    }
    set
}
