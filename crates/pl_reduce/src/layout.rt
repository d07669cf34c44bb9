//! What a walk over a join reads beside the tables: which nodes bring classes, and where the classes stand.

ghost use Rattle.std.specs.Prelude.{◌≡◌, ◌==◌, ◌≤◌, ◌<◌, ℕ, List, length, filter};
ghost use Rattle.std.specs.Prelude.{◌↔◌, All, Contains, IfOk};
ghost use Rattle.std.specs.Int.{bit_at};
ghost use Rattle.pl_join.specs.Relation.{AreDistinct};
ghost use Rattle.pl_hyper.specs.ClassOrder.{class_order, IsClass};
ghost use Rattle.pl_reduce.specs.Nodes.{Node, node_at};
ghost use Rattle.pl_reduce.specs.Plan.{AreColumns};
ghost use Rattle.pl_reduce.specs.Layout.{ArePlaces, IsLayoutFor, IsSeen, number_walked, stops_of};

use crate::fitting::{held_by, order_of};
use crate::storing::width_of;
use pl_hyper::EarPlan;
use std::alloc::{AllocError, Global};
use std::marker::Model;

/// The most classes that a join has.
const MOST_CLASSES: usize = 64;

/// A stop of the walk over the nodes: a node that brings classes.
#[derive(Clone, Copy)]
pub struct Stop {
    /// The number of the node.
    pub node: usize,
    /// How many of its classes were met before it.
    pub width: usize,
    /// How many classes the walk met before it.
    pub from: usize,
}

/// The stops of the walk over a join, and at which place each class stands in class order.
///
/// It is the same for all joins over one plan.
#[derive(Drop)]
pub struct Layout {
    classes: Vec<u32>,
    stops: Vec<Stop>,
    places: Vec<u8>,
}

impl Model for Layout {
    ghost use Rattle.pl_reduce.specs.Layout.{LayoutView};

    ghost Value = { LayoutView };

    ghost view = { λ l. record {
      classes = l.classes.items;
      stops = l.stops.items;
      places = l.places.items;
    } };
}

impl Layout {
    /// The layout of the joins over a plan. It takes no probe.
    ///
    /// The only error is want of memory.
    pub(crate) fn of(alloc: Global, plan: &EarPlan) -> Result<Layout, AllocError>
        ensures layout { IfOk result (IsLayoutFor plan.now) }
        ensures once { IfOk result (λ l. AreDistinct l.classes) }
        ensures below { IfOk result (λ l. All (λ c. c < 64) l.classes) }
        ensures members { IfOk result
            (λ l. (c : ℕ) → Contains l.classes c ↔ IsClass plan.now.edges c) }
    {
        let classes = plan.class_order(alloc)?;
        let stops = lay_stops(alloc, plan, &classes)?;
        let places = lay_places(alloc, &classes)?;
        Ok(Layout {
            classes,
            stops,
            places,
        })
    }

    /// The classes in class order: that in which the walk meets them.
    pub fn classes(&self) -> &[u32]
        ensures { result.now ≡ self.now.classes }
    {
        &self.classes
    }

    /// The stops of the walk: the nodes that bring classes, in the order in which they are walked.
    pub fn stops(&self) -> &[Stop]
        ensures { result.now ≡ self.now.stops }
    {
        &self.stops
    }

    /// At which place each class stands in class order.
    pub fn places(&self) -> &[u8]
        ensures { result.now ≡ self.now.places }
    {
        &self.places
    }
}

/// At which place each class stands.
fn lay_places(alloc: Global, classes: &[u32]) -> Result<Vec<u8>, AllocError>
    requires few { length classes.now ≤ 64 }
    requires below { All (λ c. c < 64) classes.now }
    requires distinct { AreDistinct classes.now }
    ensures { IfOk result (λ places. ArePlaces classes.now places.items) }
{
    let mut places = vec![in alloc; 0; MOST_CLASSES]?;
    for (place, class) in classes.iter().enumerate() {
        places[*class as usize] = place as u8;
    }
    Ok(places)
}

/// The stops of the walk over the nodes of a plan.
fn lay_stops(alloc: Global, plan: &EarPlan, classes: &[u32]) -> Result<Vec<Stop>, AllocError>
    requires order { classes.now ≡ class_order plan.now }
    requires few { length classes.now ≤ 64 }
    requires below { All (λ c. c < 64) classes.now }
    ensures { IfOk result (λ stops. (nodes : List Node) → AreColumns plan.now nodes
        → stops.items ≡ stops_of nodes) }
{
    let ears = plan.removed().len();
    let mut stops = Vec::new(alloc);
    let mut from = 0;
    for step in 0..ears + 1 {
        let seen = seen_at(alloc, plan, classes, step)?;
        if seen.width < seen.arity {
            stops.push(Stop {
                node: seen.node,
                width: seen.width,
                from,
            })?;
            from += seen.arity - seen.width;
        }
    }
    Ok(stops)
}

/// A node of the walk: its number, how many of its classes were met before it, and how many it has.
#[derive(Clone, Copy)]
struct Seen {
    node: usize,
    width: usize,
    arity: usize,
}

/// The node that is walked at a step.
fn seen_at(alloc: Global, plan: &EarPlan, classes: &[u32], step: usize) -> Result<Seen, AllocError>
    requires within { step ≤ length plan.now.removed }
    requires order { classes.now ≡ class_order plan.now }
    requires few { length classes.now ≤ 64 }
    requires below { All (λ c. c < 64) classes.now }
    ensures { IfOk result (λ seen. (nodes : List Node) → AreColumns plan.now nodes
        → IsSeen nodes step seen.node seen.width seen.arity) }
{
    let ears = plan.removed();
    let node = walked_at(ears.len() + 1, step);
    let held = order_of(alloc, classes, node_set(plan, node))?;
    let width = width_of(plan.edges(), ears, node, &held);
    Ok(Seen {
        node,
        width: width as usize,
        arity: held.len(),
    })
}

/// The number of the node that is walked at a step: the root first, then the others from the last to the
/// first.
fn walked_at(nodes: usize, step: usize) -> usize
    requires { step < nodes }
    ensures within { result < nodes }
    ensures walked { result ≡ number_walked nodes step }
{
    if step == 0 {
        return 0;
    }
    nodes - step
}

/// The classes of a node as a set: those of the core's edges for the root, and else those of an ear's edge.
fn node_set(plan: &EarPlan, node: usize) -> u64
    requires { node ≤ length plan.now.removed }
    ensures { (nodes : List Node) → AreColumns plan.now nodes →
        filter (λ c. bit_at result c == 1) (class_order plan.now) ≡ (node_at nodes node).relation.classes }
{
    let edges = plan.edges();
    if node == 0 {
        return held_by(edges, plan.core());
    }
    let ear = plan.removed()[node - 1];
    edges[ear.edge as usize]
}
