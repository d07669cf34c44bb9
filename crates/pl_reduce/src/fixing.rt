//! The fixed relations of a recipe: in class order, reduced among each other, and keyed.

ghost use Rattle.std.specs.Prelude.{◌≡◌, ◌+◌, ◌<◌, ◌≤◌, ◌↔◌, ℕ, [], None, Some, length, slice_index, map};
ghost use Rattle.std.specs.Prelude.{All, Contains, IfOk, IfSome, OnOk};
ghost use Rattle.pl_join.specs.Relation.{AreDistinct};
ghost use Rattle.pl_hyper.specs.ClassOrder.{class_order, IsClass};
ghost use Rattle.pl_reduce.specs.PlanNodes.{AreParentNodes};
ghost use Rattle.pl_reduce.specs.Recipes.{option_at, AreFixed};
ghost use Rattle.pl_reduce.specs.Lent.{keyed_at, lent_of};
ghost use Rattle.pl_reduce.specs.Passes.{Remains};
ghost use Rattle.pl_reduce.specs.Fixing.{AreLentOf, AreTurnedOf, IsTurnedOf, IsFixedBy, IsPairReduction};
ghost use Rattle.pl_reduce.specs.Fixing.{AreFixedFrom};
ghost use Rattle.pl_reduce.specs.Fixing.{AreFixedPairs, IsKeyedOf, AreKeyedOf};
ghost use Rattle.pl_reduce.specs.Handed.{handed_in};

use crate::fitting::order_of;
use crate::handed::{arrange_fixed, no_origins, put};
use crate::pairs::own_at;
use crate::storing::key;
use pl_hyper::{Ear, EarPlan};
use pl_join::{Keyed, Relation, reduction};
use pl_steps::Steps;
use std::alloc::{AllocError, Global};
use std::sync::ledger::Ledger;

/// The fixed relations, keyed by the classes that a node shares with its ear's parent, and without the rows
/// that agree with no row of a fixed neighbour; and the origins, which are the given relations that are not
/// the same.
pub fn fix_all<L: Ledger>(
    alloc: Global,
    plan: &EarPlan,
    fixed: Vec<Option<Relation>>,
    classes: &[u32],
    parents: &[usize],
    steps: &mut Steps<L>,
) -> Result<(Vec<Option<Keyed>>, Vec<Option<Relation>>), AllocError>
    requires fixed { AreFixed plan.now fixed.items }
    requires order { classes.now ≡ class_order plan.now }
    requires distinct { AreDistinct classes.now }
    requires classes { (c : ℕ) → Contains classes.now c ↔ IsClass plan.now.edges c }
    requires parents { AreParentNodes plan.now parents.now }
    ensures lent { IfOk result (λ r. AreLentOf plan.now fixed.items r.0.items) }
    ensures pairs { IfOk result (λ r. AreFixedPairs parents.now (map lent_of r.0.items)) }
    ensures handed { IfOk result (λ r. handed_in r.1.items (map lent_of r.0.items) ≡ fixed.items) }
    ensures rise { steps.old ≤ steps.new }
{
    let ears = plan.removed();
    let mut nodes = fixed;
    let mut origins = no_origins(alloc, nodes.len())?;
    arrange_fixed(alloc, &mut nodes, &mut origins, classes, steps)?;
    reduce_fixed(alloc, &mut nodes, &mut origins, parents, steps)?;
    let lent = key_all(alloc, nodes, plan.edges(), ears, steps)?;
    Ok((lent, origins))
}

/// Reduces the relations of neighbours by each other: from the removed ears to the root, and back.
fn reduce_fixed<L: Ledger>(
    alloc: Global,
    nodes: &mut Vec<Option<Relation>>,
    origins: &mut Vec<Option<Relation>>,
    parents: &[usize],
    steps: &mut Steps<L>,
) -> Result<(), AllocError>
    requires filled { 0 < length nodes.old.items }
    requires origins { length origins.old.items ≡ length nodes.old.items }
    requires many { length parents.now ≡ length nodes.old.items }
    requires within { (i : ℕ) → 0 < i → i < length parents.now
        → slice_index parents.now i < length nodes.old.items }
    requires remain { (i : ℕ) → 0 < i → i < length parents.now → Remains i (slice_index parents.now i) }
    ensures fixed { OnOk result (AreFixedFrom nodes.old.items nodes.new.items) }
    ensures pairs { OnOk result (AreFixedPairs parents.now nodes.new.items) }
    ensures handed { OnOk result
        (handed_in origins.new.items nodes.new.items ≡ handed_in origins.old.items nodes.old.items) }
    ensures rise { steps.old ≤ steps.new }
{
    let last = nodes.len() - 1;
    for before in 0..last {
        let node = before + 1;
        reduce_pair(alloc, nodes, origins, parents[node], node, steps)?;
    }
    for done in 0..last {
        let node = last - done;
        reduce_pair(alloc, nodes, origins, node, parents[node], steps)?;
    }
    Ok(())
}

/// Reduces the relation of a node by that of another, where both have one.
fn reduce_pair<L: Ledger>(
    alloc: Global,
    nodes: &mut Vec<Option<Relation>>,
    origins: &mut Vec<Option<Relation>>,
    keep: usize,
    by: usize,
    steps: &mut Steps<L>,
) -> Result<(), AllocError>
    requires keep { keep < length nodes.old.items }
    requires by { by < length nodes.old.items }
    requires origins { length origins.old.items ≡ length nodes.old.items }
    ensures reduced { OnOk result (IsFixedBy nodes.old.items nodes.new.items keep by) }
    ensures many { length nodes.new.items ≡ length nodes.old.items }
    ensures origins { length origins.new.items ≡ length origins.old.items }
    ensures handed { handed_in origins.new.items nodes.new.items
        ≡ handed_in origins.old.items nodes.old.items }
    ensures rise { steps.old ≤ steps.new }
{
    if let Some(kept) = pair_reduction(alloc, nodes, keep, by, steps)? {
        put(nodes, origins, keep, kept);
    }
    Ok(())
}

/// The semijoin of the relation of a node by that of another, where both have one and a row is lost.
fn pair_reduction<L: Ledger>(
    alloc: Global,
    nodes: &[Option<Relation>],
    keep: usize,
    by: usize,
    steps: &mut Steps<L>,
) -> Result<Option<Relation>, AllocError>
    requires keep { keep < length nodes.now }
    requires by { by < length nodes.now }
    ensures reduced { IfOk result (IsPairReduction (option_at nodes.now keep) (option_at nodes.now by)) }
    ensures rise { steps.old ≤ steps.new }
{
    let Some(kept) = own_at(nodes, keep) else {
        return Ok(None);
    };
    let Some(by) = own_at(nodes, by) else {
        return Ok(None);
    };
    reduction(alloc, kept, by, steps)
}

/// The relations, each keyed by the classes that its node shares with its ear's parent.
fn key_all<L: Ledger>(
    alloc: Global,
    nodes: Vec<Option<Relation>>,
    edges: &[u64],
    ears: &[Ear],
    steps: &mut Steps<L>,
) -> Result<Vec<Option<Keyed>>, AllocError>
    requires few { length nodes.items ≤ length ears.now + 1 }
    requires parents { All (λ ear. ear.parent < length edges.now) ears.now }
    ensures keyed { IfOk result (λ lent. AreKeyedOf
        (record { edges = edges.now; removed = ears.now; core = [] })
        nodes.items lent.items) }
    ensures rise { steps.old ≤ steps.new }
{
    let mut lent = Vec::with_capacity(alloc, nodes.len())?;
    for relation in nodes {
        let keyed = key_some(alloc, relation, lent.len(), edges, ears, steps)?;
        lent.push(keyed)?;
    }
    Ok(lent)
}

/// The relation of a node, keyed, if there is one.
fn key_some<L: Ledger>(
    alloc: Global,
    relation: Option<Relation>,
    node: usize,
    edges: &[u64],
    ears: &[Ear],
    steps: &mut Steps<L>,
) -> Result<Option<Keyed>, AllocError>
    requires within { node ≤ length ears.now }
    requires parents { All (λ ear. ear.parent < length edges.now) ears.now }
    ensures keyed { IfOk result (λ k. IsKeyedOf (record { edges = edges.now; removed = ears.now; core = [] })
        node relation k) }
    ensures rise { steps.old ≤ steps.new }
{
    match relation {
        Some(relation) => {
            let keyed = key(alloc, relation, node, edges, ears, steps)?;
            Ok(Some(keyed.lasting(alloc)?))
        }
        None => Ok(None),
    }
}

/// For each node that may lose rows before its parent does, and whose parent has a fixed relation: that
/// relation, keyed by the classes that the two share.
pub fn turn_all<L: Ledger>(
    alloc: Global,
    plan: &EarPlan,
    lent: &[Option<Keyed>],
    parents: &[usize],
    steps: &mut Steps<L>,
) -> Result<Vec<Option<Keyed>>, AllocError>
    ensures turned { IfOk result (λ turned. AreTurnedOf parents.now lent.now turned.items) }
    ensures rise { steps.old ≤ steps.new }
{
    let ears = plan.removed();
    let edges = plan.edges();
    let moves = moving_nodes(alloc, lent, parents)?;
    let mut turned = Vec::with_capacity(alloc, parents.len())?;
    for node in 0..parents.len() {
        let keyed = turn(
            alloc,
            edges,
            ears,
            lent,
            parents[node],
            node,
            moves[node],
            steps,
        )?;
        turned.push(keyed)?;
    }
    Ok(turned)
}

/// The lent relation of a node's parent, keyed by the classes that the node's edge has.
fn turn<L: Ledger>(
    alloc: Global,
    edges: &[u64],
    ears: &[Ear],
    lent: &[Option<Keyed>],
    parent: usize,
    node: usize,
    moves: bool,
    steps: &mut Steps<L>,
) -> Result<Option<Keyed>, AllocError>
    requires edges { All (λ ear. ear.edge < length edges.now) ears.now }
    ensures turned { IfOk result (λ t. IsTurnedOf (keyed_at lent.now parent) t) }
    ensures rise { steps.old ≤ steps.new }
{
    if node == 0 || node > ears.len() || !moves {
        return Ok(None);
    }
    let Some(whole) = keyed(lent, parent) else {
        return Ok(None);
    };
    let edge = edges[ears[node - 1].edge as usize];
    let key = order_of(alloc, whole.classes(), edge)?;
    let relation = whole.copied(alloc)?;
    let keyed = Keyed::by(alloc, &relation, &key, steps)?;
    Ok(Some(keyed.lasting(alloc)?))
}

/// For each node whether it may lose rows before its parent does: nothing is fixed there, or at a node below
/// it.
fn moving_nodes(
    alloc: Global,
    lent: &[Option<Keyed>],
    parents: &[usize],
) -> Result<Vec<bool>, AllocError>
    ensures { IfOk result (λ moves. length moves.items ≡ length parents.now) }
{
    let mut moves = vec![in alloc; false; parents.len()]?;
    for node in 0..parents.len() {
        mark(&mut moves, lent, node, parents[node]);
    }
    Ok(moves)
}

/// Marks a node at which nothing is fixed, and the parent of each marked one.
fn mark(moves: &mut Vec<bool>, lent: &[Option<Keyed>], node: usize, parent: usize)
    requires { node < length moves.old.items }
    ensures { length moves.new.items ≡ length moves.old.items }
{
    if keyed(lent, node).is_none() {
        moves[node] = true;
    }
    if !moves[node] {
        return;
    }
    if parent < moves.len() {
        moves[parent] = true;
    }
}

/// What is lent for a node, if anything is.
fn keyed(lent: &[Option<Keyed>], node: usize) -> Option<&Keyed>
    ensures { IfSome result (λ k. keyed_at lent.now node ≡ Some k.now) }
{
    if node >= lent.len() {
        return None;
    }
    match &lent[node] {
        Some(keyed) => Some(keyed),
        None => None,
    }
}
