//! The two passes of the full reducer: from the removed ears to the root, and back.

ghost use Rattle.std.specs.Prelude.{◌≡◌, ◌≢◌, ◌+◌, ◌-◌, ◌*◌, ◌<◌, ◌≤◌, [], ℕ, length, IsTrue, IfOk, OnOk};
ghost use Rattle.pl_reduce.specs.Passes.{AreEmptied, AreParents, IsPassedDown, IsReducedBy, rows_at};
ghost use Rattle.pl_reduce.specs.Passes.{total_rows};
ghost use Rattle.pl_reduce.specs.Lent.{node_with, nodes_with, AreThere, AreLent, IsLentPair};

use crate::pairs::{lent_at, node_reduction, own_at, parent_reduction};
use pl_join::{Keyed, Ranges, Relation};
use pl_steps::Steps;
use std::alloc::{AllocError, Global};
use std::sync::ledger::Ledger;

/// Reduces each relation to its part in the join of all.
///
/// The nodes are gone through in the order of their removal, where each reduces its parent, and back, where
/// each is reduced by its parent. After that no row is left that is in no answer. Where a relation has no
/// row, or loses its last one on the way to the root, the join is empty, and no table is read any more.
/// A node without a relation of its own has the lent one, and gets its own where a row is dropped.
pub fn reduce_all<L: Ledger>(
    alloc: Global,
    lent: &[Option<Keyed>],
    turned: &[Option<Keyed>],
    own: &mut Vec<Option<Relation>>,
    parents: &[usize],
    steps: &mut Steps<L>,
) -> Result<(), AllocError>
    requires filled { 0 < length own.old.items }
    requires parents { AreParents parents.now (nodes_with lent.now own.old.items) }
    requires lent { AreLent parents.now lent.now turned.now }
    requires there { AreThere lent.now own.old.items }
    ensures passed { OnOk result
        (IsPassedDown (nodes_with lent.now own.old.items) (nodes_with lent.now own.new.items) 0) }
    ensures there { OnOk result (AreThere lent.now own.new.items) }
    ensures many { length own.new.items ≡ length own.old.items }
    ensures cost { steps.new ≤ steps.old
        + 3 * (length own.old.items - 1) * total_rows (nodes_with lent.now own.old.items) }
    ensures rise { steps.old ≤ steps.new }
{
    if has_empty(lent, own) {
        return empty_all(alloc, lent, own);
    }
    let ranges = &mut Ranges::new(alloc);
    let last = own.len() - 1;
    for before in 0..last {
        let node = before + 1;
        reduce_parent(alloc, lent, turned, own, parents[node], node, ranges, steps)?;
        if is_empty_at(lent, own, parents[node]) {
            return empty_all(alloc, lent, own);
        }
    }
    for done in 0..last {
        let node = last - done;
        reduce_node(alloc, lent, turned, own, parents[node], node, ranges, steps)?;
    }
    Ok(())
}

/// Whether one of the relations has no row.
fn has_empty(lent: &[Option<Keyed>], own: &[Option<Relation>]) -> bool
    requires { AreThere lent.now own.now }
    ensures { IsTrue result
        → (k : ℕ) × (k < length own.now) × ((node_with lent.now own.now k).rows ≡ []) }
{
    for node in 0..own.len() {
        if is_empty_at(lent, own, node) {
            return true;
        }
    }
    false
}

/// Whether the relation of a node has no row.
fn is_empty_at(lent: &[Option<Keyed>], own: &[Option<Relation>], node: usize) -> bool
    requires within { node < length own.now }
    requires there { AreThere lent.now own.now }
    ensures { IsTrue result → (node_with lent.now own.now node).rows ≡ [] }
{
    match own_at(own, node) {
        Some(relation) => relation.table().is_empty(),
        None => lent_at(lent, node).table().is_empty(),
    }
}

/// Takes all rows out of the relations. It takes no probe.
fn empty_all(
    alloc: Global,
    lent: &[Option<Keyed>],
    own: &mut Vec<Option<Relation>>,
) -> Result<(), AllocError>
    requires { AreThere lent.now own.old.items }
    ensures emptied { OnOk result (AreEmptied (nodes_with lent.now own.old.items)
        (nodes_with lent.now own.new.items) (length own.old.items)) }
    ensures there { AreThere lent.now own.new.items }
    ensures many { length own.new.items ≡ length own.old.items }
{
    for node in 0..own.len() {
        let emptied = emptied_at(alloc, lent, own, node)?;
        own[node] = Some(emptied);
    }
    Ok(())
}

/// The relation of a node, without its rows.
fn emptied_at(
    alloc: Global,
    lent: &[Option<Keyed>],
    own: &[Option<Relation>],
    node: usize,
) -> Result<Relation, AllocError>
    requires within { node < length own.now }
    requires there { AreThere lent.now own.now }
    ensures { IfOk result
        (λ r. r ≡ record { classes = (node_with lent.now own.now node).classes; rows = [] }) }
{
    match own_at(own, node) {
        Some(relation) => relation.emptied(alloc),
        None => lent_at(lent, node).emptied(alloc),
    }
}

/// Reduces a parent by a node.
fn reduce_parent<L: Ledger>(
    alloc: Global,
    lent: &[Option<Keyed>],
    turned: &[Option<Keyed>],
    own: &mut Vec<Option<Relation>>,
    parent: usize,
    node: usize,
    ranges: &mut Ranges,
    steps: &mut Steps<L>,
) -> Result<(), AllocError>
    requires parent { parent < length own.old.items }
    requires node { node < length own.old.items }
    requires there { AreThere lent.now own.old.items }
    requires pair { IsLentPair lent.now turned.now parent node }
    ensures reduced { OnOk result
        (IsReducedBy (nodes_with lent.now own.old.items) (nodes_with lent.now own.new.items) parent node) }
    ensures there { AreThere lent.now own.new.items }
    ensures many { length own.new.items ≡ length own.old.items }
    ensures cost { steps.new ≤ steps.old + 2 * rows_at (nodes_with lent.now own.old.items) parent
        + rows_at (nodes_with lent.now own.old.items) node }
    ensures rise { steps.old ≤ steps.new }
{
    if let Some(kept) = parent_reduction(alloc, lent, turned, own, parent, node, ranges, steps)? {
        own[parent] = Some(kept);
    }
    Ok(())
}

/// Reduces a node by its parent.
fn reduce_node<L: Ledger>(
    alloc: Global,
    lent: &[Option<Keyed>],
    turned: &[Option<Keyed>],
    own: &mut Vec<Option<Relation>>,
    parent: usize,
    node: usize,
    ranges: &mut Ranges,
    steps: &mut Steps<L>,
) -> Result<(), AllocError>
    requires parent { parent < length own.old.items }
    requires node { node < length own.old.items }
    requires there { AreThere lent.now own.old.items }
    requires pair { IsLentPair lent.now turned.now parent node }
    ensures reduced { OnOk result
        (IsReducedBy (nodes_with lent.now own.old.items) (nodes_with lent.now own.new.items) node parent) }
    ensures there { AreThere lent.now own.new.items }
    ensures many { length own.new.items ≡ length own.old.items }
    ensures cost { steps.new ≤ steps.old + 2 * rows_at (nodes_with lent.now own.old.items) node
        + rows_at (nodes_with lent.now own.old.items) parent }
    ensures rise { steps.old ≤ steps.new }
{
    if let Some(kept) = node_reduction(alloc, lent, turned, own, parent, node, ranges, steps)? {
        own[node] = Some(kept);
    }
    Ok(())
}
