//! A reduced join: what callers read.

ghost use Rattle.std.specs.Prelude.{◌≡◌, ◌<◌, ◌≤◌, ℕ, [], length, map, All, Some, IsTrue, slice_get, ◌↔◌};
ghost use Rattle.pl_rows.specs.Rows.{AreRows};
ghost use Rattle.pl_reduce.specs.Nodes.{Node};
ghost use Rattle.pl_reduce.specs.Reduced.{IsReduced};
ghost use Rattle.pl_reduce.specs.Kept.{keyed_of, layout_of};

use crate::layout::Layout;
use pl_join::Keyed;
use pl_rows::{Indexed, Table};
use std::marker::Model;

/// The table of a node, with an index of its key: the join's own, or lent by a recipe.
#[derive(Drop)]
pub enum Stored<'r> {
    Own(Keyed),
    Lent(&'r Keyed),
}

/// The layout of a join: its own, or lent by a recipe.
#[derive(Drop)]
pub enum StoredLayout<'r> {
    Own(Layout),
    Lent(&'r Layout),
}

/// The tables of a join after its full reduction: no table has a row that is in no answer of the join.
///
/// Node 0 is the root, and node `i + 1` is the `i`-th removed ear. The columns of each table stand in class
/// order. A recipe lends its layout, and each fixed relation that lost no row.
#[derive(Drop)]
pub struct Reduced<'r> {
    layout: StoredLayout<'r>,
    nodes: Vec<Stored<'r>>,
}

impl<'r> Model for Reduced<'r> {
    ghost use Rattle.std.specs.Prelude.{map};
    ghost use Rattle.pl_reduce.specs.Nodes.{ReducedJoin};

    ghost Value = { ReducedJoin };

    ghost use Rattle.pl_reduce.specs.Kept.{node_of, layout_of, IsKept};

    ghost view = { λ r. record {
      classes = (layout_of r.layout).classes;
      nodes = map node_of r.nodes.items;
    } };

    ghost invariant = { λ r. IsKept (layout_of r.layout) r.nodes.items };
}

impl<'r> Reduced<'r> {
    ghost use Rattle.pl_join.specs.Relation.{Assignment};
    ghost use Rattle.pl_reduce.specs.Nodes.{node_at, table_of, indexed_of};
    ghost use Rattle.pl_reduce.specs.Reduced.{IsReduced, KeysAreHeldBefore, FrontsAreProjections, JoinHolds};
    ghost use Rattle.pl_reduce.specs.Layout.{IsLayoutOf};
    ghost use Rattle.pl_reduce.specs.Kept.{node_of, layout_of, IsKept};

    /// The reduced join of this layout and these nodes.
    pub(crate) fn new(layout: StoredLayout<'r>, nodes: Vec<Stored<'r>>) -> Reduced<'r>
        requires { IsKept (layout_of layout) nodes.items }
        ensures { result ≡ record
            { classes = (layout_of layout.entry).classes; nodes = map node_of nodes.entry.items } }
    {
        Reduced { layout, nodes }
    }

    /// How many nodes there are: one for the root, and one for each removed ear.
    pub fn nodes(&self) -> usize
        ensures nodes { result ≡ length self.now.nodes }
        ensures reduced { IsReduced self.now }
        ensures keys { KeysAreHeldBefore self.now }
        ensures fronts { FrontsAreProjections self.now }
    {
        self.nodes.len()
    }

    /// The classes in class order: that in which the walk over the nodes meets them.
    pub fn classes(&self) -> &[u32]
        ensures { result.now ≡ self.now.classes }
    {
        layout_of(&self.layout).classes()
    }

    /// Where a walk over the nodes stops, and at which place each class stands.
    pub fn layout(&self) -> &Layout
        ensures { IsLayoutOf self.now result.now }
    {
        layout_of(&self.layout)
    }

    /// The table of a node: one column for each of `node_classes`.
    pub fn table(&self, node: usize) -> &Table
        requires { node < length self.now.nodes }
        ensures { result.now ≡ table_of (node_at self.now.nodes node) }
    {
        keyed(&self.nodes[node]).table()
    }

    /// The classes of a node in class order, one for each column of its table.
    pub fn node_classes(&self, node: usize) -> &[u32]
        requires { node < length self.now.nodes }
        ensures { result.now ≡ (node_at self.now.nodes node).relation.classes }
    {
        keyed(&self.nodes[node]).classes()
    }

    /// The table of a node, which is looked up by the values of the classes that a node walked before it
    /// holds. These classes are the first columns of the table, and their number is the index's width.
    pub fn indexed(&self, node: usize) -> &Indexed
        requires { node < length self.now.nodes }
        ensures { result.now ≡ indexed_of (node_at self.now.nodes node) }
    {
        keyed(&self.nodes[node]).indexed()
    }

    /// Whether the join is empty. Then every table is.
    pub fn is_empty(&self) -> bool
        ensures empty { IsTrue result ↔ ((f : Assignment) → JoinHolds self.now f → ⊥) }
        ensures tables { IsTrue result → All (λ node. node.relation.rows ≡ []) self.now.nodes }
    {
        keyed(&self.nodes[0]).table().is_empty()
    }
}

/// The layout of a join.
fn layout_of<'a>(layout: &'a StoredLayout<'_>) -> &'a Layout
    ensures { result.now ≡ layout_of layout.now }
{
    match layout {
        StoredLayout::Own(layout) => layout,
        StoredLayout::Lent(layout) => layout,
    }
}

/// The table of a stored node.
fn keyed<'a>(stored: &'a Stored<'_>) -> &'a Keyed
    ensures { result.now ≡ keyed_of stored.now }
{
    match stored {
        Stored::Own(keyed) => keyed,
        Stored::Lent(keyed) => keyed,
    }
}
