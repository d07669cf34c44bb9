//! The plan of ears: what the removal made of a hypergraph.

ghost use Rattle.std.specs.Prelude.{◌≡◌, ◌≢◌, ◌↔◌, ◌≤◌, ◌<◌, ◌∷◌, ℕ, [], length};
ghost use Rattle.std.specs.Prelude.{All, AllPairs, Contains, IfOk, IsTrue};
ghost use Rattle.pl_hyper.specs.JoinTree.{IsAcyclic, IsJoinTree};

use crate::ear::Ear;
use crate::order::order_of_classes;
use std::alloc::{AllocError, Global};
use std::marker::Model;

/// A hypergraph with the ears that were removed from it, in order, and the core that is left.
///
/// `ears` makes one. Contracts see it as its edges, the removed ears and the core.
#[derive(Drop, Debug)]
pub struct EarPlan {
    edges: Vec<u64>,
    removed: Vec<Ear>,
    core: Vec<u32>,
}

impl Model for EarPlan {
    ghost use Rattle.pl_hyper.specs.Ears.{Removal, IsRemoval};

    ghost Value = { Removal };

    ghost view = { λ p. record { edges = p.edges.items; removed = p.removed.items; core = p.core.items } };

    ghost invariant = { λ p. IsRemoval
        (record { edges = p.edges.items; removed = p.removed.items; core = p.core.items }) };
}

impl EarPlan {
    ghost use Rattle.pl_hyper.specs.Ears.{IsRemoval, IsWalkable, parent_of};
    ghost use Rattle.pl_hyper.specs.ClassOrder.{class_order, IsClass, BeginsWithWalked};

    /// The plan of a removal that was made.
    pub(crate) fn new(edges: Vec<u64>, removed: Vec<Ear>, core: Vec<u32>) -> EarPlan
        requires { IsRemoval
            (record { edges = edges.items; removed = removed.items; core = core.items }) }
        ensures plan { result ≡ record { edges = edges.items; removed = removed.items; core = core.items } }
        ensures removal { IsRemoval result }
    {
        EarPlan {
            edges,
            removed,
            core,
        }
    }

    /// The edges of which the plan was made, as sets of classes.
    pub fn edges(&self) -> &[u64]
        ensures edges { result.now ≡ self.now.edges }
    {
        self.edges.as_slice()
    }

    /// The removed ears in the order of their removal.
    ///
    /// `IsWalkable` has what a walk over them rests on, in this order or back: the parent of an ear is
    /// removed later or stays, and holds each class that the ear shares with an edge that was left.
    pub fn removed(&self) -> &[Ear]
        ensures removed { result.now ≡ self.now.removed }
        ensures removal { IsRemoval self.now }
        ensures walkable { IsWalkable self.now }
    {
        self.removed.as_slice()
    }

    /// The numbers of the edges that stayed, rising.
    ///
    /// It is empty only where there are no edges, and has one edge at most exactly where the hypergraph is
    /// acyclic.
    pub fn core(&self) -> &[u32]
        ensures core { result.now ≡ self.now.core }
        ensures removal { IsRemoval self.now }
        ensures walkable { IsWalkable self.now }
    {
        self.core.as_slice()
    }

    /// The classes of the edges, each once, in the order in which they are met by a walk over the core's
    /// edges by rising number and then over the removed edges, the last removed first. Within an edge they
    /// are met by rising number.
    ///
    /// So the classes of the edges that were walked up to any point are a front of the order.
    pub fn class_order(&self, alloc: Global) -> Result<Vec<u32>, AllocError>
        ensures order { IfOk result (λ v. v.items ≡ class_order self.now) }
        ensures once { IfOk result (λ v. AllPairs (λ a b. a ≢ b) v.items) }
        ensures classes { IfOk result
            (λ v. (class : ℕ) → Contains v.items class ↔ IsClass self.now.edges class) }
        ensures below { IfOk result (λ v. All (λ class. class < 64) v.items) }
        ensures walked { IfOk result (λ v. BeginsWithWalked self.now v.items) }
    {
        let edges = self.edges.as_slice();
        order_of_classes(alloc, edges, self.removed.as_slice(), self.core.as_slice())
    }

    /// Whether the hypergraph is acyclic: it has no edge, or a join tree over its edges exists.
    ///
    /// This is the notion of database theory (Beeri, Fagin, Maier and Yannakakis 1983), under which the
    /// answers of a join are found in time linear in tables and answers (Yannakakis 1981).
    pub fn is_acyclic(&self) -> bool
        ensures acyclic { IsTrue result ↔ IsAcyclic self.now.edges }
        ensures core { IsTrue result ↔ (length self.now.core ≤ 1) }

        // Where one edge stays, the parents of the ears are a join tree with that edge as its root.
        ensures join_tree { (root : ℕ) → self.now.core ≡ root ∷ []
            → IsJoinTree self.now.edges root (parent_of self.now.removed) }
    {
        self.core.len() <= 1
    }
}
