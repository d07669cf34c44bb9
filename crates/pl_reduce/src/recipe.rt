//! A join with fixed relations: what callers read and make.

ghost use Rattle.std.specs.Prelude.{◌≡◌, ◌↔◌, ◌<◌, ◌≤◌, IfOk, IsTrue, length, is_some};
ghost use Rattle.pl_hyper.specs.ClassOrder.{class_order};
ghost use Rattle.pl_reduce.specs.Recipes.{option_at, AreFixed, AreForOthers};

use crate::fixing::{fix_all, turn_all};
use crate::layout::Layout;
use crate::planned::planned;
use pl_hyper::{Ear, EarPlan};
use pl_join::{Keyed, Relation};
use pl_steps::Steps;
use std::alloc::{AllocError, Global};
use std::marker::Model;
use std::sync::ledger::Ledger;

/// A join some of whose relations are fixed: these are arranged, reduced among each other and keyed once.
///
/// A reduction with it (`Reduced::reduce_with`) takes relations for the other nodes alone, and looks rows up
/// in the fixed ones. Node 0 is the root, and node `i + 1` is the `i`-th removed ear. A relation that was
/// handed in is kept beside the lent one only where the two are not the same.
#[derive(Drop)]
pub struct Recipe {
    edges: Vec<u64>,
    ears: Vec<Ear>,
    core: Vec<u32>,
    origins: Vec<Option<Relation>>,
    layout: Layout,
    parents: Vec<usize>,
    lent: Vec<Option<Keyed>>,
    turned: Vec<Option<Keyed>>,
}

impl Model for Recipe {
    ghost use Rattle.std.specs.Prelude.{map};
    ghost use Rattle.pl_reduce.specs.Recipes.{FixedJoin};
    ghost use Rattle.pl_reduce.specs.Layout.{IsLayoutFor};
    ghost use Rattle.pl_reduce.specs.Lent.{lent_of};
    ghost use Rattle.pl_reduce.specs.Handed.{handed_in};
    ghost use Rattle.pl_reduce.specs.Fixing.{IsRecipe};

    ghost Value = { FixedJoin };

    ghost view = { λ r. record {
      plan = record { edges = r.edges.items; removed = r.ears.items; core = r.core.items };
      fixed = handed_in r.origins.items (map lent_of r.lent.items);
    } };

    ghost invariant = { λ r. IsRecipe
        (record { edges = r.edges.items; removed = r.ears.items; core = r.core.items })
        (handed_in r.origins.items (map lent_of r.lent.items)) r.layout.classes r.parents.items r.lent.items
        r.turned.items
        × IsLayoutFor (record { edges = r.edges.items; removed = r.ears.items; core = r.core.items })
        r.layout };
}

impl Recipe {
    ghost use Rattle.pl_reduce.specs.Layout.{IsLayoutFor};
    ghost use Rattle.pl_reduce.specs.Fixing.{IsRecipe};

    /// The recipe of a plan, with the relations that are fixed for some of its nodes.
    ///
    /// The only error is want of memory.
    pub fn of<L: Ledger>(
        alloc: Global,
        plan: &EarPlan,
        fixed: Vec<Option<Relation>>,
        steps: &mut Steps<L>,
    ) -> Result<Recipe, AllocError>
        requires { AreFixed plan.now fixed.items }
        ensures recipe { IfOk result (λ r. r ≡ record { plan = plan.now; fixed = fixed.items }) }
        ensures rise { steps.old ≤ steps.new }
    {
        let (layout, parents) = planned(alloc, plan)?;
        let (lent, origins) = fix_all(alloc, plan, fixed, layout.classes(), &parents, steps)?;
        let turned = turn_all(alloc, plan, &lent, &parents, steps)?;
        let edges = Vec::from_slice(alloc, plan.edges())?;
        let ears = Vec::from_slice(alloc, plan.removed())?;
        let core = Vec::from_slice(alloc, plan.core())?;
        Ok(Recipe {
            edges,
            ears,
            core,
            origins,
            layout,
            parents,
            lent,
            turned,
        })
    }

    /// How many nodes there are: one for the root, and one for each removed ear.
    pub fn nodes(&self) -> usize
        ensures nodes { result ≡ length self.now.fixed }
        ensures fixed { AreFixed self.now.plan self.now.fixed }
    {
        self.lent.len()
    }

    /// Whether a relation is fixed for the node.
    pub fn is_fixed(&self, node: usize) -> bool
        requires { node < length self.now.fixed }
        ensures { result ≡ is_some (option_at self.now.fixed node) }
    {
        self.lent[node].is_some()
    }

    /// Whether a relation is given for just those nodes that have no fixed one, as `Reduced::reduce_with`
    /// wants it.
    pub fn lacks(&self, given: &[Option<Relation>]) -> bool
        ensures { IsTrue result ↔ AreForOthers self.now.fixed given.now }
    {
        if given.len() != self.nodes() {
            return false;
        }
        for node in 0..given.len() {
            if given[node].is_some() != !self.is_fixed(node) {
                return false;
            }
        }
        true
    }

    /// The classes in class order: that in which the walk over the nodes meets them.
    pub fn classes(&self) -> &[u32]
        ensures { result.now ≡ class_order self.now.plan }
    {
        self.layout.classes()
    }

    /// What a reduction with it reads.
    pub(crate) fn shape(&self) -> Shape<'_>
        ensures recipe { IsRecipe self.now.plan self.now.fixed result.classes.now result.parents.now
            result.lent.now result.turned.now }
        ensures edges { result.edges.now ≡ self.now.plan.edges }
        ensures ears { result.ears.now ≡ self.now.plan.removed }
        ensures layout { IsLayoutFor self.now.plan result.layout.now }
        ensures classes { result.classes.now ≡ result.layout.now.classes }
    {
        Shape {
            edges: &self.edges,
            ears: &self.ears,
            layout: &self.layout,
            classes: self.layout.classes(),
            parents: &self.parents,
            lent: &self.lent,
            turned: &self.turned,
        }
    }
}

/// The parts of a recipe that a reduction with it reads.
#[derive(Clone, Copy)]
pub struct Shape<'r> {
    pub edges: &'r [u64],
    pub ears: &'r [Ear],
    pub layout: &'r Layout,
    pub classes: &'r [u32],
    pub parents: &'r [usize],
    pub lent: &'r [Option<Keyed>],
    pub turned: &'r [Option<Keyed>],
}
