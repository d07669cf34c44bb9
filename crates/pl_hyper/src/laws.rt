//! Laws of edges and of plans, each the contract of a function that does nothing.

ghost use Rattle.std.specs.Prelude.{◌≡◌, ◌<◌, ◌≤◌, ◌↔◌, ℕ, List, AllPairs, Contains, length};
ghost use Rattle.std.specs.Int.{bit_at};
ghost use Rattle.pl_hyper.specs.ClassOrder.{classes_of};
ghost use Rattle.pl_hyper.specs.Ears.{IsRemoval, IsWalkable};
ghost use Rattle.pl_hyper.specs.JoinTree.{IsAcyclic};

use crate::plan::EarPlan;

/// A set of classes has one rising list: rising classes that are just those of an edge are `classes_of` it.
pub fn one_rising_list_for_an_edge()
    ensures { (edge : ℕ) (classes : List ℕ) → AllPairs (λ a b. a < b) classes
        → ((c : ℕ) → Contains classes c ↔ ((c < 64) × (bit_at edge c ≡ 1))) → classes ≡ classes_of edge }
{}

/// What is known of every plan: it is the removal of its ears, and a walk can go over them.
pub fn plan_is_a_removal(plan: &EarPlan)
    ensures removal { IsRemoval plan.now }
    ensures walkable { IsWalkable plan.now }
{
    let _ = plan.removed();
}

/// The hypergraph of a plan is acyclic exactly where at most one of its edges stayed.
pub fn acyclic_plan_keeps_one_edge(plan: &EarPlan)
    ensures { IsAcyclic plan.now.edges ↔ (length plan.now.core ≤ 1) }
{
    let _ = plan.is_acyclic();
}
