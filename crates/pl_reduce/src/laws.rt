//! Laws of plans, of the relations over them and of reduced joins, each the contract of a function that does
//! nothing.

ghost use Rattle.std.specs.Prelude.{◌≡◌, ◌↔◌, ◌<◌, ◌∷◌, [], ℕ, List, length, take, map, slice_index};
ghost use Rattle.pl_hyper.specs.declared.ear.Ear.{Ear};
ghost use Rattle.pl_hyper.specs.Ears.{Removal, IsWalkable, ear_at};
ghost use Rattle.pl_hyper.specs.ClassOrder.{classes_of, class_order};
ghost use Rattle.pl_join.specs.Relation.{ClassRows, Assignment, Holds, HoldsAll, IsJoinOfAll};
ghost use Rattle.pl_reduce.specs.Plan.{core_order, relation_at};
ghost use Rattle.pl_reduce.specs.Reduced.{IsReduced};

use crate::reduced::Reduced;

/// The class order of a core of one edge is the order of that edge: its classes, rising.
pub fn one_edge_has_its_own_order()
    ensures { (plan : Removal) (edge : ℕ) → plan.core ≡ edge ∷ []
        → core_order plan ≡ classes_of (slice_index plan.edges edge) }
{}

/// The classes of the core are the front of the class order.
pub fn core_order_is_a_front()
    ensures { (plan : Removal) → take (length (core_order plan)) (class_order plan) ≡ core_order plan }
{}

/// Where the root is the join of the relations of the core's edges, and each of the rest holds what the
/// relation of its ear's edge holds, the join of the root and the rest is the join of the relations of all
/// edges.
pub fn join_of_all_edges()
    ensures { (plan : Removal) (relations rest : List ClassRows) (root : ClassRows) → IsWalkable plan
        → length relations ≡ length plan.edges
        → IsJoinOfAll (map (relation_at relations) plan.core) root
        → length rest ≡ length plan.removed
        → ((i : ℕ) (d : Ear) (f : Assignment) → i < length rest
        → Holds (relation_at rest i) f ↔ Holds (relation_at relations (ear_at plan i d).edge) f)
        → (f : Assignment) → HoldsAll (root ∷ rest) f ↔ HoldsAll relations f }
{}

/// What is known of every reduced join: no row of its tables dangles.
pub fn reduced_is_whole(reduced: &Reduced<'_>)
    ensures { IsReduced reduced.now }
{
    let _ = reduced.nodes();
}
