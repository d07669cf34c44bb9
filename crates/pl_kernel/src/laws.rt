//! Laws of core tables, each the contract of a function that does nothing.

ghost use Rattle.std.specs.Prelude.{◌≡◌, ◌↔◌, ◌<◌, ◌∷◌, [], ℕ, List, length, slice_index, slice_index_or};
ghost use Rattle.std.specs.Prelude.{Contains};
ghost use Rattle.std.specs.List.{flat_map};
ghost use Rattle.pl_hyper.specs.Edges.{Holds};
ghost use Rattle.pl_hyper.specs.ClassOrder.{classes_of, first_appearances};
ghost use Rattle.pl_join.specs.Relation.{ClassRows, IsJoinOfAll};
ghost use Rattle.pl_kernel.specs.ClassesByAppearance.{classes_by_appearance};

/// The classes of the relations of some edges, by first appearance, are those in the order in which a walk
/// over the edges meets them: so a core table is over the front of the class order that the walk over the
/// core gives.
pub fn core_classes_are_in_class_order()
    ensures { (edges core : List ℕ) (relations : List ClassRows) → length relations ≡ length core
        → ((i c : ℕ) (d : ClassRows) → i < length core → Contains (slice_index_or relations i d).classes c
        ↔ ((c < 64) × Holds edges (slice_index core i) c))
        → classes_by_appearance relations ≡ first_appearances
        (flat_map (λ e. classes_of (slice_index edges e)) core) }
{}

/// The join of one relation is that relation.
pub fn one_relation_is_its_join()
    ensures { (relation : ClassRows) → IsJoinOfAll (relation ∷ []) relation }
{}
