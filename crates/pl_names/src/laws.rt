//! What follows from the definitions, as contracts of functions without effect.

ghost use Rattle.std.specs.Prelude.{◌≡◌, ◌<◌, ◌↔◌, ℕ, List, [], Some, Contains, length, slice_index_or};
ghost use Rattle.pl_names.specs.Names.{number_among, first_appearances};

/// The first appearances are just the names of the list.
pub fn first_appearances_are_the_names()
    ensures { (names : List (List ℕ)) (name : List ℕ) → Contains (first_appearances names) name ↔
        Contains names name }
{}

/// Each of the first appearances is there once: its number is its place.
pub fn first_appearances_differ()
    ensures { (names : List (List ℕ)) (place : ℕ) → place < length (first_appearances names) →
        number_among (first_appearances names) (slice_index_or (first_appearances names) place []) ≡ Some
        place }
{}
