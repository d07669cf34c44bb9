//! Laws of rows, each the contract of a function that does nothing.

ghost use Rattle.std.specs.Prelude.{◌≡◌, List, ℕ};
ghost use Rattle.pl_rows.specs.Rows.{IsAscending, SameRows};

/// A set of rows has one ascending list: two ascending lists with the same rows are equal.
///
/// So two tables with the same set of rows are the same, however they were made.
pub fn one_list_for_a_set()
    ensures { (rows others : List (List ℕ)) →
        IsAscending rows → IsAscending others → SameRows rows others → rows ≡ others }
{}
