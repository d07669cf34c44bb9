//! Laws of cursors, each the contract of a function that does nothing.

ghost use Rattle.std.specs.Prelude.{◌≡◌, ℕ, Bool, List, true, filter};
ghost use Rattle.pl_reduce.specs.Nodes.{ReducedJoin};
ghost use Rattle.pl_cursor.specs.Cursor.{AreAnswersPast};

/// The answers that pass a test are a part of all answers: so what `seek` leaves is what `start` leaves,
/// without what is not past the tuple.
pub fn answers_past_are_a_part()
    ensures { (join : ReducedJoin) (passes : List ℕ → Bool) (all left : List (List ℕ)) →
        AreAnswersPast join (λ _. true) all → AreAnswersPast join passes left → left ≡ filter passes all }
{}
