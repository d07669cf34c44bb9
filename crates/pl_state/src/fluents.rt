//! Which atoms over fluent predicates are true in a state.

ghost use Rattle.std.specs.Prelude.{◌≡◌, true};
ghost use Rattle.pl_task.specs.WellFormed.{IsAtomOf};
ghost use Rattle.pl_state.specs.Layout.{atom_of};
ghost use Rattle.pl_state.specs.StateOf.{is_fluent_in, state_in, IsStateOf};

use crate::packed::Packed;
use crate::parts::rows_in_words;
use pl_rows::bisect::has_row;
use pl_task::Task;

/// Whether an atom over a fluent predicate is true in the state, by bisection. For any atom of the task ask
/// `StaticAtoms::holds`.
#[inline]
pub fn holds_fluent(task: &Task, state: &Packed, predicate: u32, args: &[u32]) -> bool
    requires state { IsStateOf task.now state.now }
    requires atom { IsAtomOf task.now.objects task.now.predicates (atom_of predicate args.now) }
    requires fluent { is_fluent_in task.now predicate ≡ true }
    ensures { result ≡ state_in task.now state.now (atom_of predicate args.now) }
{
    let rows = rows_in_words(task, state.words(), predicate);
    has_row(rows.flat, args.len(), rows.count, args)
}
