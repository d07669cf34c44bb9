//! Whether the guards of a schema hold in a state.

ghost use Rattle.std.specs.Prelude.{◌≡◌, ◌≤◌, ◌+◌, length, All};
ghost use Rattle.std.specs.List.{list_all};
ghost use Rattle.pl_task.specs.WellFormed.{IsAtomOf};
ghost use Rattle.pl_normal.specs.Query.{meets_guard};
ghost use Rattle.pl_normal.specs.Queries.{IsGuardOf};
ghost use Rattle.pl_gen.specs.Queries.{IsQuery, state_asked};

use crate::query::{Query, predicate_table};
use pl_normal::Guard;
use pl_steps::Steps;
use pl_task::Atom;
use std::sync::ledger::Ledger;

/// Whether all guards hold. The first false one ends the search. It takes at most one probe for each guard.
pub fn guards_hold<L: Ledger>(query: &Query<'_, '_>, guards: &[Guard], steps: &mut Steps<L>) -> bool
    requires query { IsQuery query.now }
    requires guards { All (IsGuardOf query.now.normal.now) guards.now }
    ensures holds { result ≡ list_all (meets_guard (state_asked query.now)) guards.now }
    ensures cost { steps.new ≤ steps.old + length guards.now }
    ensures rise { steps.old ≤ steps.new }
{
    for guard in guards {
        if !guard_holds(query, guard, steps) {
            return false;
        }
    }
    true
}

fn guard_holds<L: Ledger>(query: &Query<'_, '_>, guard: &Guard, steps: &mut Steps<L>) -> bool
    requires query { IsQuery query.now }
    requires guard { IsGuardOf query.now.normal.now guard.now }
    ensures holds { result ≡ meets_guard (state_asked query.now) guard.now }
    ensures cost { steps.new ≤ steps.old + 1 }
    ensures rise { steps.old ≤ steps.new }
{
    match guard {
        Guard::Holds(atom) => is_true(query, atom, steps),
        Guard::Absent(atom) => !is_true(query, atom, steps),
        Guard::Never => false,
    }
}

/// Whether an atom is true in the state.
fn is_true<L: Ledger>(query: &Query<'_, '_>, atom: &Atom, steps: &mut Steps<L>) -> bool
    requires query { IsQuery query.now }
    requires atom { IsAtomOf query.now.normal.now.objects query.now.normal.now.predicates atom.now }
    ensures holds { result ≡ state_asked query.now atom.now }
    ensures cost { steps.new ≤ steps.old + 1 }
    ensures rise { steps.old ≤ steps.new }
{
    let table = predicate_table(query, atom.predicate);
    table.has(atom.objects.as_slice(), steps)
}
