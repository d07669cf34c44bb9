//! The late filters of a schema, tested on the values of its classes.

ghost use Rattle.std.specs.Prelude.{◌≡◌, ◌≤◌, ◌+◌, ◌++◌, length, drop, slice_index, All};
ghost use Rattle.std.specs.List.{list_all};
ghost use Rattle.pl_join.specs.Relation.{slot_value, IsSlotBelow};
ghost use Rattle.pl_normal.specs.Query.{meets_sieve, values_of};
ghost use Rattle.pl_normal.specs.Queries.{IsSieveOf};
ghost use Rattle.pl_gen.specs.Queries.{IsQuery, state_asked};

use crate::query::{Query, predicate_table};
use pl_join::Slot;
use pl_normal::Sieve;
use pl_steps::Steps;
use std::sync::ledger::Ledger;

/// The most slots that an atom has.
const MOST_SLOTS: usize = 64;

/// Whether all filters let the values pass; `values` has one for each class, by the class's number. It takes
/// at most one probe for each filter.
pub fn passes_all<L: Ledger>(
    query: &Query<'_, '_>,
    sieves: &[Sieve],
    values: &[u32],
    steps: &mut Steps<L>,
) -> bool
    requires query { IsQuery query.now }
    requires sieves { All (IsSieveOf query.now.normal.now) sieves.now }
    requires values { length values.now ≡ 64 }
    ensures passes { result ≡ list_all (meets_sieve (state_asked query.now) (slice_index values.now))
        sieves.now }
    ensures cost { steps.new ≤ steps.old + length sieves.now }
    ensures rise { steps.old ≤ steps.new }
{
    for sieve in sieves {
        if !passes(query, sieve, values, steps) {
            return false;
        }
    }
    true
}

/// Whether a filter lets the values pass. It takes at most one probe.
fn passes<L: Ledger>(
    query: &Query<'_, '_>,
    sieve: &Sieve,
    values: &[u32],
    steps: &mut Steps<L>,
) -> bool
    requires query { IsQuery query.now }
    requires sieve { IsSieveOf query.now.normal.now sieve.now }
    requires values { length values.now ≡ 64 }
    ensures passes { result ≡ meets_sieve (state_asked query.now) (slice_index values.now) sieve.now }
    ensures cost { steps.new ≤ steps.old + 1 }
    ensures rise { steps.old ≤ steps.new }
{
    match sieve {
        Sieve::NotEqual(a, b) => value_of(*a, values) != value_of(*b, values),
        Sieve::Absent(predicate, slots) => {
            let mut key = [0; MOST_SLOTS];
            let slots = slots.as_slice();
            write_key(&mut key, slots, values);
            let table = predicate_table(query, *predicate);
            !table.has(&key[..slots.len()], steps)
        }
    }
}

/// Writes the values of the slots to the front of the key.
fn write_key(key: &mut [u32], slots: &[Slot], values: &[u32])
    requires slots { All (IsSlotBelow 64) slots.now }
    requires room { length slots.now ≤ length key.old }
    requires values { length values.now ≡ 64 }
    ensures { key.new ≡ values_of (slice_index values.now) slots.now ++ drop (length slots.now) key.old }
{
    for i in 0..slots.len() {
        key[i] = value_of(slots[i], values);
    }
}

/// The value of a slot.
pub fn value_of(slot: Slot, values: &[u32]) -> u32
    requires slot { IsSlotBelow 64 slot }
    requires values { length values.now ≡ 64 }
    ensures { result ≡ slot_value (slice_index values.now) slot }
{
    match slot {
        Slot::Fixed(object) => object,
        Slot::Class(class) => values[class as usize],
    }
}
