//! The filters of a relation: by two slots with different values, and by slots whose row a table doesn't
//! have.

ghost use Rattle.std.specs.Prelude.{◌≡◌, ◌+◌, ◌*◌, ◌<◌, ◌≤◌, ◌^◌, ℕ, Bool, length, take, min, map};
ghost use Rattle.std.specs.Prelude.{filter, All, Contains, IfOk, IfSome, IfNone, OnOk};
ghost use Rattle.pl_rows.specs.Rows.{AreRows, SameRows, rows_of};
ghost use Rattle.pl_join.specs.Relation.{IsSlotOver, AreUnequalOf, AreAbsentOf};
ghost use Rattle.pl_join.specs.Lookup.{keys_of, key_width};
ghost use Rattle.pl_join.specs.Source.{IsWithin, differ, keeps_where, is_kept};

use crate::lookup::{Lookup, is_there};
use crate::relation::Relation;
use crate::short_list::ShortList;
use crate::slot::Slot;
use crate::source::{Source, append, look_at, room_for, source_of, sources_of, value_in, zeros};
use pl_rows::{Table, TableBuilder};
use pl_steps::Steps;
use std::alloc::{AllocError, Global};
use std::sync::ledger::Ledger;

/// Which rows a filter keeps.
#[derive(Clone, Copy)]
pub enum Keep {
    /// Those whose values are found.
    Found,
    /// Those whose values are not there.
    Missing,
}

/// The rows in which the two slots have different values, over the relation's classes in their order.
///
/// It takes one probe per row, and sorts nothing.
pub fn filter_unequal<L: Ledger>(
    alloc: Global,
    relation: &Relation,
    a: Slot,
    b: Slot,
    steps: &mut Steps<L>,
) -> Result<Relation, AllocError>
    requires first { IsSlotOver relation.now.classes a }
    requires second { IsSlotOver relation.now.classes b }
    ensures classes { IfOk result (λ r. r.classes ≡ relation.now.classes) }
    ensures rows { IfOk result (AreUnequalOf relation.now a b) }
    ensures cost { steps.new ≤ steps.old + length relation.now.rows }
    ensures rise { steps.old ≤ steps.new }
{
    let classes = relation.classes();
    let first = source_of(classes, a);
    let second = source_of(classes, b);
    let table = unequal_rows(alloc, relation.table(), first, second, steps)?;
    Ok(Relation::new(ShortList::from_slice(alloc, classes)?, table))
}

/// The rows for which the row of the slots is not in the table, over the relation's classes in their order.
///
/// It takes two probes per row, and sorts nothing.
pub fn filter_absent<L: Ledger>(
    alloc: Global,
    relation: &Relation,
    table: &Table,
    slots: &[Slot],
    steps: &mut Steps<L>,
) -> Result<Relation, AllocError>
    requires held { All (IsSlotOver relation.now.classes) slots.now }
    requires arity { length slots.now ≡ table.now.arity }
    ensures classes { IfOk result (λ r. r.classes ≡ relation.now.classes) }
    ensures rows { IfOk result (AreAbsentOf relation.now table.now.rows slots.now) }
    ensures cost { steps.new ≤ steps.old + 2 * length relation.now.rows }
    ensures rise { steps.old ≤ steps.new }
{
    let classes = relation.classes();
    let sources = sources_of(alloc, classes, slots)?;
    let kept = kept_rows(
        alloc,
        relation.table(),
        Lookup::Rows(table),
        sources.as_slice(),
        Keep::Missing,
        steps,
    )?;
    Ok(Relation::new(ShortList::from_slice(alloc, classes)?, kept))
}

/// The rows in which the two sources differ.
fn unequal_rows<L: Ledger>(
    alloc: Global,
    table: &Table,
    a: Source,
    b: Source,
    steps: &mut Steps<L>,
) -> Result<Table, AllocError>
    requires first { IsWithin table.now.arity a }
    requires second { IsWithin table.now.arity b }
    ensures arity { IfOk result (λ t. t.arity ≡ table.now.arity) }
    ensures rows { IfOk result (λ t. AreRows table.now.arity t.rows) }
    ensures same { IfOk result (λ t. SameRows t.rows (filter (differ a b) table.now.rows)) }
    ensures cost { steps.new ≤ steps.old + length table.now.rows }
    ensures rise { steps.old ≤ steps.new }
{
    let len = table.len();
    let mut flat = room_for(alloc, len, table.arity() as usize)?;
    let mut count = 0;
    for i in 0..len {
        let row = table.row(i, steps);
        if value_in(row, a) != value_in(row, b) {
            append(&mut flat, row)?;
            count += 1;
        }
    }
    Table::from_rows(alloc, table.arity(), count, flat)
}

/// The rows to keep, by whether the values of the sources are a row of the lookup.
fn kept_rows<L: Ledger>(
    alloc: Global,
    table: &Table,
    other: Lookup<'_>,
    sources: &[Source],
    keep: Keep,
    steps: &mut Steps<L>,
) -> Result<Table, AllocError>
    requires within { All (IsWithin table.now.arity) sources.now }
    requires arity { length sources.now ≡ key_width other }
    ensures arity { IfOk result (λ t. t.arity ≡ table.now.arity) }
    ensures rows { IfOk result (λ t. AreRows table.now.arity t.rows) }
    ensures kept { IfOk result (λ t. t.rows
        ≡ filter (is_kept keep (keys_of other.entry) sources.now) table.now.rows) }
    ensures cost { steps.new ≤ steps.old + 2 * length table.now.rows }
    ensures rise { steps.old ≤ steps.new }
{
    match fewer_rows(alloc, table, other, sources, keep, steps)? {
        Some(kept) => Ok(kept),
        None => table.copied(alloc),
    }
}

/// The same where some row is left out; None where all rows are kept, and then nothing is copied.
///
/// It takes at most two probes per row, and sorts nothing.
pub fn fewer_rows<L: Ledger>(
    alloc: Global,
    table: &Table,
    other: Lookup<'_>,
    sources: &[Source],
    keep: Keep,
    steps: &mut Steps<L>,
) -> Result<Option<Table>, AllocError>
    requires within { All (IsWithin table.now.arity) sources.now }
    requires arity { length sources.now ≡ key_width other }
    ensures all { IfOk result (λ r. IfNone r
        (filter (is_kept keep (keys_of other.entry) sources.now) table.now.rows ≡ table.now.rows)) }
    ensures arity { IfOk result (λ r. IfSome r (λ t. t.arity ≡ table.now.arity)) }
    ensures rows { IfOk result (λ r. IfSome r (λ t. AreRows table.now.arity t.rows)) }
    ensures kept { IfOk result (λ r. IfSome r (λ t. t.rows
        ≡ filter (is_kept keep (keys_of other.entry) sources.now) table.now.rows)) }
    ensures fewer { IfOk result (λ r. IfSome r (λ t. length t.rows < length table.now.rows)) }
    ensures cost { steps.new ≤ steps.old + 2 * length table.now.rows }
    ensures rise { steps.old ≤ steps.new }
{
    let mut values = zeros(alloc, sources.len())?;
    let values = values.as_mut_slice();
    let mut near = 0;
    let first = first_left_out(table, other, sources, keep, values, &mut near, steps);
    if first == table.len() {
        return Ok(None);
    }
    let mut kept = TableBuilder::front_of(alloc, table, first)?;
    for i in first + 1..table.len() {
        let row = table.row(i, steps);
        if keeps(row, other, sources, keep, values, &mut near, steps) {
            kept.push(row)?;
        }
    }
    Ok(Some(kept.into_ascending()))
}

/// The place of the first row that is not kept, or how many rows there are.
fn first_left_out<L: Ledger>(
    table: &Table,
    other: Lookup<'_>,
    sources: &[Source],
    keep: Keep,
    values: &mut [u32],
    near: &mut usize,
    steps: &mut Steps<L>,
) -> usize
    requires within { All (IsWithin table.now.arity) sources.now }
    requires arity { length sources.now ≡ key_width other }
    requires values { length values.old ≡ length sources.now }
    ensures within { result ≤ length table.now.rows }
    ensures kept { filter (is_kept keep (keys_of other.entry) sources.now) (take (result + 1) table.now.rows)
        ≡ take result table.now.rows }
    ensures cost { steps.new ≡ steps.old + 2 * min (result + 1) (length table.now.rows) }
{
    for i in 0..table.len() {
        let row = table.row(i, steps);
        if !keeps(row, other, sources, keep, values, near, steps) {
            return i;
        }
    }
    table.len()
}

/// Whether the row is kept, by one probe. `values` is room for the values of the sources, and `near` is for
/// `is_there`.
#[inline(always)]
fn keeps<L: Ledger>(
    row: &[u32],
    other: Lookup<'_>,
    sources: &[Source],
    keep: Keep,
    values: &mut [u32],
    near: &mut usize,
    steps: &mut Steps<L>,
) -> bool
    requires within { All (IsWithin (length row.now)) sources.now }
    requires arity { length sources.now ≡ key_width other }
    requires values { length values.old ≡ length sources.now }
    ensures kept { result ≡ is_kept keep (keys_of other.entry) sources.now row.now }
    ensures cost { steps.new ≡ steps.old + 1 }
{
    look_at(values, row, sources);
    takes(keep, is_there(other, values, near, steps))
}

/// Whether a row is kept whose values were found, or weren't.
#[inline]
fn takes(keep: Keep, found: bool) -> bool
    ensures { result ≡ keeps_where keep found }
{
    match keep {
        Keep::Found => found,
        Keep::Missing => !found,
    }
}
