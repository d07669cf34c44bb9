//! Merging the rows of a predicate with what a step deletes and adds.

ghost use Rattle.std.specs.Prelude.{◌≡◌, ◌+◌, ◌*◌, ◌<◌, ◌≤◌, ◌^◌, ◌++◌, ◌⊎◌, ℕ, false, [], length, All, IfOk};
ghost use Rattle.std.specs.Prelude.{OnOk, if◌then◌else◌};
ghost use Rattle.std.specs.List.{flat_map};
ghost use Rattle.pl_rows.specs.Rows.{rows_of, IsAscending};
ghost use Rattle.pl_rows.specs.Layout.{comes_before, IsNarrowed};
ghost use Rattle.pl_task.specs.declared.data.Lifted.{Lifted as LiftedAtom};
ghost use Rattle.pl_state.specs.Changing.{HasRow, row_under, is_named, rows_between, StandsAt, AppendsUpTo};
ghost use Rattle.pl_state.specs.Changing.{AppendsRows};

use crate::count::as_word;
use crate::effect::{names, next_effect, write_row};
use crate::rows::Rows;
use pl_rows::bisect::{Bound, bisect, row_at};
use pl_task::Lifted;
use std::alloc::AllocError;

/// Appends the rows that the predicate has after the deletes and adds, ascending, and answers how many they
/// are.
///
/// The old rows between two that an effect names are copied whole. `row` is room for one row.
pub fn merge(
    new: &mut Vec<u32>,
    old: Rows<'_>,
    arity: u32,
    args: &[u32],
    deletes: &[Lifted],
    adds: &[Lifted],
    predicate: u32,
    row: &mut [u32],
) -> Result<u32, AllocError>
    requires whole { length old.flat.now ≡ arity * old.count }
    requires few { old.count < 2 ^ 32 }
    requires ascending { IsAscending (rows_of arity old.count old.flat.now) }
    requires row { length row.old ≡ arity }
    requires deletes { All (λ (e : LiftedAtom). e.predicate ≡ predicate → HasRow args.now arity e)
        deletes.now }
    requires adds { All (λ (e : LiftedAtom). e.predicate ≡ predicate → HasRow args.now arity e) adds.now }
    ensures few { IfOk result (λ count. count < 2 ^ 32) }
    ensures after { IfOk result (λ count. AppendsRows args.now predicate arity deletes.now adds.now
        (rows_of arity old.entry.count old.entry.flat.now) count new.old.items new.new.items) }
{
    let width = arity as usize;
    let mut last: Option<&Lifted> = None;
    let mut done = 0;
    let mut many = 0;
    while let Some(effect) = next_effect(args, deletes, adds, predicate, arity, last) {
        write_row(row, args, effect.terms.as_slice());
        let added = names(args, adds, predicate, row);
        let (next, more) = merge_row(new, old.flat, width, old.count, row, added, done)?;
        many = as_word(many as usize + more)?;
        done = next;
        last = Some(effect);
    }
    copy_rows(new, old.flat, width, old.count, done, old.count)?;
    let count = as_word(many as usize + (old.count - done))?;
    Ok(count)
}

/// Appends the old rows from `done` on that are below the row, then the row if it is added. Answers how many
/// old rows are done then, and how many rows were appended.
#[inline]
fn merge_row(
    new: &mut Vec<u32>,
    flat: &[u32],
    arity: usize,
    count: usize,
    row: &[u32],
    added: bool,
    done: usize,
) -> Result<(usize, usize), AllocError>
    requires whole { length flat.now ≡ arity * count }
    requires few { count < 2 ^ 32 }
    requires ascending { IsAscending (rows_of arity count flat.now) }
    requires width { length row.now ≡ arity }
    requires within { done ≤ count }
    requires narrowed { IsNarrowed (comes_before false row.now) (rows_of arity count flat.now) done count }
    ensures up_to { IfOk result (λ r. AppendsUpTo (rows_of arity count flat.now) row.now added done r.0 r.1
        new.old.items new.new.items) }
    ensures few { IfOk result (λ r. r.1 ≤ count + 1) }
{
    let place = bisect(flat, arity, count, row, Bound::Below, done, count);
    copy_rows(new, flat, arity, count, done, place)?;
    let more = append_if(new, row, added)?;
    let next = behind_row(flat, arity, count, place, row);
    Ok((next, place - done + more))
}

/// Appends the rows from one place up to another.
#[inline]
fn copy_rows(
    new: &mut Vec<u32>,
    flat: &[u32],
    arity: usize,
    _count: usize,
    from: usize,
    to: usize,
) -> Result<(), AllocError>
    requires whole { length flat.now ≡ arity * _count }
    requires in_order { from ≤ to }
    requires within { to ≤ _count }
    ensures { OnOk result (new.new.items
        ≡ new.old.items ++ flat_map (λ row. row) (rows_between from to (rows_of arity _count flat.now))) }
{
    // Of a small part there is often none, and a copy of nothing takes a call.
    if from == to {
        return Ok(());
    }
    new.extend_from_slice(&flat[from * arity..to * arity])?;
    Ok(())
}

/// Appends the row if it is added, and answers how many rows that are.
#[inline]
fn append_if(new: &mut Vec<u32>, row: &[u32], added: bool) -> Result<usize, AllocError>
    ensures words { OnOk result (new.new.items ≡ new.old.items ++ (if added then row.now else [])) }
    ensures many { IfOk result (λ many. many ≡ (if added then 1 else 0)) }
{
    if !added {
        return Ok(0);
    }
    new.extend_from_slice(row)?;
    Ok(1)
}

/// The place behind the row if it stands at this place, else this place.
#[inline]
fn behind_row(flat: &[u32], arity: usize, count: usize, place: usize, row: &[u32]) -> usize
    requires whole { length flat.now ≡ arity * count }
    requires few { count < 2 ^ 32 }
    requires within { place ≤ count }
    ensures { (StandsAt (rows_of arity count flat.now) place row.now × (result ≡ place + 1))
        ⊎ ((StandsAt (rows_of arity count flat.now) place row.now → ⊥) × (result ≡ place)) }
{
    if place >= count {
        return place;
    }
    if row_at(flat, arity, count, place) == row {
        return place + 1;
    }
    place
}
