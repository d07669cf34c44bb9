//! A table that is looked up by the first values of its rows.

ghost use Rattle.std.specs.Prelude.{◌≡◌, ◌↔◌, ◌+◌, ◌-◌, ◌<◌, ◌≤◌, ◌^◌, ◌++◌, ◌∷◌, [], List, ℕ};
ghost use Rattle.std.specs.Prelude.{length, take, map, Contains, IsTrue, count_by, replicate};
ghost use Rattle.std.specs.Prelude.{filter, slice_range, IfOk, IfSome, IfNone, OnOk};
ghost use Rattle.pl_rows.specs.Rows.{AreRowsOf, is_below, begins_with};
ghost use Rattle.pl_rows.specs.Layout.{IsDirectory, IsBracket, IsFound, AreRangesOfPairs, HasLongRun};

use crate::bisect::Bound;
use crate::pairs::{has_long_run, pair_bracket, ranges_of_pairs};
use crate::range::Range;
use crate::table::Table;
use indexmap::IndexMap;
use pl_steps::Steps;
use std::alloc::{AllocError, Global};
use std::marker::Model;
use std::sync::ledger::Ledger;

/// Up to how many numbers, for each row of the table, the directory has entries.
const ENTRIES_PER_ROW: usize = 4;

/// A table whose rows are found by a key: their first `width` values.
///
/// Rows with one key are neighbors, so the answer to a look-up is a range of places. A directory by the first
/// value narrows each look-up to the rows with that value, and bisection does the rest. So a key of one value
/// takes no search where the table's first values are small numbers, as the numbers of objects are.
///
/// An index that lasts has, where keys have two or more values and a long run of rows has one first value, a
/// map from the first two values, which narrows the look-up to the rows with both. Two values that no row
/// begins with are looked up as without the map.
#[derive(Drop)]
pub struct Indexed {
    table: Table,
    width: u32,
    starts: Vec<u32>,
    pairs: Option<IndexMap<u64, Range>>,
}

impl Model for Indexed {
    ghost use Rattle.pl_rows.specs.Rows.{IndexedRows};
    ghost use Rattle.pl_rows.specs.Layout.{IsIndexed};

    ghost Value = { IndexedRows };

    ghost view = { λ x. record { table = x.table; width = x.width } };

    ghost invariant = { λ x. IsIndexed x.table x.width x.starts.items x.pairs };
}

impl Indexed {
    /// The table with an index for keys of `width` values. It takes one probe per row.
    ///
    /// The only error is want of memory. It gives the table up.
    pub fn build<L: Ledger>(
        alloc: Global,
        table: Table,
        width: u32,
        steps: &mut Steps<L>,
    ) -> Result<Indexed, AllocError>
        requires { width ≤ table.arity }
        ensures table { IfOk result (λ x. x.table ≡ table) }
        ensures width { IfOk result (λ x. x.width ≡ width) }
        ensures cost { OnOk result (steps.new ≡ steps.old + length table.rows) }
        ensures rise { steps.old ≤ steps.new }
        ensures most { steps.new ≤ steps.old + length table.rows }
    {
        let limit = directory_limit(table.len(), width);
        let starts = directory(alloc, &table, limit, steps)?;
        Ok(Indexed {
            table,
            width,
            starts,
            pairs: None,
        })
    }

    /// The index, made ready for many look-ups: where keys have two or more values and a long run of rows has
    /// one first value, it gets a map from the first two values. To make it takes far longer than a look-up
    /// without it, so it is worth that only for a table that stays. It takes no probe.
    ///
    /// The only error is want of memory.
    pub fn lasting(self, alloc: Global) -> Result<Indexed, AllocError>
        ensures { IfOk result (λ x. x ≡ self) }
    {
        let pairs = long_runs(alloc, &self.table, self.width)?;
        Ok(Indexed {
            table: self.table,
            width: self.width,
            starts: self.starts,
            pairs,
        })
    }

    /// The table.
    pub fn table(&self) -> &Table
        ensures { result.now ≡ self.now.table }
    {
        &self.table
    }

    /// How many values a key has.
    pub fn width(&self) -> u32
        ensures width { result ≡ self.now.width }
        ensures within { self.now.width ≤ self.now.table.arity }
    {
        self.width
    }

    /// The rows whose first values are the key, in one probe: the places that they have in the table.
    ///
    /// Where there is none, the range is empty, at the place where they would be.
    pub fn find<L: Ledger>(&self, key: &[u32], steps: &mut Steps<L>) -> Range
        requires { length key.now ≡ self.now.width }
        ensures rows { AreRowsOf key.now self.now.table.rows result.from result.to }
        ensures from { result.from ≡ count_by (is_below key.now) self.now.table.rows }
        ensures all { slice_range self.now.table.rows result.from result.to
            ≡ filter (begins_with key.now) self.now.table.rows }
        ensures cost { steps.new ≡ steps.old + 1 }
    {
        steps.tick();
        if self.width == 1 {
            if let Some(range) = listed(&self.table, &self.starts, key[0]) {
                return range;
            }
        }
        let near = near(&self.table, &self.starts, &self.pairs, key);
        let from = self.table.bisected(key, Bound::Below, near.from, near.to);
        let to = self.table.bisected(key, Bound::AtMost, from, near.to);
        Range { from, to }
    }

    /// Whether some row's first values are the key, in one probe.
    pub fn has<L: Ledger>(&self, key: &[u32], steps: &mut Steps<L>) -> bool
        requires { length key.now ≡ self.now.width }
        ensures has { IsTrue result ↔ Contains (map (take self.now.width) self.now.table.rows) key.now }
        ensures cost { steps.new ≡ steps.old + 1 }
    {
        let range = self.find(key, steps);
        range.from < range.to
    }
}

/// The ranges of the rows that begin with the same two values, where keys have two and many rows one first
/// value.
fn long_runs(
    alloc: Global,
    table: &Table,
    width: u32,
) -> Result<Option<IndexMap<u64, Range>>, AllocError>
    requires { width ≤ table.now.arity }
    ensures ranges { IfOk result (λ found. IfSome found (λ pairs. AreRangesOfPairs table.now.rows pairs)) }
    ensures long { IfOk result (λ found. IfSome found (λ _. (2 ≤ width) × HasLongRun table.now.rows)) }
    ensures none { IfOk result (λ found. IfNone found (2 ≤ width → HasLongRun table.now.rows → ⊥)) }
{
    if width < 2 || !has_long_run(table) {
        return Ok(None);
    }
    Ok(Some(ranges_of_pairs(alloc, table)?))
}

/// How many numbers the directory of a table with so many rows may have entries for.
fn directory_limit(count: usize, width: u32) -> usize
    ensures { 0 < result → (0 < width) × (count < 2 ^ 32) }
{
    if width == 0 || count > u32::MAX as usize {
        return 0;
    }
    count * ENTRIES_PER_ROW
}

/// For each number below the limit, as far as there are greater first values: how many rows have a lesser
/// first value.
fn directory<L: Ledger>(
    alloc: Global,
    table: &Table,
    limit: usize,
    steps: &mut Steps<L>,
) -> Result<Vec<u32>, AllocError>
    requires { 0 < limit → (0 < table.now.arity) × (length table.now.rows < 2 ^ 32) }
    ensures directory { IfOk result (λ starts. IsDirectory table.now.rows starts.items) }
    ensures cost { OnOk result (steps.new ≡ steps.old + length table.now.rows) }
    ensures rise { steps.old ≤ steps.new }
    ensures most { steps.new ≤ steps.old + length table.now.rows }
{
    let count = table.len();
    let mut starts = Vec::new(alloc);
    for i in 0..count {
        let row = table.row(i, steps);
        if 0 < limit {
            extend(&mut starts, (row[0] as usize + 1).min(limit), i as u32)?;
        }
    }
    if starts.len() < limit {
        starts.push(count as u32)?;
    }
    Ok(starts)
}

/// Appends the value until there are `len` of them.
fn extend(starts: &mut Vec<u32>, len: usize, value: u32) -> Result<(), AllocError>
    ensures { OnOk result (starts.new.items
        ≡ starts.old.items ++ replicate (len - length starts.old.items) value) }
{
    while starts.len() < len {
        starts.push(value)?;
    }
    Ok(())
}

/// The rows with this first value, if the directory has them.
#[inline]
fn listed(table: &Table, starts: &[u32], first: u32) -> Option<Range>
    requires { IsDirectory table.now.rows starts.now }
    ensures { IfSome result (λ range. IsFound (first ∷ []) table.now.rows range.from range.to) }
{
    let first = first as usize;
    if starts.len() <= first + 1 {
        return None;
    }
    Some(Range {
        from: starts[first] as usize,
        to: starts[first + 1] as usize,
    })
}

/// Between which places the rows with the key are: by its first two values where the map has them, or else
/// by the first.
#[inline]
fn near(table: &Table, starts: &[u32], pairs: &Option<IndexMap<u64, Range>>, key: &[u32]) -> Range
    requires directory { IsDirectory table.now.rows starts.now }
    requires ranges { IfSome pairs.now (λ map. AreRangesOfPairs table.now.rows map) }
    ensures { IsBracket key.now table.now.rows result.from result.to }
{
    let Some(pairs) = pairs else {
        return bracket(table, starts, key);
    };
    if key.len() < 2 {
        return bracket(table, starts, key);
    }
    match pair_bracket(table, pairs, key) {
        Some(range) => range,
        None => bracket(table, starts, key),
    }
}

/// Between which places the rows with the key are, by the key's first value.
#[inline]
fn bracket(table: &Table, starts: &[u32], key: &[u32]) -> Range
    requires { IsDirectory table.now.rows starts.now }
    ensures { IsBracket key.now table.now.rows result.from result.to }
{
    let count = table.len();
    if key.is_empty() {
        return Range { from: 0, to: count };
    }
    let first = key[0] as usize;
    if first + 1 < starts.len() {
        return Range {
            from: starts[first] as usize,
            to: starts[first + 1] as usize,
        };
    }
    let from = starts.last().copied().unwrap_or(0) as usize;
    Range { from, to: count }
}
