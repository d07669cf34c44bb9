//! The ranges of rows that begin with the same two values, by hash.

ghost use Rattle.std.specs.Prelude.{◌≡◌, ◌+◌, ◌*◌, ◌<◌, ◌≤◌, ◌^◌, ◌∷◌, [], length, slice_index};
ghost use Rattle.std.specs.Prelude.{IfOk, IfSome, OnOk, IsTrue, ◌↔◌};
ghost use Rattle.pl_rows.specs.Layout.{pair_number, AreRangesOfPairs, IsFound, IsBracket, HasLongRun};

use crate::bisect::Bound;
use crate::range::Range;
use crate::table::Table;
use indexmap::IndexMap;
use std::alloc::{AllocError, Global};

/// How many rows may have one first value before the map is made.
///
/// Look-ups of keys that are there, among 100,000 rows, took as long by the map as by bisection in runs of 32
/// to 64 rows, and less in longer ones.
const LONGEST_RUN: usize = 64;

/// Whether more than `LONGEST_RUN` rows have one first value. A table of no more rows is not read.
pub fn has_long_run(table: &Table) -> bool
    requires { 0 < table.now.arity }
    ensures { IsTrue result ↔ HasLongRun table.now.rows }
{
    for i in LONGEST_RUN..table.len() {
        if table.row_unprobed(i)[0] == table.row_unprobed(i - LONGEST_RUN)[0] {
            return true;
        }
    }
    false
}

/// The ranges of all rows that begin with the same two values.
pub fn ranges_of_pairs(alloc: Global, table: &Table) -> Result<IndexMap<u64, Range>, AllocError>
    requires { 2 ≤ table.now.arity }
    ensures { IfOk result (λ pairs. AreRangesOfPairs table.now.rows pairs) }
{
    let mut pairs = IndexMap::new(alloc);
    let mut end = 0;
    for i in 0..table.len() {
        if end <= i {
            let row = table.row_unprobed(i);
            end = note(&mut pairs, table, row[0], row[1])?;
        }
    }
    Ok(pairs)
}

/// Notes the range of the rows that begin with these two values, and gives its end.
fn note(
    pairs: &mut IndexMap<u64, Range>,
    table: &Table,
    first: u32,
    second: u32,
) -> Result<usize, AllocError>
    requires arity { 2 ≤ table.now.arity }
    requires ranges { AreRangesOfPairs table.now.rows pairs.old }
    ensures { OnOk result (AreRangesOfPairs table.now.rows pairs.new) }
{
    let range = pair_range(table, &[first, second]);
    pairs.insert(number_of(first, second), range)?;
    Ok(range.to)
}

/// The rows that begin with these two values, by bisection.
fn pair_range(table: &Table, pair: &[u32]) -> Range
    requires { length pair.now ≤ table.now.arity }
    ensures { IsFound pair.now table.now.rows result.from result.to }
{
    let count = table.len();
    let from = table.bisected(pair, Bound::Below, 0, count);
    let to = table.bisected(pair, Bound::AtMost, from, count);
    Range { from, to }
}

/// Two values as one number.
#[inline]
fn number_of(first: u32, second: u32) -> u64
    ensures { result ≡ pair_number first second }
{
    first as u64 * 0x1_0000_0000 + second as u64
}

/// Between which places the rows with the key are, if the map has the key's first two values.
#[inline]
pub fn pair_bracket(table: &Table, pairs: &IndexMap<u64, Range>, key: &[u32]) -> Option<Range>
    requires key { 2 ≤ length key.now }
    requires ranges { AreRangesOfPairs table.now.rows pairs.now }
    ensures { IfSome result (λ range. IsBracket key.now table.now.rows range.from range.to) }
{
    pairs.get(&number_of(key[0], key[1])).copied()
}
