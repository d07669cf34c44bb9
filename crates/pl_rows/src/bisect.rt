//! Rows in a flat slice, which need be no table: the row at a place, and bisection. No probe is counted.

ghost use Rattle.std.specs.Prelude.{◌≡◌, ◌↔◌, ◌*◌, ◌-◌, ◌<◌, ◌≤◌, length, IsTrue, Contains, slice_get};
ghost use Rattle.std.specs.Prelude.{slice_range};
ghost use Rattle.pl_rows.specs.Rows.{rows_of, IsAscending};
ghost use Rattle.pl_rows.specs.Layout.{comes_before, takes_equal, IsNarrowed};

use crate::range::Range;

/// Row `i` of the rows that lie in `flat`.
#[inline]
pub fn row_at(flat: &[u32], arity: usize, count: usize, i: usize) -> &[u32]
    requires whole { length flat.now ≡ arity * count }
    requires within { i < count }
    ensures row { slice_get (rows_of arity count flat.now) i ≡ Some result.now }
    ensures width { length result.now ≡ arity }
{
    let from = i * arity;
    &flat[from..from + arity]
}

/// The rows in a range of those that lie in `flat`, one after another.
pub fn rows_between(flat: &[u32], arity: usize, count: usize, range: Range) -> &[u32]
    requires whole { length flat.now ≡ arity * count }
    requires in_order { range.from ≤ range.to }
    requires within { range.to ≤ count }
    ensures whole { length result.now ≡ arity * (range.to - range.from) }
    ensures rows { rows_of arity (range.to - range.from) result.now
        ≡ slice_range (rows_of arity count flat.now) range.from range.to }
{
    &flat[arity * range.from..arity * range.to]
}

/// Which rows a bisection counts, by how their first values compare with a prefix.
#[derive(Clone, Copy)]
pub enum Bound {
    /// Those whose first values are below the prefix.
    Below,
    /// Those whose first values are at most the prefix.
    AtMost,
}

/// Whether a bound takes the rows too that begin with the prefix.
#[inline]
fn or_equal(bound: Bound) -> bool
    ensures { result ≡ takes_equal bound }
{
    match bound {
        Bound::Below => false,
        Bound::AtMost => true,
    }
}

/// How many rows the bound takes: those whose first values are below the prefix, or at most the prefix.
///
/// That the rows before `low` are among them, and those from `high` on are not, is known.
#[inline]
pub fn bisect(
    flat: &[u32],
    arity: usize,
    count: usize,
    prefix: &[u32],
    bound: Bound,
    mut low: usize,
    mut high: usize,
) -> usize
    requires whole { length flat.now ≡ arity * count }
    requires ascending { IsAscending (rows_of arity count flat.now) }
    requires short { length prefix.now ≤ arity }
    requires in_order { low ≤ high }
    requires within { high ≤ count }
    requires narrowed { IsNarrowed (comes_before (takes_equal bound) prefix.now)
        (rows_of arity count flat.now) low high }
    ensures from { low ≤ result }
    ensures to { result ≤ high }
    ensures narrowed { IsNarrowed (comes_before (takes_equal bound) prefix.now)
        (rows_of arity count flat.now) result result }
{
    while low < high {
        let middle = low + (high - low) / 2;
        if is_before(row_at(flat, arity, count, middle), prefix, bound) {
            low = middle + 1;
        } else {
            high = middle;
        }
    }
    low
}

/// Whether the bound takes the row: its first values are below the prefix, or at most the prefix.
#[inline]
pub fn is_before(row: &[u32], prefix: &[u32], bound: Bound) -> bool
    requires { length prefix.now ≤ length row.now }
    ensures { result ≡ comes_before (takes_equal bound) prefix.now row.now }
{
    for i in 0..prefix.len() {
        if row[i] != prefix[i] {
            return row[i] < prefix[i];
        }
    }
    or_equal(bound)
}

/// Whether the rows in `flat` have the row.
#[inline]
pub fn has_row(flat: &[u32], arity: usize, count: usize, row: &[u32]) -> bool
    requires whole { length flat.now ≡ arity * count }
    requires ascending { IsAscending (rows_of arity count flat.now) }
    requires width { length row.now ≡ arity }
    ensures { IsTrue result ↔ Contains (rows_of arity count flat.now) row.now }
{
    let place = bisect(flat, arity, count, row, Bound::Below, 0, count);
    is_at(flat, arity, count, row, place)
}

/// Whether the row stands at this place, which may be any.
#[inline]
pub fn is_at(flat: &[u32], arity: usize, count: usize, row: &[u32], place: usize) -> bool
    requires whole { length flat.now ≡ arity * count }
    ensures { IsTrue result ↔ (slice_get (rows_of arity count flat.now) place ≡ Some row.now) }
{
    place < count && row_at(flat, arity, count, place) == row
}
