//! Whether a row is among rows that lie in a flat slice, looked for from a place on. No probe is counted.
//!
//! Where many rows are looked for, one after another, each is looked for from where the one before was. Rows
//! that come in order are then found in few comparisons each, and so are numbers without gaps, in whichever
//! order they come.

ghost use Rattle.std.specs.Prelude.{◌≡◌, ◌↔◌, ◌*◌, ◌≤◌, false, length, IsTrue, Contains};
ghost use Rattle.pl_rows.specs.Rows.{rows_of, IsAscending};
ghost use Rattle.pl_rows.specs.Layout.{comes_before, IsNarrowed};

use crate::bisect::{Bound, bisect, is_at, is_before, row_at};

/// Whether the rows in `flat` have the row. It is looked for from the place `near` on, which may be any, and
/// which is then the place where it stands or would stand.
///
/// It takes about as many comparisons as the logarithm of how far that place is from `near`.
#[inline]
pub fn has_row_near(flat: &[u32], arity: usize, count: usize, row: &[u32], near: &mut usize) -> bool
    requires whole { length flat.now ≡ arity * count }
    requires ascending { IsAscending (rows_of arity count flat.now) }
    requires width { length row.now ≡ arity }
    ensures { IsTrue result ↔ Contains (rows_of arity count flat.now) row.now }
{
    let guess = guessed(flat, row, *near);
    if is_at(flat, arity, count, row, guess) {
        *near = guess;
        return true;
    }
    let place = place_near(flat, arity, count, row, guess);
    *near = place;
    is_at(flat, arity, count, row, place)
}

/// A place that may be nearer to where the row is than `near`: among rows of one value, as far off as the
/// values are apart.
///
/// Where the values have no gaps, it is the place itself.
#[inline]
fn guessed(flat: &[u32], row: &[u32], near: usize) -> usize {
    if row.len() != 1 || flat.len() <= near {
        return near;
    }
    let known = flat[near];
    let value = row[0];
    if known <= value {
        near.saturating_add((value - known) as usize)
    } else {
        near.saturating_sub((known - value) as usize)
    }
}

/// How many rows are below the row. The answer is looked for from the place `near` on, which may be any.
#[inline]
fn place_near(flat: &[u32], arity: usize, count: usize, row: &[u32], near: usize) -> usize
    requires whole { length flat.now ≡ arity * count }
    requires ascending { IsAscending (rows_of arity count flat.now) }
    requires width { length row.now ≡ arity }
    ensures within { result ≤ count }
    ensures narrowed { IsNarrowed (comes_before false row.now) (rows_of arity count flat.now) result result }
{
    if count <= near {
        return place_behind(flat, arity, count, row, count);
    }
    if is_before(row_at(flat, arity, count, near), row, Bound::Below) {
        place_ahead(flat, arity, count, row, near + 1)
    } else {
        place_behind(flat, arity, count, row, near)
    }
}

/// How many rows are below the row, where those before `low` are known to be below it: in strides that
/// double.
fn place_ahead(flat: &[u32], arity: usize, count: usize, row: &[u32], mut low: usize) -> usize
    requires whole { length flat.now ≡ arity * count }
    requires ascending { IsAscending (rows_of arity count flat.now) }
    requires width { length row.now ≡ arity }
    requires within { low ≤ count }
    requires narrowed { IsNarrowed (comes_before false row.now) (rows_of arity count flat.now) low count }
    ensures within { result ≤ count }
    ensures narrowed { IsNarrowed (comes_before false row.now) (rows_of arity count flat.now) result result }
{
    let mut stride = 0;
    while stride < count - low {
        let place = low + stride;
        if !is_before(row_at(flat, arity, count, place), row, Bound::Below) {
            return bisect(flat, arity, count, row, Bound::Below, low, place);
        }
        low = place + 1;
        stride += stride + 1;
    }
    bisect(flat, arity, count, row, Bound::Below, low, count)
}

/// How many rows are below the row, where those from `high` on are known not to be: in strides that double.
fn place_behind(flat: &[u32], arity: usize, count: usize, row: &[u32], mut high: usize) -> usize
    requires whole { length flat.now ≡ arity * count }
    requires ascending { IsAscending (rows_of arity count flat.now) }
    requires width { length row.now ≡ arity }
    requires within { high ≤ count }
    requires narrowed { IsNarrowed (comes_before false row.now) (rows_of arity count flat.now) 0 high }
    ensures within { result ≤ count }
    ensures narrowed { IsNarrowed (comes_before false row.now) (rows_of arity count flat.now) result result }
{
    let mut stride = 0;
    while stride < high {
        let place = high - 1 - stride;
        if is_before(row_at(flat, arity, count, place), row, Bound::Below) {
            return bisect(flat, arity, count, row, Bound::Below, place + 1, high);
        }
        high = place;
        stride += stride + 1;
    }
    bisect(flat, arity, count, row, Bound::Below, 0, high)
}
