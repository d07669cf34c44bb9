//! Rows into ascending order, each once.

ghost use Rattle.std.specs.Prelude.{◌≡◌, ◌↔◌, ◌*◌, ◌<◌, ◌≤◌, ◌^◌, length, map, All, IfOk, IsTrue};
ghost use Rattle.pl_rows.specs.Rows.{rows_of, IsAscending, SameRows};

use crate::bisect::row_at;
use std::alloc::{AllocError, Global};

/// Whether each row is below the next.
pub fn are_ascending(flat: &[u32], arity: usize, count: usize) -> bool
    requires { length flat.now ≡ arity * count }
    ensures { IsTrue result ↔ IsAscending (rows_of arity count flat.now) }
{
    for i in 1..count {
        if row_at(flat, arity, count, i - 1)
            .cmp(row_at(flat, arity, count, i))
            .is_ge()
        {
            return false;
        }
    }
    true
}

/// The rows in ascending order, each once: how many they are, and the rows one after another.
///
/// Narrow rows are sorted as values, which is several times as fast as through slices of them.
pub fn sorted_rows(
    alloc: Global,
    flat: &[u32],
    arity: usize,
    count: usize,
) -> Result<(usize, Vec<u32>), AllocError>
    requires { length flat.now ≡ arity * count }
    ensures values { IfOk result (λ r. All (λ value. value < 2 ^ 32) r.1.items) }
    ensures whole { IfOk result (λ r. length r.1.items ≡ arity * r.0) }
    ensures ascending { IfOk result (λ r. IsAscending (rows_of arity r.0 r.1.items)) }
    ensures same { IfOk result (λ r. SameRows (rows_of arity r.0 r.1.items) (rows_of arity count flat.now)) }
{
    match arity {
        1 => sorted_arrays::<1>(alloc, flat, count),
        2 => sorted_arrays::<2>(alloc, flat, count),
        3 => sorted_arrays::<3>(alloc, flat, count),
        4 => sorted_arrays::<4>(alloc, flat, count),
        _ => sorted_slices(alloc, flat, arity, count),
    }
}

/// The same for rows of a width that is known when the crate is built.
fn sorted_arrays<const N: usize>(
    alloc: Global,
    flat: &[u32],
    count: usize,
) -> Result<(usize, Vec<u32>), AllocError>
    requires some { 0 < N }
    requires few { N ≤ 4 }
    requires whole { length flat.now ≡ N * count }
    ensures values { IfOk result (λ r. All (λ value. value < 2 ^ 32) r.1.items) }
    ensures whole { IfOk result (λ r. length r.1.items ≡ N * r.0) }
    ensures ascending { IfOk result (λ r. IsAscending (rows_of N r.0 r.1.items)) }
    ensures same { IfOk result (λ r. SameRows (rows_of N r.0 r.1.items) (rows_of N count flat.now)) }
{
    let (arrays, _) = flat.as_chunks::<N>();
    let mut rows: Vec<[u32; N]> = Vec::from_slice(alloc, arrays)?;
    // Mostly these are the columns of a table in another order. They come in runs, on which a merge sort is
    // faster.
    rows.sort()?;
    rows.dedup();
    let distinct = rows.as_slice();
    let flat = Vec::from_slice(alloc, distinct.as_flattened())?;
    Ok((distinct.len(), flat))
}

/// The same for rows of any width, through slices of them.
fn sorted_slices(
    alloc: Global,
    flat: &[u32],
    arity: usize,
    count: usize,
) -> Result<(usize, Vec<u32>), AllocError>
    requires { length flat.now ≡ arity * count }
    ensures whole { IfOk result (λ r. length r.1.items ≡ arity * r.0) }
    ensures values { IfOk result (λ r. All (λ value. value < 2 ^ 32) r.1.items) }
    ensures ascending { IfOk result (λ r. IsAscending (rows_of arity r.0 r.1.items)) }
    ensures same { IfOk result (λ r. SameRows (rows_of arity r.0 r.1.items) (rows_of arity count flat.now)) }
{
    let mut slices: Vec<&[u32]> = Vec::with_capacity(alloc, count)?;
    for i in 0..count {
        slices.push(row_at(flat, arity, count, i))?;
    }
    slices.sort_unstable();
    slices.dedup();
    let distinct = slices.as_slice();
    let flat = joined(alloc, distinct, arity)?;
    Ok((distinct.len(), flat))
}

/// The rows one after another.
fn joined(alloc: Global, rows: &[&[u32]], arity: usize) -> Result<Vec<u32>, AllocError>
    requires { All (λ row. length row.now ≡ arity) rows.now }
    ensures whole { IfOk result (λ flat. length flat.items ≡ arity * length rows.now) }
    ensures rows { IfOk result (λ flat. rows_of arity (length rows.now) flat.items ≡ map
        (λ row. row.now) rows.now) }
{
    let mut flat = Vec::new(alloc);
    for row in rows {
        flat.extend_from_slice(*row)?;
    }
    Ok(flat)
}
