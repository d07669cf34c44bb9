//! Pairs of the numbers of a state's atoms: all of them, or those with one of some numbers.

ghost use Rattle.std.specs.Prelude.{◌≡◌, map, OnOk};
ghost use Rattle.pl_novel.specs.Keys.{pair_of, pairs_by, pairs_under, pairs_around, pairs_with, with_all};
ghost use Rattle.pl_novel.specs.Keys.{Extends};

use crate::pair::Pair;
use indexmap::IndexSet;
use std::alloc::AllocError;

/// Under width 2 puts each pair of a number and a later one behind the others, those aside that are there;
/// under width 1 nothing.
pub(crate) fn note_pairs(
    width: u32,
    pairs: &mut IndexSet<Pair>,
    numbers: &[usize],
) -> Result<(), AllocError>
    ensures ok { OnOk result
        (pairs.new.keys ≡ with_all pairs.old.keys (pairs_under width pair_of numbers.now)) }
    ensures extends { Extends pairs.old.keys pairs.new.keys }
{
    if width < 2 {
        return Ok(());
    }
    note_all(pairs, numbers)
}

/// The same under width 2.
fn note_all(pairs: &mut IndexSet<Pair>, numbers: &[usize]) -> Result<(), AllocError>
    ensures ok { OnOk result (pairs.new.keys ≡ with_all pairs.old.keys (pairs_by pair_of numbers.now)) }
    ensures extends { Extends pairs.old.keys pairs.new.keys }
{
    for i in 0..numbers.len() {
        note_with(pairs, numbers[i], &numbers[i + 1..])?;
    }
    Ok(())
}

/// The pairs of one number with each of the others.
fn note_with(pairs: &mut IndexSet<Pair>, first: usize, others: &[usize]) -> Result<(), AllocError>
    ensures ok { OnOk result (pairs.new.keys ≡ with_all pairs.old.keys (map (pair_of first) others.now)) }
    ensures extends { Extends pairs.old.keys pairs.new.keys }
{
    for second in others {
        pairs.insert(Pair::of(first, *second))?;
    }
    Ok(())
}

/// Puts the pairs of each of the numbers `added` with the others of the list behind those that are there.
pub(crate) fn note_pairs_with(
    pairs: &mut IndexSet<Pair>,
    numbers: &[usize],
    added: &[usize],
) -> Result<(), AllocError>
    ensures ok { OnOk result (pairs.new.keys ≡ with_all pairs.old.keys (pairs_with numbers.now added.now)) }
    ensures extends { Extends pairs.old.keys pairs.new.keys }
{
    for number in added {
        note_around(pairs, numbers, *number)?;
    }
    Ok(())
}

/// The pairs of one number with the others of the list.
fn note_around(
    pairs: &mut IndexSet<Pair>,
    numbers: &[usize],
    number: usize,
) -> Result<(), AllocError>
    ensures ok { OnOk result (pairs.new.keys ≡ with_all pairs.old.keys (pairs_around numbers.now number)) }
    ensures extends { Extends pairs.old.keys pairs.new.keys }
{
    for place in 0..numbers.len() {
        if numbers[place] == number {
            return note_with(pairs, number, &numbers[place + 1..]);
        }
        pairs.insert(Pair::of(numbers[place], number))?;
    }
    Ok(())
}
