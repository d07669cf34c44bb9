//! Numbers for lists: lists that are equal have one number.

ghost use Rattle.std.specs.Prelude.{◌≡◌, ◌<◌, length, IfOk, OnOk};
ghost use Rattle.pl_normal.specs.Kinds.{lists_of, IsNumberOf, IsNumbering, AreKnown, GoesOn};

use std::alloc::{AllocError, Global};
use std::collections::BTreeMap;

/// Numbers for the lists of a sequence.
#[derive(Drop)]
pub struct Numbering {
    /// For each list its number.
    pub numbers: Vec<usize>,
    /// For each number the place of the first list that has it.
    pub firsts: Vec<usize>,
}

/// Numbers for the lists, from 0 on by first appearance. The time is that of a sort.
pub fn number_lists<'a>(alloc: Global, lists: &[&'a [u32]]) -> Result<Numbering, AllocError>
    ensures { IfOk result (λ n. IsNumbering (lists_of lists.now) n.numbers.items n.firsts.items) }
{
    let mut known = BTreeMap::new(alloc);
    let mut firsts = Vec::new(alloc);
    let mut numbers = Vec::with_capacity(alloc, lists.len())?;
    for i in 0..lists.len() {
        numbers.push(number_of(&mut known, &mut firsts, lists, i)?)?;
    }
    Ok(Numbering { numbers, firsts })
}

/// The number of the list at a place: that of an equal list before it, or a new one.
fn number_of<'a>(
    known: &mut BTreeMap<&'a [u32], usize>,
    firsts: &mut Vec<usize>,
    lists: &[&'a [u32]],
    place: usize,
) -> Result<usize, AllocError>
    requires place { place < length lists.now }
    requires known { AreKnown (lists_of lists.now) known.old firsts.old.items }
    ensures known { OnOk result (AreKnown (lists_of lists.now) known.new firsts.new.items) }
    ensures goes_on { OnOk result (GoesOn firsts.old.items firsts.new.items) }
    ensures number { IfOk result (IsNumberOf (lists_of lists.now) firsts.new.items place) }
{
    let list = lists[place];
    if let Some(number) = known.get(&list) {
        return Ok(*number);
    }
    let number = firsts.len();
    firsts.push(place)?;
    let _ = known.insert(list, number)?;
    Ok(number)
}
