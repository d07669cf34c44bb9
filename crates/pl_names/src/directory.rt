//! A directory: where the entries begin whose keys have given first bits.

ghost use Rattle.std.specs.Prelude.{◌≡◌, ◌<◌, ◌≤◌, ◌^◌, length, IfOk};
ghost use Rattle.std.specs.List.Sorted.{IsSorted};
ghost use Rattle.pl_names.specs.Entries.{rank, IsDirectory, IsNarrowed, begins_below};

use crate::entries::Entry;
use std::alloc::{AllocError, Global};

/// By how many bits a key is shifted, so that its first bits have about as many values as the list has names.
pub fn shift_for(count: usize) -> u32
    ensures some { 0 < result }
    ensures fits { result < 64 }
{
    (count as u64).leading_zeros().clamp(1, 63)
}

/// For each number up to one more than the greatest first bits: how many entries have keys with lesser first
/// bits.
pub fn directory(alloc: Global, entries: &[Entry<'_>], shift: u32) -> Result<Vec<u32>, AllocError>
    requires some { 0 < shift }
    requires fits { shift < 64 }
    requires few { length entries.now < 2 ^ 32 }
    requires ordered { IsSorted rank entries.now }
    ensures { IfOk result (λ starts. IsDirectory entries.now shift starts.items) }
{
    let last = u64::MAX >> shift;
    let mut starts = Vec::new(alloc);
    let mut place = 0;
    // One part more than keys have: all entries are below it.
    for part in 0..last + 2 {
        place = first_from(entries, shift, part, place);
        starts.push(place as u32)?;
    }
    Ok(starts)
}

/// How many entries have keys whose first bits are below the part, where those before `place` are known to
/// have.
fn first_from(entries: &[Entry<'_>], shift: u32, part: u64, mut place: usize) -> usize
    requires shift { shift < 64 }
    requires ordered { IsSorted rank entries.now }
    requires within { place ≤ length entries.now }
    requires before { IsNarrowed (begins_below shift part) entries.now place (length entries.now) }
    ensures within { result ≤ length entries.now }
    ensures narrowed { IsNarrowed (begins_below shift part) entries.now result result }
{
    while place < entries.len() && entries[place].key >> shift < part {
        place += 1;
    }
    place
}
