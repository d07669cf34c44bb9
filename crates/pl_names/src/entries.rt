//! Entries: the places of a list of names, in order of the names' keys.

ghost use Rattle.std.specs.Prelude.{◌≡◌, ◌<◌, ◌≤◌, ◌^◌, length, IfOk};
ghost use Rattle.pl_names.specs.Names.{texts};
ghost use Rattle.pl_names.specs.Entries.{key_of, rank, AreEntriesOf, is_below, number_at, IsNarrowed};
ghost use Rattle.std.specs.List.Sorted.{IsSorted};

use std::alloc::{AllocError, Global};
use std::hash::{FoldHasher, Hasher};

/// One place of a list of names: the key of its name, the name, and the place's number.
///
/// The fields stand in the order in which entries are compared.
#[derive(Clone, Copy, PartialEq, Eq, PartialOrd, Ord)]
pub struct Entry<'a> {
    pub key: u64,
    pub name: &'a [u8],
    pub number: u32,
}

/// The key of a name: a hash of its bytes.
#[inline]
pub fn key_of(name: &[u8]) -> u64
    ensures { result ≡ key_of name.now }
{
    let mut hasher = FoldHasher::default();
    hasher.write(name);
    hasher.finish()
}

/// The entries of all places, in order. The time is that of a sort.
pub fn entries_of<'a>(alloc: Global, names: &[&'a [u8]]) -> Result<Vec<Entry<'a>>, AllocError>
    requires { length names.now < 2 ^ 32 }
    ensures entries { IfOk result (λ entries. AreEntriesOf (texts names.now) entries.items) }
    ensures count { IfOk result (λ entries. length entries.items ≡ length names.now) }
{
    let mut entries = Vec::with_capacity(alloc, names.len())?;
    for (i, name) in names.iter().enumerate() {
        entries.push(Entry {
            key: key_of(*name),
            name: *name,
            number: i as u32,
        })?;
    }
    entries.sort_unstable();
    Ok(entries)
}

/// How many entries are below those of a key and a name.
///
/// That the entries before `low` are below them, and those from `high` on are not, is known.
#[inline]
pub fn bisect(
    entries: &[Entry<'_>],
    key: u64,
    name: &[u8],
    mut low: usize,
    mut high: usize,
) -> usize
    requires ordered { IsSorted rank entries.now }
    requires in_order { low ≤ high }
    requires within { high ≤ length entries.now }
    requires narrowed { IsNarrowed (is_below key name.now) entries.now low high }
    ensures from { low ≤ result }
    ensures to { result ≤ high }
    ensures narrowed { IsNarrowed (is_below key name.now) entries.now result result }
{
    while low < high {
        let middle = low + (high - low) / 2;
        if is_below(entries[middle], key, name) {
            low = middle + 1;
        } else {
            high = middle;
        }
    }
    low
}

#[inline]
fn is_below(entry: Entry<'_>, key: u64, name: &[u8]) -> bool
    ensures { result ≡ is_below key name.now entry.entry }
{
    if entry.key != key {
        return entry.key < key;
    }
    entry.name.cmp(name).is_lt()
}

/// The number of the entry at a place, if it is of the name.
#[inline]
pub fn number_at(entries: &[Entry<'_>], place: usize, name: &[u8]) -> Option<u32>
    ensures { result ≡ number_at entries.now place name.now }
{
    if place < entries.len() {
        let entry = entries[place];
        if entry.name == name {
            return Some(entry.number);
        }
    }
    None
}
