//! Names, and the number that each has.

ghost use Rattle.std.specs.Prelude.{◌≡◌, ◌≤◌, ◌<◌, ◌^◌, length, IfOk};
ghost use Rattle.pl_names.specs.Names.{texts, number_among};

use crate::directory::{directory, shift_for};
use crate::entries::{Entry, bisect, entries_of, key_of, number_at};
use std::alloc::{AllocError, Global};
use std::marker::Model;

/// Names that are known by their places in a list. A name that stands there twice has the first of its
/// places.
///
/// A look-up hashes the name, goes to the few entries whose keys begin alike, and bisects those. Most
/// look-ups compare bytes once. Names that are chosen so that all keys are equal cost a bisection by bytes,
/// and never a walk.
#[derive(Drop)]
pub struct Names<'a> {
    list: Vec<&'a [u8]>,
    entries: Vec<Entry<'a>>,
    starts: Vec<u32>,
    shift: u32,
}

impl<'a> Model for Names<'a> {
    ghost use Rattle.std.specs.Prelude.{ℕ, List};
    ghost use Rattle.pl_names.specs.Names.{texts};
    ghost use Rattle.pl_names.specs.Entries.{AreIndexed};

    ghost Value = { List (List ℕ) };

    ghost view = { λ names. texts names.list.items };

    ghost invariant = { λ names. AreIndexed names.list.items names.entries.items
        names.shift names.starts.items };
}

impl<'a> Names<'a> {
    /// The names of a list. The time is that of a sort.
    ///
    /// The only error is want of memory. It gives the list up.
    pub fn of(alloc: Global, names: Vec<&'a [u8]>) -> Result<Names<'a>, AllocError>
        requires { length names.items < 2 ^ 32 }
        ensures { IfOk result (λ made. made ≡ texts names.entry.items) }
    {
        let entries = entries_of(alloc, names.as_slice())?;
        let shift = shift_for(names.len());
        let starts = directory(alloc, entries.as_slice(), shift)?;
        Ok(Names {
            list: names,
            entries,
            starts,
            shift,
        })
    }

    /// The number of a name, if it is one of the names.
    pub fn find(&self, name: &[u8]) -> Option<u32>
        ensures { result ≡ number_among self.now name.now }
    {
        let key = key_of(name);
        let part = (key >> self.shift) as usize;
        let low = self.starts[part] as usize;
        let high = self.starts[part + 1] as usize;
        let entries = self.entries.as_slice();
        // Below the empty name no bytes are compared.
        let first = bisect(entries, key, b"", low, high);
        let found = number_at(entries, first, name);
        if found.is_some() {
            return found;
        }
        let place = bisect(entries, key, name, first, high);
        number_at(entries, place, name)
    }

    /// The names, in the order in which they were given.
    pub fn names(&self) -> &[&'a [u8]]
        ensures names { texts result.now ≡ self.now }
        ensures few { length result.now < 2 ^ 32 }
    {
        self.list.as_slice()
    }

    /// How many names there are, with repeats.
    pub fn len(&self) -> usize
        ensures len { result ≡ length self.now }
        ensures few { result < 2 ^ 32 }
    {
        self.list.len()
    }
}
