//! Names by first appearance, and the number that each occurrence has among them.

ghost use Rattle.std.specs.Prelude.{◌≡◌, ◌<◌, ◌^◌, length, map, Some, IfOk};
ghost use Rattle.pl_names.specs.Names.{texts, number_among, first_appearances};
ghost use Rattle.pl_names.specs.Entries.{earlier};

use crate::names::Names;
use std::alloc::{AllocError, Global};
use std::marker::Model;

/// Names as they occur one after another, with repeats, and the distinct ones of them by first appearance.
///
/// Contracts see it as the occurrences.
#[derive(Drop)]
pub struct Appearances<'a> {
    occurrences: Names<'a>,
    names: Vec<&'a [u8]>,
    numbers: Vec<u32>,
}

impl<'a> Model for Appearances<'a> {
    ghost use Rattle.std.specs.Prelude.{ℕ, List};
    ghost use Rattle.pl_names.specs.Entries.{AreNumbered};

    ghost Value = { List (List ℕ) };

    ghost view = { λ met. met.occurrences };

    ghost invariant = { λ met. AreNumbered met.occurrences met.names.items met.numbers.items };
}

impl<'a> Appearances<'a> {
    /// The distinct names of the occurrences. The time is that of a sort.
    ///
    /// The only error is want of memory. It gives the list up.
    pub fn of(alloc: Global, occurrences: Vec<&'a [u8]>) -> Result<Appearances<'a>, AllocError>
        requires { length occurrences.items < 2 ^ 32 }
        ensures { IfOk result (λ met. met ≡ texts occurrences.entry.items) }
    {
        let occurrences = Names::of(alloc, occurrences)?;
        let mut names = Vec::new(alloc);
        let mut numbers = Vec::with_capacity(alloc, occurrences.len())?;
        for (i, name) in occurrences.names().iter().enumerate() {
            let number = match earlier(&occurrences, *name, i) {
                Some(first) => numbers[first],
                None => {
                    names.push(*name)?;
                    (names.len() - 1) as u32
                }
            };
            numbers.push(number)?;
        }
        Ok(Appearances {
            occurrences,
            names,
            numbers,
        })
    }

    /// The distinct names, each where it first appears.
    pub fn names(&self) -> &[&'a [u8]]
        ensures { texts result.now ≡ first_appearances self.now }
    {
        self.names.as_slice()
    }

    /// For each occurrence the number of its name among the distinct names.
    pub fn numbers(&self) -> &[u32]
        ensures { map Some result.now ≡ map (number_among (first_appearances self.now)) self.now }
    {
        self.numbers.as_slice()
    }

    /// The number of a name among the distinct names, if it is one of them.
    pub fn find(&self, name: &[u8]) -> Option<u32>
        ensures { result ≡ number_among (first_appearances self.now) name.now }
    {
        match self.occurrences.find(name) {
            Some(first) => Some(self.numbers[first as usize]),
            None => None,
        }
    }
}

/// The first place of a name, if that is before the given one.
fn earlier(occurrences: &Names<'_>, name: &[u8], place: usize) -> Option<usize>
    ensures { result ≡ earlier occurrences.now name.now place }
{
    match occurrences.find(name) {
        Some(first) if (first as usize) < place => Some(first as usize),
        _ => None,
    }
}
