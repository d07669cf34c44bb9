//! The parents and steps of registered states, in flat lists: a step takes its numbers and no more.

ghost use Rattle.std.specs.Prelude.{◌≡◌, ◌+◌, ◌-◌, ◌<◌, ◌≤◌, ◌++◌, ◌∷◌, [], length, take, drop, slice_index};
ghost use Rattle.std.specs.Prelude.{OnOk, OnErr};
ghost use Rattle.pl_registry.specs.Links.{Link, link_at, begin_of};

use pl_task::StepRef;
use std::alloc::{AllocError, Global};
use std::marker::Model;

/// For each entry by its number the parent and the step. Contracts see the list of these.
#[derive(Drop)]
pub(crate) struct Links {
    parents: Vec<u32>,
    /// Where in `words` the step of each entry ends.
    ends: Vec<usize>,
    /// The steps one after another: the schema, then the objects.
    words: Vec<u32>,
}

impl Model for Links {
    ghost use Rattle.std.specs.Prelude.{List as ListOf, length};
    ghost use Rattle.pl_registry.specs.Links.{Link, links_from, AreLaidOut};

    ghost Value = { ListOf Link };

    ghost view = { λ l. links_from 0 l.parents.items l.ends.items l.words.items };

    ghost invariant = { λ l. AreLaidOut 0 l.parents.items l.ends.items (length l.words.items) };
}

impl Links {
    /// No links. Takes no memory.
    pub(crate) fn new(alloc: Global) -> Links
        ensures { result ≡ [] }
    {
        Links {
            parents: Vec::new(alloc),
            ends: Vec::new(alloc),
            words: Vec::new(alloc),
        }
    }

    /// Adds a link, or leaves all as it was.
    pub(crate) fn push(&mut self, parent: u32, step: StepRef<'_>) -> Result<(), AllocError>
        requires { length step.args.now ≤ 64 }
        ensures ok { OnOk result
            (self.new ≡ self.old
            ++ record {
              parent = parent;
              step =
                  record { schema = step.entry.schema; args = step.entry.args.now };
            } ∷ []) }
        ensures err { OnErr result (self.new ≡ self.old) }
    {
        let before = self.words.len();
        self.words.push(step.schema)?;
        match self.words.extend_from_slice(step.args) {
            Ok(()) => {}
            Err(e) => {
                self.words.truncate(before);
                return Err(e);
            }
        }
        match self.ends.push(self.words.as_slice().len()) {
            Ok(()) => {}
            Err(e) => {
                self.words.truncate(before);
                return Err(AllocError::from(e));
            }
        }
        match self.parents.push(parent) {
            Ok(()) => Ok(()),
            Err(e) => {
                self.words.truncate(before);
                self.ends.pop();
                Err(AllocError::from(e))
            }
        }
    }

    /// The parent of an entry.
    #[inline]
    pub(crate) fn parent(&self, n: usize) -> u32
        requires { n < length self.now }
        ensures { result ≡ (link_at self.now n).parent }
    {
        self.parents[n]
    }

    /// The step that led to an entry.
    pub(crate) fn step(&self, n: usize) -> StepRef<'_>
        requires { n < length self.now }
        ensures schema { result.schema ≡ (link_at self.now n).step.schema }
        ensures args { result.args.now ≡ (link_at self.now n).step.args }
        ensures few { length result.args.now ≤ 64 }
    {
        let words = part(&self.ends, &self.words, n);
        StepRef {
            schema: words[0],
            args: &words[1..],
        }
    }
}

/// The words of the step of an entry.
fn part<'a>(ends: &[usize], words: &'a [u32], n: usize) -> &'a [u32]
    requires n { n < length ends.now }
    requires begins { begin_of 0 ends.now n < slice_index ends.now n }
    requires narrow { slice_index ends.now n ≤ begin_of 0 ends.now n + 65 }
    requires within { slice_index ends.now n ≤ length words.now }
    ensures some { 0 < length result.now }
    ensures few { length result.now ≤ 65 }
    ensures part { result.now ≡ take (slice_index ends.now n - begin_of 0 ends.now n)
        (drop (begin_of 0 ends.now n) words.now) }
{
    let start = if n == 0 { 0 } else { ends[n - 1] };
    &words[start..ends[n]]
}
