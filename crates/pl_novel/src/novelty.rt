//! The noted sets of a search.

ghost use Rattle.std.specs.Prelude.{◌≡◌, ◌↔◌, ◌≤◌, [], IsTrue, IfOk, OnOk, OnErr};
ghost use Rattle.pl_task.specs.States.{IsStep};
ghost use Rattle.pl_state.specs.StateOf.{state_in, IsStateOf};
ghost use Rattle.pl_novel.specs.Noting.{Noted, AreNoted, HasNewSet, NotesState, FollowsNoted};
ghost use Rattle.pl_novel.specs.Keys.{has_grown as has_grown_of};

use crate::adding::note_added;
use crate::key::Key;
use crate::numbering::number_state;
use crate::pair::Pair;
use crate::pairing::note_pairs;
use indexmap::IndexSet;
use pl_state::Packed;
use pl_task::{StepRef, Task};
use std::alloc::{AllocError, Global};
use std::marker::Model;

/// The sets of 1 to `width` fluent atoms that are noted. Contracts see the width and the list of these sets.
///
/// An atom is noted where it has a number, and a set of two as the pair of their numbers. It keeps the
/// allocator.
#[derive(Drop)]
pub struct Novelty {
    alloc: Global,
    k: u32,
    atoms: IndexSet<Key>,
    doubles: IndexSet<Pair>,
    /// The key that was looked up last, kept for its memory.
    scratch: Key,
    /// The numbers of the atoms of the last state, kept for their memory.
    numbers: Vec<usize>,
    /// The numbers of the atoms that the last step added, kept for their memory.
    added: Vec<usize>,
}

impl Model for Novelty {
    ghost use Rattle.pl_novel.specs.Noting.{Noted};
    ghost use Rattle.pl_novel.specs.Keys.{IsKept, noted_by};

    ghost Value = { Noted };

    ghost view = { λ n. noted_by n.k n.atoms.keys n.doubles.keys };

    ghost invariant = { λ n. IsKept n.k n.atoms.keys n.doubles.keys };
}

impl Novelty {
    /// Notes sets of 1 to `k` atoms, none so far. Takes no memory.
    pub fn new(alloc: Global, k: u32) -> Novelty
        requires some { 1 ≤ k }
        requires few { k ≤ 2 }
        ensures width { result.width ≡ k }
        ensures none { result.sets ≡ [] }
        ensures sets { AreNoted result }
    {
        Novelty {
            alloc,
            k,
            atoms: IndexSet::new(alloc),
            doubles: IndexSet::new(alloc),
            scratch: Key::new(alloc),
            numbers: Vec::new(alloc),
            added: Vec::new(alloc),
        }
    }

    /// Whether a set of 1 to `k` of the state's fluent atoms is not noted; then all of them are. Where memory
    /// is wanting, the noted sets are those that were.
    pub fn note(&mut self, task: &Task, state: &Packed) -> Result<bool, AllocError>
        requires { IsStateOf task.now state.now }
        ensures yes { IfOk result
            (λ answer. IsTrue answer ↔ HasNewSet task.now self.old (state_in task.now state.now)) }
        ensures noted { OnOk result (NotesState task.now (state_in task.now state.now) self.old self.new) }
        ensures err { OnErr result (self.new ≡ self.old) }
        ensures sets { AreNoted self.new }
    {
        let atoms = self.atoms.len();
        let doubles = self.doubles.len();
        match number_state(
            self.alloc,
            &mut self.atoms,
            &mut self.scratch,
            &mut self.numbers,
            task,
            state,
        ) {
            Ok(()) => {}
            Err(e) => {
                self.atoms.truncate(atoms);
                return Err(e);
            }
        }
        match note_pairs(self.k, &mut self.doubles, self.numbers.as_slice()) {
            Ok(()) => {}
            Err(e) => {
                self.doubles.truncate(doubles);
                self.atoms.truncate(atoms);
                return Err(e);
            }
        }
        Ok(has_grown(atoms, self.atoms.len(), doubles, self.doubles.len()))
    }

    /// The same for a state that the step leads to from one whose sets are all noted. It looks only at the
    /// sets that have an atom which the step adds: the others are sets of the state before it.
    pub fn note_step(
        &mut self,
        task: &Task,
        state: &Packed,
        step: StepRef<'_>,
    ) -> Result<bool, AllocError>
        requires state { IsStateOf task.now state.now }
        requires step { IsStep task.now (record { schema = step.schema; args = step.args.now }) }
        requires follows { FollowsNoted task.now self.old (state_in task.now state.now)
            (record { schema = step.schema; args = step.args.now }) }
        ensures yes { IfOk result
            (λ answer. IsTrue answer ↔ HasNewSet task.now self.old (state_in task.now state.now)) }
        ensures noted { OnOk result (NotesState task.now (state_in task.now state.now) self.old self.new) }
        ensures err { OnErr result (self.new ≡ self.old) }
        ensures sets { AreNoted self.new }
    {
        let atoms = self.atoms.len();
        let pairs = self.doubles.len();
        match note_added(
            self.alloc,
            self.k,
            &mut self.atoms,
            &mut self.doubles,
            &mut self.scratch,
            &mut self.numbers,
            &mut self.added,
            task,
            state,
            step,
        ) {
            Ok(()) => {}
            Err(e) => {
                self.doubles.truncate(pairs);
                self.atoms.truncate(atoms);
                return Err(e);
            }
        }
        Ok(has_grown(atoms, self.atoms.len(), pairs, self.doubles.len()))
    }
}

/// Whether one of two counts has grown.
#[inline]
fn has_grown(atoms: usize, more_atoms: usize, doubles: usize, more_doubles: usize) -> bool
    ensures { result ≡ has_grown_of atoms more_atoms doubles more_doubles }
{
    (atoms < more_atoms) | (doubles < more_doubles)
}
