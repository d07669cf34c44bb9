//! The atoms of a state, as they lie in memory.

ghost use Rattle.std.specs.Prelude.{◌≡◌, ◌∷◌, ◌++◌, List, ℕ, IfOk};
ghost use Rattle.std.specs.Cmp as order;
ghost use Rattle.std.specs.Cmp.Lexicographic.{nat_list_eq_equiv};
ghost use Rattle.std.specs.Hash as fed;
ghost use Rattle.std.proofs.Common.{ap};
ghost use Rattle.pl_task.specs.declared.data.Atom.{Atom as AtomOf};
ghost use Rattle.pl_task.specs.States.{is_same};
ghost use Rattle.pl_task.proofs.StateLemmas.{same_atom};

use pl_task::Atom;
use smallvec::SmallVec;
use std::alloc::{AllocError, Global};
use std::hash::{Hash, Hasher};
use std::marker::Model;

/// A ground atom, equal, hashed and seen by contracts as one. Up to four objects take no memory of their own.
#[derive(Drop)]
pub struct Held {
    predicate: u32,
    objects: SmallVec<u32, 4>,
}

impl Model for Held {
    ghost use Rattle.pl_task.specs.declared.data.Atom.{Atom};

    ghost Value = { Atom };

    ghost view = { λ held. record { predicate = held.predicate; objects = held.objects.items } };
}

impl Held {
    /// The atom of a predicate and objects.
    pub fn new(predicate: u32, objects: SmallVec<u32, 4>) -> Held
        ensures { result ≡ record { predicate = predicate; objects = objects.items } }
    {
        Held { predicate, objects }
    }

    /// A copy of an atom.
    pub fn of(alloc: Global, atom: &Atom) -> Result<Held, AllocError>
        ensures { IfOk result (λ held. held ≡ atom.now) }
    {
        let objects = SmallVec::from_slice(alloc, atom.objects.as_slice())?;
        Ok(Held::new(atom.predicate, objects))
    }
}

impl PartialEq for Held {
    ghost eq = { is_same };

    ghost laws = { order.partial_equiv_from_equiv
        (order.on_equiv (λ (a : AtomOf). a.predicate ∷ a.objects) nat_list_eq_equiv) };

    #[inline]
    fn eq(&self, other: &Held) -> bool {
        if self.predicate != other.predicate {
            return false;
        }
        self.objects.as_slice() == other.objects.as_slice()
    }
}

impl Eq for Held {
    ghost laws = { order.on_equiv (λ (a : AtomOf). a.predicate ∷ a.objects) nat_list_eq_equiv };
}

impl Hash for Held {
    ghost hash_input = { λ a. fed.u32 a.predicate ++ fed.slice fed.u32 a.objects };

    ghost respects_eq = { λ a b h. ap (λ (x : AtomOf). fed.u32 x.predicate ++ fed.slice fed.u32 x.objects)
        (same_atom a b h) };

    #[inline]
    fn hash<H: Hasher>(&self, state: &mut H) {
        self.predicate.hash(state);
        self.objects.as_slice().hash(state);
    }
}
