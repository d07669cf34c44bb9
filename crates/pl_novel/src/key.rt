//! The key of an atom.

ghost use Rattle.std.specs.Prelude.{◌≡◌, ◌∷◌, ◌++◌, [], nat_eq, length, map, All, IfOk, OnOk};
ghost use Rattle.std.specs.Cmp as order;
ghost use Rattle.std.specs.Hash as fed;
ghost use Rattle.std.specs.Cmp.Lexicographic.{pointwise, nat_list_eq_equiv};
ghost use Rattle.std.specs.Cmp.Rules.{hashing};
ghost use Rattle.std.proofs.Common.{rules};
ghost use Rattle.pl_task.specs.States.{value_of};
ghost use Rattle.pl_state.specs.Changing.{HasValue};
ghost use Rattle.pl_novel.specs.Keys.{key_under};

use pl_task::{Lifted, Term};
use std::alloc::{AllocError, Global};
use std::hash::{Hash, Hasher};
use std::marker::Model;

/// An atom as one list of words: its predicate, then its objects. Equal, hashed and seen by contracts as
/// these.
#[derive(Drop)]
pub(crate) struct Key {
    words: Vec<u32>,
}

impl Model for Key {
    ghost use Rattle.std.specs.Prelude.{List, ℕ};

    ghost Value = { List ℕ };

    ghost view = { λ key. key.words.items };
}

impl Key {
    /// A key without words. Takes no memory.
    pub(crate) fn new(alloc: Global) -> Key
        ensures { result ≡ [] }
    {
        Key {
            words: Vec::new(alloc),
        }
    }

    /// Makes this the key of an atom, in the memory that it has as far as that goes.
    pub(crate) fn set(&mut self, predicate: u32, objects: &[u32]) -> Result<(), AllocError>
        ensures { OnOk result (self.new ≡ predicate ∷ objects.now) }
    {
        self.words.clear();
        self.words.push(predicate)?;
        self.words.extend_from_slice(objects)?;
        Ok(())
    }

    /// Makes this the key of the atom that an effect names under the arguments, in the same way.
    pub(crate) fn set_under(&mut self, args: &[u32], effect: &Lifted) -> Result<(), AllocError>
        requires { All (HasValue (length args.now)) effect.now.terms }
        ensures { OnOk result (self.new ≡ key_under args.now effect.now) }
    {
        self.words.clear();
        self.words.push(effect.predicate)?;
        write_values(&mut self.words, args, effect.terms.as_slice())?;
        Ok(())
    }

    /// A copy. The only error is want of memory.
    pub(crate) fn copy(&self, alloc: Global) -> Result<Key, AllocError>
        ensures { IfOk result (λ key. key ≡ self.now) }
    {
        let words = Vec::from_slice(alloc, self.words())?;
        Ok(Key { words })
    }

    #[inline]
    fn words(&self) -> &[u32]
        ensures { result.now ≡ self.now }
    {
        self.words.as_slice()
    }
}

/// Appends the objects that the terms stand for.
fn write_values(words: &mut Vec<u32>, args: &[u32], terms: &[Term]) -> Result<(), AllocError>
    requires { All (HasValue (length args.now)) terms.now }
    ensures { OnOk result (words.new.items ≡ words.old.items ++ map (value_of args.now) terms.now) }
{
    for i in 0..terms.len() {
        words.push(value(args, terms[i]))?;
    }
    Ok(())
}

/// The object that a term stands for.
#[inline]
fn value(args: &[u32], term: Term) -> u32
    requires { HasValue (length args.now) term }
    ensures { result ≡ value_of args.now term }
{
    match term {
        Term::Parameter(n) => args[n as usize],
        Term::Object(n) => n,
    }
}

impl PartialEq for Key {
    ghost eq = { pointwise nat_eq };

    ghost laws = { order.partial_equiv_from_equiv nat_list_eq_equiv };

    #[inline]
    fn eq(&self, other: &Key) -> bool {
        self.words() == other.words()
    }
}

impl Eq for Key {
    ghost laws = { nat_list_eq_equiv };
}

impl Hash for Key {
    ghost hash_input = { fed.slice fed.u32 };

    ghost respects_eq = { Prim.search (hashing, rules) };

    #[inline]
    fn hash<H: Hasher>(&self, state: &mut H) {
        self.words().hash(state);
    }
}
