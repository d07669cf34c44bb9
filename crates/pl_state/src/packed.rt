//! A packed state.

ghost use Rattle.std.specs.Prelude.{◌≡◌, nat_eq};
ghost use Rattle.std.specs.Cmp as order;
ghost use Rattle.std.specs.Cmp.Lexicographic.{pointwise, nat_list_eq_equiv};
ghost use Rattle.std.specs.Cmp.Rules.{hashing};
ghost use Rattle.std.proofs.Common.{rules};
ghost use Rattle.pl_state.specs.Feeding.{fed_words};

use crate::comparing::are_equal;
use crate::hashing::feed;
use std::hash::{Hash, Hasher};
use std::marker::Model;

/// A state of a task in as few words as its fluent atoms need. Equal, hashed and seen by contracts as its
/// words.
///
/// For each fluent predicate by rising number there is the number of its true atoms, then for each of these,
/// in ascending order, the numbers of its objects. Static atoms are not kept. So equal states have equal
/// words.
#[derive(Debug, Drop)]
pub struct Packed {
    words: Vec<u32>,
}

impl Model for Packed {
    ghost use Rattle.std.specs.Prelude.{List, ℕ};

    ghost Value = { List ℕ };

    ghost view = { λ packed. packed.words.items };
}

impl Packed {
    /// The state of these words.
    pub(crate) fn of(words: Vec<u32>) -> Packed
        ensures { result ≡ words.items }
    {
        Packed { words }
    }

    /// The words.
    #[inline]
    pub fn words(&self) -> &[u32]
        ensures { result.now ≡ self.now }
    {
        self.words.as_slice()
    }
}

impl PartialEq for Packed {
    ghost eq = { pointwise nat_eq };

    ghost laws = { order.partial_equiv_from_equiv nat_list_eq_equiv };

    #[inline]
    fn eq(&self, other: &Packed) -> bool {
        are_equal(self.words(), other.words())
    }
}

impl Eq for Packed {
    ghost laws = { nat_list_eq_equiv };
}

impl Hash for Packed {
    ghost hash_input = { fed_words };

    ghost respects_eq = { Prim.search (hashing, rules) };

    #[inline]
    fn hash<H: Hasher>(&self, state: &mut H) {
        feed(self.words(), state);
    }
}
