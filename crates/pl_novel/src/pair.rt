//! A set of two atoms by their numbers.

ghost use Rattle.std.specs.Prelude.{◌≡◌, nat_eq};
ghost use Rattle.std.specs.Cmp as order;
ghost use Rattle.std.specs.Cmp.Lexicographic.{pointwise, nat_list_eq_equiv};
ghost use Rattle.std.specs.Cmp.Rules.{hashing};
ghost use Rattle.std.proofs.Common.{rules};
ghost use Rattle.pl_novel.specs.Feeding.{fed_pair, joined as joined_of};
ghost use Rattle.pl_novel.specs.Keys.{pair_of};

use std::hash::{Hash, Hasher};
use std::marker::Model;

/// The numbers of two atoms, that of the lesser atom first. Equal, hashed and seen by contracts as the list
/// of both.
#[derive(Drop)]
pub(crate) struct Pair {
    first: usize,
    second: usize,
}

impl Model for Pair {
    ghost use Rattle.std.specs.Prelude.{List, ℕ};
    ghost use Rattle.pl_novel.specs.Keys.{pair_of};

    ghost Value = { List ℕ };

    ghost view = { λ pair. pair_of pair.first pair.second };
}

impl Pair {
    /// The pair of two numbers.
    #[inline]
    pub(crate) fn of(first: usize, second: usize) -> Pair
        ensures { result ≡ pair_of first second }
    {
        Pair { first, second }
    }
}

impl PartialEq for Pair {
    ghost eq = { pointwise nat_eq };

    ghost laws = { order.partial_equiv_from_equiv nat_list_eq_equiv };

    #[inline]
    fn eq(&self, other: &Pair) -> bool {
        (self.first == other.first) & (self.second == other.second)
    }
}

impl Eq for Pair {
    ghost laws = { nat_list_eq_equiv };
}

impl Hash for Pair {
    ghost hash_input = { fed_pair };

    ghost respects_eq = { Prim.search (hashing, rules) };

    #[inline]
    fn hash<H: Hasher>(&self, state: &mut H) {
        state.write_u128(joined(self.first, self.second));
    }
}

/// Both numbers as one, the first the lower half: a hasher takes it in about the time of one word.
#[inline]
fn joined(first: usize, second: usize) -> u128
    ensures { result ≡ joined_of first second }
{
    first as u128 + second as u128 * 0x1_0000_0000_0000_0000
}
