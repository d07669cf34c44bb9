//! Sets of numbers below 64 as the bits of a word: of classes, and of edges that stand next to each other.

ghost use Rattle.std.specs.Prelude.{◌≡◌, ◌≢◌, ◌<◌, ◌⊎◌, ◌↔◌, ℕ};
ghost use Rattle.std.specs.Int.{bit_at};

/// The least member of a set that has one.
pub fn least_member(set: u64) -> u32
    requires { 0 < set }
    ensures below { result < 64 }
    ensures held { bit_at set result ≡ 1 }
    ensures least { (k : ℕ) → k < result → bit_at set k ≡ 1 → ⊥ }
{
    set.trailing_zeros()
}

/// The set without a number.
pub fn without_member(set: u64, member: u32) -> u64
    requires { member < 64 }
    ensures members { (k : ℕ) → (bit_at result k ≡ 1) ↔ ((bit_at set k ≡ 1) × (k ≢ member)) }
    ensures fewer { bit_at set member ≡ 1 → result < set }
{
    set & !(1 << member)
}

/// The set with a number.
pub fn with_member(set: u64, member: u32) -> u64
    requires { member < 64 }
    ensures { (k : ℕ) → (bit_at result k ≡ 1) ↔ ((bit_at set k ≡ 1) ⊎ (k ≡ member)) }
{
    set | 1 << member
}
