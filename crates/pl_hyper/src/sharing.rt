//! The classes that at least two of the remaining edges hold.

ghost use Rattle.std.specs.Prelude.{◌≡◌, ◌≢◌, ◌≤◌, ◌<◌, ◌*◌, ◌^◌, ◌↔◌, ℕ, List, length, All, AllPairs};
ghost use Rattle.std.specs.Prelude.{Contains};
ghost use Rattle.std.specs.Int.{bit_at};
ghost use Rattle.pl_hyper.specs.Edges.{Holds};
ghost use Rattle.pl_hyper.specs.Search.{AreShared, IsShared};
ghost use Rattle.pl_hyper.specs.Holders.{AreHolders, AreSharedBut};

use crate::holders::Holders;
use crate::search::first_parent;
use crate::sets::{least_member, with_member, without_member};

/// The classes that at least two of the remaining edges hold.
pub fn shared_classes(edges: &[u64], remaining: &[u32]) -> u64
    requires within { All (λ e. e < length edges.now) remaining.now }
    requires rising { AllPairs (λ e f. e < f) remaining.now }
    ensures { AreShared edges.now remaining.now result }
{
    let mut once = 0;
    let mut twice = 0;
    for e in remaining {
        let classes = edges[*e as usize];
        twice |= once & classes;
        once |= classes;
    }
    twice
}

/// The shared classes but those asked about that no remaining edge other than `holder` holds.
///
/// When an ear has left, `shared` were the shared classes, those of the ear among them are asked about, and
/// `holder` is its parent. So the work is that of the classes of one edge.
pub fn still_shared(holders: &Holders, holder: u32, asked: u64, shared: u64) -> u64
    requires many { length holders.now.words.items ≡ 64 * length holders.now.present.items }
    requires few { 64 * length holders.now.present.items ≤ 2 ^ 32 }
    ensures { (edges remaining : List ℕ)
        → AreHolders edges remaining holders.now.words.items holders.now.present.items
        → AreSharedBut edges remaining holder asked shared → AreShared edges remaining result }
{
    let mut left = asked;
    let mut still = shared;
    while left != 0 {
        let class = least_member(left);
        still = without_unshared(holders, holder, class, still);
        left = without_member(left, class);
    }
    still
}

/// The classes without this one, if no remaining edge other than the holder holds it.
fn without_unshared(holders: &Holders, holder: u32, class: u32, shared: u64) -> u64
    requires class { class < 64 }
    requires many { length holders.now.words.items ≡ 64 * length holders.now.present.items }
    requires few { 64 * length holders.now.present.items ≤ 2 ^ 32 }
    ensures others { (k : ℕ) → k ≢ class → (bit_at result k ≡ 1) ↔ (bit_at shared k ≡ 1) }
    ensures decided { (edges remaining : List ℕ)
        → AreHolders edges remaining holders.now.words.items holders.now.present.items
        → Contains remaining holder → Holds edges holder class → bit_at shared class ≡ 1
        → (bit_at result class ≡ 1) ↔ IsShared edges remaining class }
{
    match first_parent(holders, holder, with_member(0, class)) {
        Some(_) => shared,
        None => without_member(shared, class),
    }
}
