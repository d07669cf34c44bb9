//! The search for the next ear among the edges that remain.

ghost use Rattle.std.specs.Prelude.{◌≡◌, ◌≢◌, ◌≤◌, ◌<◌, ◌+◌, ◌*◌, ◌^◌, ◌↔◌, ℕ, List, length, All};
ghost use Rattle.std.specs.Prelude.{slice_index, IfSome, IfNone};
ghost use Rattle.std.specs.Int.{bit_at};
ghost use Rattle.pl_hyper.specs.Ears.{IsEar};
ghost use Rattle.pl_hyper.specs.Search.{AreShared, IsParent, IsFirstParent, IsEarAt};
ghost use Rattle.pl_hyper.specs.Holders.{AreHolders};

use crate::holders::{Holders, common_holders};
use crate::sets::{least_member, without_member};

/// The first remaining edge other than `edge` that holds all of the classes.
pub fn first_parent(holders: &Holders, edge: u32, classes: u64) -> Option<u32>
    requires many { length holders.now.words.items ≡ 64 * length holders.now.present.items }
    requires few { 64 * length holders.now.present.items ≤ 2 ^ 32 }
    ensures first { (edges remaining : List ℕ)
        → AreHolders edges remaining holders.now.words.items holders.now.present.items
        → IfSome result (IsFirstParent edges remaining edge classes) }
    ensures none { (edges remaining : List ℕ)
        → AreHolders edges remaining holders.now.words.items holders.now.present.items
        → IfNone result ((f : ℕ) → IsParent edges remaining edge classes f → ⊥) }
{
    for block in 0..holders.present.len() {
        let others = without_edge(common_holders(holders, block, classes), block, edge);
        if others != 0 {
            return Some(block as u32 * 64 + least_member(others));
        }
    }
    None
}

/// The edges of a block but this one.
fn without_edge(found: u64, block: usize, edge: u32) -> u64
    ensures { (place : ℕ) → place < 64 → (bit_at result place ≡ 1)
        ↔ ((bit_at found place ≡ 1) × (edge ≢ block * 64 + place)) }
{
    if edge as usize / 64 != block {
        return found;
    }
    without_member(found, edge % 64)
}

/// The place among the remaining edges, from `from` on, of the first one that is an ear, and its first
/// parent.
///
/// `shared` are the classes that at least two remaining edges hold.
pub fn first_ear(
    edges: &[u64],
    remaining: &[u32],
    holders: &Holders,
    from: usize,
    shared: u64,
) -> Option<(usize, u32)>
    requires within { All (λ e. e < length edges.now) remaining.now }
    requires start { from ≤ length remaining.now }
    requires holders { AreHolders edges.now remaining.now holders.now.words.items holders.now.present.items }
    requires shared { AreShared edges.now remaining.now shared }
    ensures first { IfSome result (λ found. IsEarAt edges.now remaining.now from found.0 found.1) }
    ensures none { IfNone result ((k f : ℕ) → from ≤ k → k < length remaining.now
        → IsEar edges.now remaining.now (slice_index remaining.now k) f → ⊥) }
{
    for place in from..remaining.len() {
        let edge = remaining[place];
        if let Some(parent) = first_parent(holders, edge, edges[edge as usize] & shared) {
            return Some((place, parent));
        }
    }
    None
}
