//! Which of the remaining edges hold a class.

ghost use Rattle.std.specs.Prelude.{◌≡◌, ◌≢◌, ◌≤◌, ◌<◌, ◌+◌, ◌*◌, ◌/◌, ◌^◌, ◌⊎◌, ◌↔◌, ℕ, List, length};
ghost use Rattle.std.specs.Prelude.{slice_index, replicate, IfOk};
ghost use Rattle.std.specs.Int.{bit_at};
ghost use Rattle.pl_hyper.specs.Edges.{edge_numbers};
ghost use Rattle.pl_hyper.specs.Ears.{without};
ghost use Rattle.pl_hyper.specs.Holders.{AreHolders, AreFilled, IsHolder};

use crate::sets::{least_member, with_member, without_member};
use std::alloc::{AllocError, Global};

/// For each class the edges that hold it, and the edges that remain, as bits.
///
/// A block is 64 edges that stand next to each other, and bit `k` of a word is for the k-th of them. So the
/// edges that hold some classes are found 64 at a time.
#[derive(Drop)]
pub struct Holders {
    /// For each block one word a class: the edges that hold it.
    pub words: Vec<u64>,
    /// For each block the edges that remain.
    pub present: Vec<u64>,
}

/// The holders of each class, where all edges remain.
pub fn all_holders(alloc: Global, edges: &[u64]) -> Result<Holders, AllocError>
    requires { length edges.now < 2 ^ 32 }
    ensures { IfOk result
        (λ h. AreHolders edges.now (edge_numbers edges.now) h.words.items h.present.items) }
{
    let blocks = edges.len() / 64 + 1;
    let mut words = vec![in alloc; 0; blocks * 64]?;
    let mut present = vec![in alloc; 0; blocks]?;
    fill(words.as_mut_slice(), present.as_mut_slice(), edges);
    Ok(Holders { words, present })
}

/// Adds all edges to words without a bit.
fn fill(words: &mut [u64], present: &mut [u64], edges: &[u64])
    requires words { words.old ≡ replicate (length present.old * 64) 0 }
    requires present { present.old ≡ replicate (length present.old) 0 }
    requires many { length edges.now < length present.old * 64 }
    ensures many { length present.new ≡ length present.old }
    ensures filled { AreFilled edges.now (length edges.now) words.new present.new }
{
    for e in 0..edges.len() {
        let block = e / 64;
        let place = (e % 64) as u32;
        add_edge(words, block, place, edges[e]);
        present[block] = with_member(present[block], place);
    }
}

/// Adds an edge to the words of its classes.
fn add_edge(words: &mut [u64], block: usize, place: u32, classes: u64)
    requires block { block * 64 + 64 ≤ length words.old }
    requires place { place < 64 }
    ensures many { length words.new ≡ length words.old }
    ensures added { (b k class : ℕ) → class < 64
        → (bit_at (slice_index words.new (b * 64 + class)) k ≡ 1)
        ↔ ((bit_at (slice_index words.old (b * 64 + class)) k ≡ 1)
        ⊎ ((b ≡ block) × (k ≡ place) × (bit_at classes class ≡ 1))) }
{
    let mut left = classes;
    while left != 0 {
        let class = least_member(left);
        let at = block * 64 + class as usize;
        words[at] = with_member(words[at], place);
        left = without_member(left, class);
    }
}

/// Takes an edge out of those that remain.
pub fn take_out(holders: &mut Holders, edge: u32)
    requires { edge < 64 * length holders.old.present.items }
    ensures { (edges remaining : List ℕ)
        → AreHolders edges remaining holders.old.words.items holders.old.present.items
        → AreHolders edges (without edge remaining) holders.new.words.items holders.new.present.items }
{
    let block = edge as usize / 64;
    let present = holders.present.as_mut_slice();
    present[block] = without_member(present[block], edge % 64);
}

/// Of a block the edges that remain and hold all of the classes.
pub fn common_holders(holders: &Holders, block: usize, classes: u64) -> u64
    requires many { length holders.now.words.items ≡ 64 * length holders.now.present.items }
    requires block { block < length holders.now.present.items }
    ensures { (place : ℕ) → (bit_at result place ≡ 1)
        ↔ IsHolder holders.now.words.items holders.now.present.items classes block place }
{
    let words = holders.words.as_slice();
    let mut found = holders.present.as_slice()[block];
    let mut left = classes;
    while left != 0 {
        let class = least_member(left);
        found &= words[block * 64 + class as usize];
        left = without_member(left, class);
    }
    found
}
