//! The first edge that holds given classes.

ghost use Rattle.std.specs.Prelude.{◌≡◌, ◌<◌, ◌^◌, ◌==◌, ℕ, List, length, bit_and, IfOk};
ghost use Rattle.std.specs.List.{position_from};

use crate::holders::{Holders, all_holders};
use crate::search::first_parent;
use std::alloc::{AllocError, Global};
use std::marker::Model;

/// The number that no edge has.
const NO_EDGE: u32 = u32::MAX;

/// Edges in a form in which the first one that holds given classes is found 64 edges at a time.
///
/// Contracts see it as the list of the edges.
#[derive(Drop)]
pub struct EdgeFinder {
    edges: Vec<u64>,
    holders: Holders,
}

impl Model for EdgeFinder {
    ghost use Rattle.std.specs.Prelude.{◌<◌, ◌^◌, ℕ, List, length};
    ghost use Rattle.pl_hyper.specs.Edges.{edge_numbers};
    ghost use Rattle.pl_hyper.specs.Holders.{AreHolders};

    ghost Value = { List ℕ };

    ghost view = { λ f. f.edges.items };

    ghost invariant = { λ f. (length f.edges.items < 2 ^ 32) × AreHolders f.edges.items
        (edge_numbers f.edges.items) f.holders.words.items f.holders.present.items };
}

impl EdgeFinder {
    /// The finder over edges, each a set of classes with bit `c` for class `c`. The only error is want of
    /// memory.
    pub fn new(alloc: Global, edges: &[u64]) -> Result<EdgeFinder, AllocError>
        requires { length edges.now < 2 ^ 32 }
        ensures { IfOk result (λ f. f ≡ edges.now) }
    {
        let holders = all_holders(alloc, edges)?;
        let edges = Vec::from_slice(alloc, edges)?;
        Ok(EdgeFinder { edges, holders })
    }

    /// The number of the first edge that holds all of the classes.
    pub fn first(&self, classes: u64) -> Option<u32>
        ensures { result ≡ position_from (λ edge. bit_and classes edge == classes) 0 self.now }
    {
        first_parent(&self.holders, NO_EDGE, classes)
    }
}
