//! The removal of ears.

ghost use Rattle.std.specs.Prelude.{◌≡◌, ◌<◌, ◌^◌, ◌++◌, ◌∷◌, [], length, slice_index, IfOk, OnOk, vec_len};
ghost use Rattle.std.specs.List.{remove};
ghost use Rattle.pl_hyper.specs.Edges.{edge_numbers};
ghost use Rattle.pl_hyper.specs.Ears.{IsRemoval, IsWalkable, Removal};

use crate::ear::Ear;
use crate::holders::{all_holders, take_out};
use crate::plan::EarPlan;
use crate::search::first_ear;
use crate::sharing::{shared_classes, still_shared};
use std::alloc::{AllocError, Global};

/// Removes the ears of a hypergraph, always the least-numbered one with its least-numbered parent, until none
/// is left.
///
/// An edge is a set of classes, with bit `c` for class `c`. It is an ear where another edge holds every class
/// that it shares with the rest, so equal edges are ears of each other, and an edge that shares nothing is an
/// ear of any other. This is the reduction of Graham (1979) and of Yu and Ozsoyoglu (1979), with each choice
/// fixed.
///
/// The time is quadratic in the number of edges, by a small part: a parent is sought among 64 edges at a
/// time, and where an ear leaves only its own classes are asked about again. The edges before an ear are
/// looked at again only where a class is no longer shared, and that comes once a class.
pub fn ears(alloc: Global, edges: &[u64]) -> Result<EarPlan, AllocError>
    requires { length edges.now < 2 ^ 32 }
    ensures edges { IfOk result (λ plan. plan.edges ≡ edges.now) }
    ensures removal { IfOk result IsRemoval }
    ensures walkable { IfOk result IsWalkable }

    // The definition leaves no choice: the edges have no other removal.
    ensures unique { IfOk result
        (λ plan. (other : Removal) → IsRemoval other → other.edges ≡ plan.edges → other ≡ plan) }
{
    let mut core = all_numbers(alloc, edges)?;
    let mut removed = Vec::with_capacity(alloc, edges.len())?;
    let mut holders = all_holders(alloc, edges)?;
    let mut shared = shared_classes(edges, &core);
    // No edge that stands before this place in the core is an ear.
    let mut from = 0;
    while let Some((place, parent)) = first_ear(edges, &core, &holders, from, shared) {
        let edge = core[place];
        remove_ear(&mut core, &mut removed, place, parent)?;
        take_out(&mut holders, edge);
        let left = still_shared(&holders, parent, edges[edge as usize] & shared, shared);
        from = if left == shared { place } else { 0 };
        shared = left;
    }
    Ok(EarPlan::new(Vec::from_slice(alloc, edges)?, removed, core))
}

/// The numbers of all edges, rising.
fn all_numbers(alloc: Global, edges: &[u64]) -> Result<Vec<u32>, AllocError>
    requires { length edges.now < 2 ^ 32 }
    ensures { IfOk result (λ v. v.items ≡ edge_numbers edges.now) }
{
    (0..edges.len() as u32).collect(alloc)
}

/// Moves the edge at the place from the core to the removed ones.
fn remove_ear(
    core: &mut Vec<u32>,
    removed: &mut Vec<Ear>,
    place: usize,
    parent: u32,
) -> Result<(), AllocError>
    requires { place < vec_len core.old }
    ensures core { OnOk result (core.new.items ≡ remove core.old.items place) }
    ensures removed { OnOk result (removed.new.items ≡ removed.old.items
        ++ record { edge = slice_index core.old.items place; parent = parent } ∷ []) }
{
    let edge = core[place];
    removed.push(Ear { edge, parent })?;
    core.remove(place);
    Ok(())
}
