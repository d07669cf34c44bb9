//! Hypergraphs and their join trees: ear removal, which finds one exactly where there is one, and the
//! order of classes that it gives.
//!
//! An edge is a set of classes below 64, as the bits of a `u64`. `specs/Edges.antt` says what an edge holds,
//! `specs/Ears.antt` what the removal of ears is, `specs/JoinTree.antt` what a join tree and an acyclic
//! hypergraph are, and `specs/ClassOrder.antt` what the order of classes is.
#![tactic(auto)]

mod ear;
mod finder;
mod holders;
pub mod laws;
mod order;
mod plan;
mod removal;
mod search;
mod sets;
mod sharing;

pub use ear::Ear;
pub use finder::EdgeFinder;
pub use plan::EarPlan;
pub use removal::ears;
