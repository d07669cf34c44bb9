//! New states under a width: which sets of one or two fluent atoms were seen together, and whether a state
//! has one that was not.
//!
//! What a set of atoms is stands in `specs/AtomSets.antt`, what noting a state answers and leaves in
//! `specs/Noting.antt`, and the laws that tie it to what a search means by a new state in `specs/Laws.antt`.
//! `specs/Keys.antt` says how the sets lie in memory: an atom is hashed once, to its number, and a set of two
//! atoms is a pair of numbers.
#![tactic(auto)]

mod adding;
mod key;
pub mod laws;
mod novelty;
mod numbering;
mod pair;
mod pairing;

pub use novelty::Novelty;
