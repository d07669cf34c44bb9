//! Hooks of searches: closures beside the facts that they keep.
//!
//! A search asks a `Pruner` whether a state may be dropped, and a `Ranker` for its rank. What their closures
//! keep stands in `specs/Sound.antt`, and the laws about them in `specs/Laws.antt`. It is a condition of
//! making a hook and of each call, and a clause of what `new` gives, so a search takes the hook with the
//! fact.
//!
//! A `HopelessTest` says which states are hopeless, and a closure that asks it is fit for a `Pruner`.
#![tactic(auto)]

mod fixed;
mod hopeless_test;
pub mod laws;
mod pruner;
mod ranker;
mod trying;

pub use hopeless_test::HopelessTest;
pub use pruner::Pruner;
pub use ranker::Ranker;
pub use trying::try_step;
