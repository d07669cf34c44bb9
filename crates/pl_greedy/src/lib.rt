//! Greedy best-first search over the applicable steps of states.
//!
//! What it answers and what it leaves of its registry stands in `specs/Greedy.antt`, over the records and
//! endings of `pl_registry`. `greedy` runs the turns of the entries, `expand` a turn, and `attempt` makes one
//! step of it, by `try_step` of `pl_hooks`. The states that wait to be expanded stand in a heap of keys
//! (`keys`), the first one on top.
#![tactic(auto)]

mod attempting;
mod expanding;
mod keys;
mod searching;

pub use pl_registry::{Ended, Outcome, Stats};
pub use searching::greedy;
