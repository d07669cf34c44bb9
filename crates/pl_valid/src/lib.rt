//! The judge of plans: whether the lines of a plan file lead from the initial state of a task to a goal
//! state.
//!
//! It follows the definitions of `pl_task` directly. The state is a set of ground atoms, each line is tested
//! literal by literal and then executed, and nothing is shared with the planner whose plans it judges. What a
//! verdict says stands in `specs/Verdict.antt`; that a list of lines has at most one verdict, in
//! `specs/Laws.antt`.
#![tactic(auto)]

mod condition;
mod effect;
mod held;
mod judging;
pub mod laws;
mod line;
mod typing;
mod verdict;

pub use judging::judge;
pub use verdict::{Reason, Verdict};
