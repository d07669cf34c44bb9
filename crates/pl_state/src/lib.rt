//! Packed states: the fluent atoms of a state as one list of words, and what is asked of it.
//!
//! The layout and its properties stand in `specs/Layout.antt`, the state that words stand for in
//! `specs/StateOf.antt`, and the laws by which callers never speak of words in `specs/Laws.antt`.
#![tactic(auto)]

mod applying;
mod comparing;
mod count;
mod effect;
mod fluents;
mod goal_test;
mod hashing;
pub mod laws;
mod merging;
mod packed;
mod packing;
mod parts;
mod rows;
mod statics;
mod tabling;

pub use applying::apply;
pub use fluents::holds_fluent;
pub use goal_test::GoalTest;
pub use packed::Packed;
pub use packing::pack;
pub use parts::true_rows;
pub use rows::Rows;
pub use statics::StaticAtoms;
pub use tabling::{StateTables, tables};
