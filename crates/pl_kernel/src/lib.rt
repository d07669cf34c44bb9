//! The join of the core of a cyclic schema: all of its relations in one.
//!
//! What the join is, stands in `specs/Relation.antt` of `pl_join`, and the order of its classes in
//! `specs/ClassesByAppearance.antt`.
#![tactic(auto)]

mod classes;
mod joining;
pub mod laws;
mod sequence;

pub use joining::core_table;
