//! The checker: from a domain and a problem to the task that they state, or to their first fault; and the
//! lines of a plan, or the one step that a text is.
//!
//! What a fault is and which is the first stands in `specs/`, a file for each kind of form; `Known` says what
//! is collected before any test, `FirstFault` which fault is given, `Stated` which task two files without a
//! fault state, and `PlanLines` what the lines of a plan name.
#![tactic(auto)]

mod actions;
mod checking;
mod conditions;
mod domain;
mod earlier;
mod effects;
mod fault;
mod files;
mod forms;
mod head;
mod items;
mod known;
pub mod laws;
mod once;
mod plan_lines;
mod predicates;
mod problem;
mod reading;
mod role;
mod scope;
mod section;
mod source;
mod statics;
mod task;
mod terms;
mod typed;
mod words;

pub use checking::check;
pub use fault::{CheckEnd, FaultKind, InputFault, StepEnd};
pub use plan_lines::{read_plan, read_step};
pub use role::FileRole;
