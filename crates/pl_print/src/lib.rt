//! The printer: what a run says, as text on a sink.
//!
//! The texts stand in `specs/Texts.antt`.
#![tactic(auto)]

mod fault;
mod plan;
mod stats;
mod step;
mod step_in_blocks;
mod verdict;

pub use fault::{Fault, put_fault};
pub use plan::put_plan;
pub use stats::put_stats;
pub use step::put_step;
pub use step_in_blocks::put_step_in_blocks;
pub use verdict::put_verdict;
