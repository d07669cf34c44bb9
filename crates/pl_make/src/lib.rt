//! Large tasks made from a number, for a self-test on any machine.
//!
//! The texts are defined in `specs/Texts.antt`, byte by byte. Nothing here knows what a checker or a planner
//! makes of them.
#![tactic(auto)]

mod hop;
mod kind;
mod making;
mod wide;
mod writing;

pub use kind::{Kind, Made};
pub use making::make;
