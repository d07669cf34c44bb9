//! Test tasks: small tasks and their parts, made for the tests of other crates.
//!
//! Everything here is used by tests only. `specs/Places.antt` has the task of places in full, and
//! `proofs/WellFormed.antt` what a test needs that makes a task of its own out of these parts.
#![tactic(auto)]

mod parts;
mod placing;

pub use parts::{AtomCase, atom, atoms, definition, is_atom, literal, objects};
pub use placing::places;
