//! Names and their numbers: a list of names in which each has the number of its first place, looked up fast.
//!
//! What a name's number is and what the first appearances are is said in `specs/Names.antt`. How a list is
//! indexed stands in `specs/Entries.antt`, for the functions inside.
#![tactic(auto)]

mod appearances;
mod directory;
mod entries;
pub mod laws;
mod names;

pub use appearances::Appearances;
pub use names::Names;
