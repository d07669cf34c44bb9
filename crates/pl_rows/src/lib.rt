//! Tables of rows of numbers: each row once, in ascending order, and read by counted probes.
//!
//! What a table is, the order of its rows and what its set is stand in `specs/Rows.antt`.
#![tactic(auto)]

pub mod bisect;
mod builder;
mod indexed;
pub mod laws;
mod nearby;
mod pairs;
mod range;
mod sort;
mod table;

pub use builder::TableBuilder;
pub use indexed::Indexed;
pub use range::Range;
pub use table::Table;
