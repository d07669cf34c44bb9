//! Tests of tables, hypergraphs, relations, cores, reductions and cursors, against answers that were worked
//! out by hand.
//!
//! They stand in a crate of their own, above what they call, so that a crate of the planner is proved without
//! them: a test sees of it what every caller sees, its contracts.
#![tactic(auto)]

#[cfg(test)]
mod answers;
#[cfg(test)]
mod classes;
#[cfg(test)]
mod cores;
#[cfg(test)]
mod given;
#[cfg(test)]
mod hypergraphs;
#[cfg(test)]
mod reductions;
#[cfg(test)]
mod relations;
#[cfg(test)]
mod tables;
