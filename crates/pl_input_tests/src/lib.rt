//! Tests of names, streams, forms, tasks, the checker, the judge and made tasks, on small inputs whose
//! answers were read off the rules by hand.
//!
//! They stand in a crate of their own, above what they call, so that a crate of the planner is proved without
//! them: a test sees of it what every caller sees, its contracts.
#![tactic(auto)]

#[cfg(test)]
mod blocks;
#[cfg(test)]
mod faults;
#[cfg(test)]
mod forms;
#[cfg(test)]
mod made;
#[cfg(test)]
mod names;
#[cfg(test)]
mod streams;
#[cfg(test)]
mod tasks;
#[cfg(test)]
mod verdicts;
