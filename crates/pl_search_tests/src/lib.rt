//! Tests of packed states, hooks, widths, searches and printed texts, on small tasks that were worked out by
//! hand or by another program.
//!
//! They stand in a crate of their own, above what they call, so that a crate of the planner is proved without
//! them: a test sees of it what every caller sees, its contracts.
#![tactic(auto)]

#[cfg(test)]
mod breadth;
#[cfg(test)]
mod greedy;
#[cfg(test)]
mod hooks;
#[cfg(test)]
mod hopeless;
#[cfg(test)]
mod novelty;
#[cfg(test)]
mod states;
#[cfg(test)]
mod texts;
#[cfg(test)]
mod wanted;
#[cfg(test)]
mod widths;
