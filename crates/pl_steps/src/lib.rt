//! The counter of probes: what a bound on work is stated in, and what takes no bytes when the program runs.
#![tactic(auto)]

mod steps;

pub use steps::Steps;
