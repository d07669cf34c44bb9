//! Runs over files and streams in memory: the words, the files' bytes, and what is printed, byte by byte.
//!
//! They stand in a crate of their own, above what they call, so that the top call is proved without them: a
//! test sees of it what every caller sees, its contract.
#![tactic(auto)]

#[cfg(test)]
mod failing;
#[cfg(test)]
mod runs;
