//! Registered states, and what searches are: their records, their endings, and the laws about them.
//!
//! The definitions stand in `specs/`: a state space as a search walks it (`StateSpace`), the record of a
//! search (`SearchRecord`), the states that it may cut (`Cut`), new states under a width (`Novelty`), how a
//! search ends (`Ending`), the least of all plans (`LeastPlan`), the laws about them (`Laws`), what a
//! registry holds (`Registered`), a search under way whose entries a registry holds (`Held`, `HeldByRank`),
//! and the bounds on probes that searches keep (`Probes`).
//!
//! The laws (`laws`): endings are true of the task, none is shorter than the plan of breadth-first search,
//! which is the least of all plans, a search has at most one ending, and each search has one. For the proof
//! of a search there is a lemma for each of its steps and endings: over records in `proofs/ByRank.antt`, with
//! a registry beside them in `proofs/HoldingByRank.antt`; where it expands by number, in
//! `proofs/ByNumber.antt` and `proofs/Holding.antt`.
#![tactic(auto)]

mod added;
mod ended;
pub mod laws;
mod links;
mod registry;
mod search;

pub use added::{Added, Refused};
pub use ended::{Ended, Outcome, Stats};
pub use registry::Registry;
pub use search::Search;
