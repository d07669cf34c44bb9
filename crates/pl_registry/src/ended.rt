//! How a search ended, and what it has counted.

use pl_task::Plan;

/// What a search has counted. A count stops at 18,446,744,073,709,551,615.
#[derive(Clone, Copy, Debug, PartialEq, Eq)]
pub struct Stats {
    /// How many states are registered.
    pub states: u64,
    /// How many states were expanded: the walk over their steps was begun.
    pub expanded: u64,
    /// How many successors were made.
    pub generated: u64,
}

/// How a search that may cut states ends.
#[derive(Debug, Drop)]
pub enum Outcome {
    /// A plan.
    Found(Plan),
    /// No plan exists.
    Unsolvable,
    /// One more state than the limit allows would have been registered.
    Limit,
}

/// An outcome with the counts of the search.
#[derive(Debug, Drop)]
pub struct Ended {
    pub outcome: Outcome,
    pub stats: Stats,
}
