//! How a width search ended.

ghost use Rattle.std.specs.Prelude.{◌≡◌};
ghost use Rattle.pl_registry.specs.Ending.{ending_of};
ghost use Rattle.pl_bfs.specs.Width.{ending_of_width};

use pl_registry::{Ended, Outcome, Stats};
use pl_task::Plan;

/// How a width search ends.
#[derive(Debug, Drop)]
pub enum WidthOutcome {
    /// A plan.
    Found(Plan),
    /// No plan exists: every state that was reached is registered.
    Unsolvable,
    /// No state is left to expand, but states that aren't new were left out, and a plan may lead through
    /// them.
    Exhausted,
    /// One more state than the limit allows would have been registered.
    Limit,
}

/// An outcome with the counts of the search.
#[derive(Debug, Drop)]
pub struct WidthEnded {
    pub outcome: WidthOutcome,
    pub stats: Stats,
}

impl WidthOutcome {
    /// The same outcome as one of a width search.
    fn of(outcome: Outcome) -> WidthOutcome
        ensures { ending_of_width result ≡ ending_of outcome }
    {
        match outcome {
            Outcome::Found(plan) => WidthOutcome::Found(plan),
            Outcome::Unsolvable => WidthOutcome::Unsolvable,
            Outcome::Limit => WidthOutcome::Limit,
        }
    }
}

impl WidthEnded {
    /// The same ending as one of a width search.
    pub(crate) fn of(ended: Ended) -> WidthEnded
        ensures outcome { ending_of_width result.outcome ≡ ending_of ended.outcome }
        ensures stats { result.stats ≡ ended.stats }
    {
        WidthEnded {
            stats: ended.stats,
            outcome: WidthOutcome::of(ended.outcome),
        }
    }
}
