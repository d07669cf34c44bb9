//! How a search ended, whichever it was.

ghost use Rattle.std.specs.Prelude.{◌≡◌};
ghost use Rattle.pl_bfs.specs.Width.{ending_of_width};
ghost use Rattle.pl_registry.specs.Ending.{ending_of};
ghost use Rattle.pl_top.specs.Ended.{ending_in};

use pl_bfs::{WidthEnded, WidthOutcome};
use pl_registry::{Ended, Outcome, Stats};
use pl_task::Plan;

/// How a search ends.
#[derive(Debug, Drop)]
pub enum SearchOutcome {
    /// A plan.
    Found(Plan),
    /// No plan exists.
    Unsolvable,
    /// No state is left to expand, but states that aren't new were left out, and a plan may lead through
    /// them.
    Exhausted,
    /// One more state than the limit allows would have been registered.
    Limit,
}

/// An outcome with the counts of the search.
#[derive(Debug, Drop)]
pub struct SearchEnd {
    pub outcome: SearchOutcome,
    pub stats: Stats,
}

impl SearchOutcome {
    /// The outcome of a search that leaves out no state for being not new.
    fn of(outcome: Outcome) -> SearchOutcome
        ensures { ending_in result ≡ ending_of outcome }
    {
        match outcome {
            Outcome::Found(plan) => SearchOutcome::Found(plan),
            Outcome::Unsolvable => SearchOutcome::Unsolvable,
            Outcome::Limit => SearchOutcome::Limit,
        }
    }

    /// The outcome of a width search.
    fn of_width(outcome: WidthOutcome) -> SearchOutcome
        ensures { ending_in result ≡ ending_of_width outcome }
    {
        match outcome {
            WidthOutcome::Found(plan) => SearchOutcome::Found(plan),
            WidthOutcome::Unsolvable => SearchOutcome::Unsolvable,
            WidthOutcome::Exhausted => SearchOutcome::Exhausted,
            WidthOutcome::Limit => SearchOutcome::Limit,
        }
    }
}

impl SearchEnd {
    /// The end of a search that leaves out no state for being not new.
    pub fn of(ended: Ended) -> SearchEnd
        ensures outcome { ending_in result.outcome ≡ ending_of ended.outcome }
        ensures stats { result.stats ≡ ended.stats }
    {
        SearchEnd {
            stats: ended.stats,
            outcome: SearchOutcome::of(ended.outcome),
        }
    }

    /// The end of a width search.
    pub fn of_width(ended: WidthEnded) -> SearchEnd
        ensures outcome { ending_in result.outcome ≡ ending_of_width ended.outcome }
        ensures stats { result.stats ≡ ended.stats }
    {
        SearchEnd {
            stats: ended.stats,
            outcome: SearchOutcome::of_width(ended.outcome),
        }
    }
}
