//! Greedy searches of a small task, whose outcomes and counts another program worked out.

ghost use Rattle.std.specs.Prelude.{◌≡◌, ◌<◌};

use crate::wanted::{Case, Wanted, is_wanted};
use pl_greedy::greedy;
use pl_hooks::{Pruner, Ranker};
use pl_normal::normal;
use pl_registry::{Registry, Stats};
use pl_samples::places;
use pl_state::{GoalTest, Packed, pack};
use pl_steps::Steps;
use std::alloc::{AllocError, Global};
use std::marker::Brand;
use std::sync::ledger::{Blank, Ledger};
use std::test::Fail;

const CASES: &[Case] = &[
    Case {
        count: 2,
        back: false,
        limit: 1000,
        wanted: Wanted::Plan(&[(0, &[0, 1]), (1, &[0])]),
        stats: Stats {
            states: 5,
            expanded: 2,
            generated: 15,
        },
    },
    // As many states as the limit.
    Case {
        count: 2,
        back: true,
        limit: 8,
        wanted: Wanted::Unsolvable,
        stats: Stats {
            states: 8,
            expanded: 8,
            generated: 80,
        },
    },
    // One more.
    Case {
        count: 2,
        back: true,
        limit: 7,
        wanted: Wanted::Limit,
        stats: Stats {
            states: 7,
            expanded: 3,
            generated: 22,
        },
    },
    Case {
        count: 4,
        back: false,
        limit: 1000,
        wanted: Wanted::Plan(&[(0, &[0, 1]), (1, &[0])]),
        stats: Stats {
            states: 12,
            expanded: 2,
            generated: 53,
        },
    },
    Case {
        count: 4,
        back: true,
        limit: 20,
        wanted: Wanted::Limit,
        stats: Stats {
            states: 20,
            expanded: 3,
            generated: 85,
        },
    },
];

/// Whether a search that cuts no state ends as is wanted.
fn is_met<L: Ledger>(alloc: Global, case: &Case, blank: Blank) -> Result<bool, AllocError>
    requires name { blank.name ≡ L.name }
    requires parts { blank.parts ≡ L.parts }
    requires blank { 0 < blank.parts }
{
    if case.count < 2 {
        return Ok(false);
    }
    if case.limit == 0 {
        return Ok(false);
    }
    if case.limit == u32::MAX {
        return Ok(false);
    }
    let mut steps: Steps<L> = Steps::new(blank);
    let task = places(alloc, case.count, case.back)?;
    let normal = normal(alloc, &task)?;
    let first = pack(alloc, &task, task.init.as_slice())?;
    let mut registry = Registry::new(alloc, case.limit, first)?;
    let pruner = Pruner::new(&task, |_state: &Packed| false);
    let goal = GoalTest::of(alloc, &task)?;
    let ranker = Ranker::new(&task, |state: &Packed| goal.unmet(&task, state));
    let ended = greedy(alloc, &normal, &mut registry, &ranker, &pruner, &mut steps)?;
    Ok(ended.stats == case.stats && is_wanted(&ended.outcome, &case.wanted))
}

#[test]
fn searches_end_as_worked_out(rt: HostRuntime) -> Result<(), Fail> {
    for (i, case) in CASES.iter().enumerate() {
        let met = is_met::<Brand>(rt.alloc(), case, Blank::new(1))?;
        assert!(rt; met, "case {i}");
    }
    Ok(())
}
