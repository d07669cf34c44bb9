//! Width searches of a small task, worked by hand.

ghost use Rattle.std.specs.Prelude.{◌≡◌, ◌<◌, [], IfOk};
ghost use Rattle.pl_search_tests.specs.Marks.{mark_set, mark_definition, make};

use crate::wanted::has_steps;
use pl_bfs::{Stats, WidthOutcome, width};
use pl_normal::normal;
use pl_registry::Registry;
use pl_state::pack;
use pl_steps::Steps;
use pl_task::{Atom, GoalLiteral, Lifted, List, PredicateDef, Schema, Task, TypeDef};
use std::alloc::{AllocError, Global};
use std::marker::Brand;
use std::sync::ledger::{Blank, Ledger};
use std::test::Fail;

/// How a width search ends: with a plan of these steps, or without one.
enum Wanted {
    Plan(&'static [(u32, &'static [u32])]),
    Exhausted,
    Limit,
}

/// The width, the limit on states, and how the search is to end.
struct Case {
    k: u32,
    limit: u32,
    wanted: Wanted,
    stats: Stats,
}

const CASES: &[Case] = &[
    // No mark is new a second time, so that only states with one mark are registered.
    Case {
        k: 1,
        limit: 1000,
        wanted: Wanted::Exhausted,
        stats: Stats {
            states: 4,
            expanded: 4,
            generated: 12,
        },
    },
    Case {
        k: 2,
        limit: 1000,
        wanted: Wanted::Plan(&[(0, &[]), (1, &[]), (2, &[])]),
        stats: Stats {
            states: 7,
            expanded: 5,
            generated: 15,
        },
    },
    Case {
        k: 2,
        limit: 6,
        wanted: Wanted::Limit,
        stats: Stats {
            states: 6,
            expanded: 3,
            generated: 9,
        },
    },
];

fn definition(alloc: Global) -> PredicateDef
    ensures { result ≡ mark_definition }
{
    PredicateDef {
        name: List::of(Vec::new(alloc)),
        arity: 0,
        is_static: false,
    }
}

/// The schema that sets a mark.
fn maker(alloc: Global, p: u32) -> Result<Schema, AllocError>
    ensures { IfOk result (λ s. s ≡ make p) }
{
    let effect = Lifted {
        predicate: p,
        terms: List::of(Vec::new(alloc)),
    };
    Ok(Schema {
        name: List::of(Vec::new(alloc)),
        parameters: List::of(Vec::new(alloc)),
        condition: List::of(Vec::new(alloc)),
        delete: List::of(Vec::new(alloc)),
        add: List::of(vec![in alloc; effect]?),
    })
}

fn literal(alloc: Global, p: u32) -> GoalLiteral
    ensures { result.atom ≡ mark_set p }
{
    GoalLiteral {
        atom: Atom {
            predicate: p,
            objects: List::of(Vec::new(alloc)),
        },
        wanted: true,
    }
}

/// Three marks, none set at first and all wanted, each with a schema that sets it.
fn marks(alloc: Global) -> Result<Task, AllocError> {
    let object = TypeDef {
        name: List::of(Vec::new(alloc)),
        parents: List::of(Vec::new(alloc)),
    };
    let types = vec![in alloc; object]?;
    let predicates = vec![in alloc; definition(alloc), definition(alloc), definition(alloc)]?;
    let schemas = vec![in alloc; maker(alloc, 0)?, maker(alloc, 1)?, maker(alloc, 2)?]?;
    let goal = vec![in alloc; literal(alloc, 0), literal(alloc, 1), literal(alloc, 2)]?;
    Ok(Task {
        types: List::of(types),
        objects: List::of(Vec::new(alloc)),
        predicates: List::of(predicates),
        schemas: List::of(schemas),
        init: List::of(Vec::new(alloc)),
        goal: List::of(goal),
    })
}

fn is_wanted(outcome: &WidthOutcome, wanted: &Wanted) -> bool {
    match (outcome, wanted) {
        (WidthOutcome::Found(plan), Wanted::Plan(steps)) => has_steps(plan, steps),
        (WidthOutcome::Exhausted, Wanted::Exhausted) => true,
        (WidthOutcome::Limit, Wanted::Limit) => true,
        _ => false,
    }
}

/// Whether a search ends as is wanted.
fn is_met<L: Ledger>(alloc: Global, case: &Case, blank: Blank) -> Result<bool, AllocError>
    requires name { blank.name ≡ L.name }
    requires parts { blank.parts ≡ L.parts }
    requires blank { 0 < blank.parts }
{
    if case.k == 0 {
        return Ok(false);
    }
    if case.k > 2 {
        return Ok(false);
    }
    if case.limit == 0 {
        return Ok(false);
    }
    if case.limit == u32::MAX {
        return Ok(false);
    }
    let mut steps: Steps<L> = Steps::new(blank);
    let task = marks(alloc)?;
    let normal = normal(alloc, &task)?;
    let first = pack(alloc, &task, task.init.as_slice())?;
    let mut registry = Registry::new(alloc, case.limit, first)?;
    let ended = width(alloc, &normal, case.k, &mut registry, &mut steps)?;
    Ok(ended.stats == case.stats && is_wanted(&ended.outcome, &case.wanted))
}

#[test]
fn width_searches_end_as_worked_out(rt: HostRuntime) -> Result<(), Fail> {
    for (i, case) in CASES.iter().enumerate() {
        let met = is_met::<Brand>(rt.alloc(), case, Blank::new(1))?;
        assert!(rt; met, "case {i}");
    }
    Ok(())
}
