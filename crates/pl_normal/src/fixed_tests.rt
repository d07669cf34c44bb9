//! Which edges no state changes, worked out by hand.

use crate::fixed::is_fixed_among;
use crate::form::{Edge, Placed, Sieve, Source};
use pl_join::Slot;
use pl_rows::Table;
use pl_task::List;
use std::alloc::{AllocError, Global};
use std::test::Fail;

/// A predicate that states change.
const FLUENT: u32 = 0;
/// A predicate that no state changes.
const STATIC: u32 = 1;

/// A filter of a case.
enum Given {
    Unequal,
    /// A negated atom of this predicate.
    Not(u32),
}

/// A schema, as far as it decides which edges no state changes.
struct Case {
    /// The sources of its edges.
    sources: &'static [Source],
    /// The filters, each with the edge that it is local to.
    local: &'static [(u32, Given)],
    /// Which of the edges no state changes.
    fixed: &'static [bool],
}

const CASES: &[Case] = &[
    // Types, a static predicate and a fluent one.
    Case {
        sources: &[
            Source::Kind(0),
            Source::Predicate(STATIC),
            Source::Predicate(FLUENT),
        ],
        local: &[],
        fixed: &[true, true, false],
    },
    // A static edge with a local filter over a fluent predicate changes, and the edge beside it doesn't.
    Case {
        sources: &[Source::Predicate(STATIC), Source::Predicate(STATIC)],
        local: &[(0, Given::Not(FLUENT))],
        fixed: &[false, true],
    },
    // So it is where the filter stands behind others.
    Case {
        sources: &[Source::Kind(0), Source::Predicate(STATIC)],
        local: &[
            (1, Given::Unequal),
            (0, Given::Not(STATIC)),
            (1, Given::Not(FLUENT)),
        ],
        fixed: &[true, false],
    },
    // Types with a local filter over a fluent predicate.
    Case {
        sources: &[Source::Kind(0)],
        local: &[(0, Given::Not(FLUENT))],
        fixed: &[false],
    },
    // Filters that no state changes leave the edge as it is, and make none fixed.
    Case {
        sources: &[Source::Predicate(STATIC), Source::Predicate(FLUENT)],
        local: &[
            (0, Given::Not(STATIC)),
            (0, Given::Unequal),
            (1, Given::Not(STATIC)),
        ],
        fixed: &[true, false],
    },
    // A predicate beyond those that there are has no table.
    Case {
        sources: &[Source::Predicate(7)],
        local: &[],
        fixed: &[false],
    },
];

/// The edges with these sources; their slots and classes decide nothing here.
fn edges_of(alloc: Global, sources: &[Source]) -> Result<Vec<Edge>, AllocError> {
    let mut edges = Vec::new(alloc);
    for source in sources {
        edges.push(Edge {
            source: *source,
            slots: List::of(Vec::new(alloc)),
            classes: 0,
        })?;
    }
    Ok(edges)
}

fn sieve_of(alloc: Global, given: &Given) -> Sieve {
    match given {
        Given::Unequal => Sieve::NotEqual(Slot::Class(0), Slot::Class(1)),
        Given::Not(predicate) => Sieve::Absent(*predicate, List::of(Vec::new(alloc))),
    }
}

fn filters_of(alloc: Global, local: &[(u32, Given)]) -> Result<Vec<Placed>, AllocError> {
    let mut filters = Vec::new(alloc);
    for (edge, given) in local {
        filters.push(Placed {
            edge: *edge,
            sieve: sieve_of(alloc, given),
        })?;
    }
    Ok(filters)
}

/// No table for the fluent predicate, and one for the static one.
fn tables(alloc: Global) -> Result<Vec<Option<Table>>, AllocError> {
    let table = Table::from_ascending(0, 0, Vec::new(alloc));
    Ok(vec![in alloc; None, Some(table)]?)
}

/// Whether no state changes just those edges that the case says.
fn is_met(alloc: Global, case: &Case) -> Result<bool, AllocError> {
    let tables = tables(alloc)?;
    let edges = edges_of(alloc, case.sources)?;
    let local = filters_of(alloc, case.local)?;
    if edges.len() != case.fixed.len() || edges.len() > 2000 {
        return Ok(false);
    }
    for e in 0..edges.len() {
        if is_fixed_among(&tables, &edges, &local, e as u32) != case.fixed[e] {
            return Ok(false);
        }
    }
    Ok(true)
}

#[test]
fn edges_that_no_state_changes_are_those_worked_out_by_hand(rt: HostRuntime) -> Result<(), Fail> {
    for (i, case) in CASES.iter().enumerate() {
        let met = is_met(rt.alloc(), case)?;
        assert!(rt; met, "case {i}");
    }
    Ok(())
}
