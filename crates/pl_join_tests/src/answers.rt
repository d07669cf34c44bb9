//! Answers of joins that were worked out by hand, and the loop of a caller.

ghost use Rattle.std.specs.Prelude.{◌≡◌, ◌+◌, ◌*◌, ◌<◌, ◌≤◌, ◌^◌, [], length, sum, sum_by};

use crate::given::{NONE, OBJECTS, ONE, PATH, Rows, relation_of};
use pl_cursor::Cursor;
use pl_hyper::ears;
use pl_join::{Relation, Slot};
use pl_reduce::Reduced;
use pl_steps::Steps;
use std::alloc::{AllocError, Global};
use std::marker::Brand;
use std::sync::ledger::{Blank, Ledger};
use std::test::Fail;

/// How many answers were left, and the sum of all their values.
#[derive(Clone, Copy)]
struct Total {
    count: u64,
    sum: u64,
}

fn sum_of(row: &[u32]) -> u64
    requires { sum row.now < 2 ^ 64 }
    ensures { result ≡ sum row.now }
{
    row.iter().map(|value| u64::from(*value)).sum()
}

/// Goes through all answers that are left.
fn added_up<L: Ledger>(cursor: &mut Cursor<'_>, steps: &mut Steps<L>) -> Total
    requires many { length cursor.old.left < 2 ^ 64 }
    requires sum { sum_by sum cursor.old.left < 2 ^ 64 }
    ensures count { result.count ≡ length cursor.old.left }
    ensures sum { result.sum ≡ sum_by sum cursor.old.left }
    ensures end { cursor.new.left ≡ [] }
    ensures cost { steps.new ≤ steps.old + result.count * (2 * length cursor.old.join.classes) }
{
    let mut total = Total { count: 0, sum: 0 };
    while let Some(row) = cursor.next(steps) {
        total.count += 1;
        total.sum += sum_of(row);
    }
    total
}

/// Edges, a table for each over the edge's classes by rising number, and the class order and the answers of
/// their join.
struct Case {
    edges: &'static [u64],
    tables: &'static [Rows<'static>],
    classes: &'static [u32],
    answers: &'static [&'static [u32]],
}

/// Two steps along the edges, from x over y to z, where x is class 0, y is class 1 and z is class 2.
const WALK: Case = Case {
    edges: &[1, 2, 4, 3, 6],
    tables: &[OBJECTS, OBJECTS, OBJECTS, PATH, PATH],
    classes: &[1, 2, 0],
    answers: &[
        &[0, 1, 1],
        &[1, 0, 0],
        &[1, 0, 2],
        &[1, 2, 0],
        &[1, 2, 2],
        &[2, 1, 1],
    ],
};

const CASES: &[Case] = &[
    WALK,
    // one node
    Case {
        edges: &[3],
        tables: &[PATH],
        classes: &[0, 1],
        answers: &[&[0, 1], &[1, 0], &[1, 2], &[2, 1]],
    },
    // two components
    Case {
        edges: &[1, 6],
        tables: &[Rows(1, 2, &[4, 0]), Rows(2, 2, &[5, 6, 0, 9])],
        classes: &[1, 2, 0],
        answers: &[&[0, 9, 0], &[0, 9, 4], &[5, 6, 0], &[5, 6, 4]],
    },
    // no class, and so one empty answer or none
    Case {
        edges: &[0],
        tables: &[ONE],
        classes: &[],
        answers: &[&[]],
    },
    Case {
        edges: &[0],
        tables: &[NONE],
        classes: &[],
        answers: &[],
    },
    // two steps to a place that has no edge
    Case {
        edges: &[3, 6],
        tables: &[PATH, Rows(2, 1, &[7, 7])],
        classes: &[1, 2, 0],
        answers: &[],
    },
];

/// The classes of an edge, by rising number.
fn slots_of(alloc: Global, edge: u64) -> Result<Vec<Slot>, AllocError> {
    let mut slots = Vec::new(alloc);
    for class in 0..64 {
        if edge >> class & 1 == 1 {
            slots.push(Slot::Class(class))?;
        }
    }
    Ok(slots)
}

/// The relation of an edge.
fn relation_at<L: Ledger>(
    alloc: Global,
    case: &Case,
    edge: u32,
    steps: &mut Steps<L>,
) -> Result<Option<Relation>, AllocError> {
    let edge = edge as usize;
    if edge >= case.edges.len() || edge >= case.tables.len() {
        return Ok(None);
    }
    let slots = slots_of(alloc, case.edges[edge])?;
    relation_of(alloc, case.tables[edge], &slots, steps)
}

fn reduced_of<L: Ledger>(
    alloc: Global,
    case: &Case,
    steps: &mut Steps<L>,
) -> Result<Option<Reduced<'static>>, AllocError> {
    if case.edges.len() > 64 {
        return Ok(None);
    }
    let plan = ears(alloc, case.edges)?;
    if plan.core().len() != 1 {
        return Ok(None);
    }
    let Some(root) = relation_at(alloc, case, plan.core()[0], steps)? else {
        return Ok(None);
    };
    let mut rest = Vec::new(alloc);
    for ear in plan.removed() {
        let Some(relation) = relation_at(alloc, case, ear.edge, steps)? else {
            return Ok(None);
        };
        rest.push(relation)?;
    }
    if !Reduced::fits(alloc, &root, &rest, &plan)? {
        return Ok(None);
    }
    Ok(Some(Reduced::reduce(alloc, root, rest, &plan, steps)?))
}

/// Whether the cursor gives these answers, and then none, however often it is asked.
fn gives<L: Ledger>(cursor: &mut Cursor<'_>, answers: &[&[u32]], steps: &mut Steps<L>) -> bool {
    if cursor.place().is_some() {
        return false;
    }
    for answer in answers {
        if cursor.next(steps) != Some(*answer) || cursor.place() != Some(*answer) {
            return false;
        }
    }
    cursor.next(steps).is_none()
        && cursor.next(steps).is_none()
        && cursor.place() == answers.last().copied()
}

/// Whether searches give the answers from the tuple on, and those past it.
fn gives_around<L: Ledger>(
    reduced: &Reduced<'_>,
    answers: &[&[u32]],
    tuple: &[u32],
    steps: &mut Steps<L>,
) -> bool {
    if tuple.len() != reduced.classes().len() {
        return false;
    }
    let mut from = 0;
    while from < answers.len() && answers[from] < tuple {
        from += 1;
    }
    let rest = &answers[from..];
    let past = match rest.first() {
        Some(answer) if *answer == tuple => &rest[1..],
        _ => rest,
    };
    gives(&mut Cursor::seek(reduced, tuple, true, steps), rest, steps)
        && gives(&mut Cursor::seek(reduced, tuple, false, steps), past, steps)
}

fn is_met<L: Ledger>(alloc: Global, case: &Case, blank: Blank) -> Result<bool, AllocError>
    requires name { blank.name ≡ L.name }
    requires parts { blank.parts ≡ L.parts }
    requires some { 0 < blank.parts }
{
    let mut steps: Steps<L> = Steps::new(blank);
    let Some(reduced) = reduced_of(alloc, case, &mut steps)? else {
        return Ok(false);
    };
    Ok(gives_all(&reduced, case, &mut steps))
}

/// Whether the cursors over the join give the case's answers.
fn gives_all<L: Ledger>(reduced: &Reduced<'_>, case: &Case, steps: &mut Steps<L>) -> bool {
    if reduced.classes() != case.classes {
        return false;
    }
    for answer in case.answers {
        if !gives_around(reduced, case.answers, *answer, steps) {
            return false;
        }
    }
    gives(&mut Cursor::start(reduced), case.answers, steps)
}

/// Whether searches give the answers from each tuple of three objects on, and those past it.
fn is_met_past_each<L: Ledger>(alloc: Global, case: &Case, blank: Blank) -> Result<bool, AllocError>
    requires name { blank.name ≡ L.name }
    requires parts { blank.parts ≡ L.parts }
    requires some { 0 < blank.parts }
{
    let mut steps: Steps<L> = Steps::new(blank);
    let Some(reduced) = reduced_of(alloc, case, &mut steps)? else {
        return Ok(false);
    };
    Ok(gives_past_each(&reduced, case, &mut steps))
}

fn gives_past_each<L: Ledger>(reduced: &Reduced<'_>, case: &Case, steps: &mut Steps<L>) -> bool {
    for n in 0..27 {
        let tuple = [n / 9, n / 3 % 3, n % 3];
        if !gives_around(reduced, case.answers, &tuple, steps) {
            return false;
        }
    }
    true
}

/// The relation of an edge of two classes that has all pairs of numbers below 100.
fn pairs_of<L: Ledger>(
    alloc: Global,
    edge: u64,
    steps: &mut Steps<L>,
) -> Result<Option<Relation>, AllocError> {
    let mut flat = Vec::new(alloc);
    for first in 0..100 {
        for second in 0..100 {
            flat.push(first)?;
            flat.push(second)?;
        }
    }
    let slots = slots_of(alloc, edge)?;
    relation_of(alloc, Rows(2, 10_000, &flat), &slots, steps)
}

/// How many answers the join of two relations with all pairs has, over three classes. The cursor is given no
/// allocator.
fn count_of_pairs<L: Ledger>(alloc: Global, blank: Blank) -> Result<Option<u32>, AllocError>
    requires name { blank.name ≡ L.name }
    requires parts { blank.parts ≡ L.parts }
    requires some { 0 < blank.parts }
{
    let mut steps: Steps<L> = Steps::new(blank);
    let plan = ears(alloc, &[3, 6])?;
    let Some(left) = pairs_of(alloc, 3, &mut steps)? else {
        return Ok(None);
    };
    let Some(right) = pairs_of(alloc, 6, &mut steps)? else {
        return Ok(None);
    };
    let mut rest = Vec::new(alloc);
    rest.push(left)?;
    if !Reduced::fits(alloc, &right, &rest, &plan)? {
        return Ok(None);
    }
    let reduced = Reduced::reduce(alloc, right, rest, &plan, &mut steps)?;
    Ok(count_of(&reduced, &mut steps))
}

/// How many answers the cursor gives, if they are no more than two million.
fn count_of<L: Ledger>(reduced: &Reduced<'_>, steps: &mut Steps<L>) -> Option<u32> {
    let mut cursor = Cursor::start(reduced);
    let mut count: u32 = 0;
    for _ in 0..2_000_000 {
        if cursor.next(steps).is_none() {
            return Some(count);
        }
        count = count.wrapping_add(1);
    }
    None
}

#[test]
fn a_million_answers_are_counted(rt: HostRuntime) -> Result<(), Fail> {
    let count = count_of_pairs::<Brand>(rt.alloc(), Blank::new(1))?;
    assert_eq!(rt; count, Some(1_000_000));
    Ok(())
}

#[test]
fn cursors_give_the_answers_by_hand(rt: HostRuntime) -> Result<(), Fail> {
    for (i, case) in CASES.iter().enumerate() {
        let met = is_met::<Brand>(rt.alloc(), case, Blank::new(1))?;
        assert!(rt; met, "case {i}");
    }
    Ok(())
}

#[test]
fn searches_give_the_answers_past_each_tuple(rt: HostRuntime) -> Result<(), Fail> {
    let met = is_met_past_each::<Brand>(rt.alloc(), &WALK, Blank::new(1))?;
    assert!(rt; met, "two steps along the edges");
    Ok(())
}
