//! Relations that were worked out by hand.

ghost use Rattle.std.specs.Prelude.{◌≡◌, ◌<◌};

use crate::classes::{are_distinct, are_held, are_over, is_over};
use crate::given::{CIRCLE, NONE, ONE, PAIR, Rows, projected, reads, relation_of, table_of};
use Slot::{Class, Fixed};
use pl_join::{
    Keyed, Ranges, Relation, Slot, filter_absent, filter_unequal, hash_join, laws, reduction,
    reduction_by_keyed, reduction_of_keyed, semijoin,
};
use pl_steps::Steps;
use std::alloc::{AllocError, Global};
use std::marker::Brand;
use std::sync::ledger::{Blank, Ledger};
use std::test::Fail;

/// What is done with the relation that is selected.
#[derive(Clone, Copy)]
enum Call {
    Select,
    Unequal(Slot, Slot),
    Absent(Rows<'static>, &'static [Slot]),
    Project(&'static [u32]),
    /// A call with the relation that these slots select from these rows.
    With(Rows<'static>, &'static [Slot], Second),
}

/// A call on two relations.
#[derive(Clone, Copy)]
enum Second {
    Semijoin,
    Join,
    /// A reduction that drops a row.
    Reduced(How),
    /// A reduction that drops none.
    Whole(How),
}

/// How a relation is reduced by another.
#[derive(Clone, Copy)]
enum How {
    ByRows,
    /// The other is keyed by these classes.
    ByKeyed(&'static [u32]),
    /// It is itself keyed by these classes.
    OfKeyed(&'static [u32]),
}

/// A table, the slots that select a relation from it, a call on that relation, and the classes and rows that
/// it gives.
struct Case {
    from: Rows<'static>,
    slots: &'static [Slot],
    call: Call,
    classes: &'static [u32],
    rows: &'static [&'static [u32]],
}

const TRIPLES: Rows<'static> = Rows(3, 4, &[0, 0, 2, 0, 1, 2, 2, 2, 2, 1, 1, 0]);

const CASES: &[Case] = &[
    // a class that stands twice
    Case {
        from: PAIR,
        slots: &[Class(3), Class(3)],
        call: Call::Select,
        classes: &[3],
        rows: &[],
    },
    Case {
        from: PAIR,
        slots: &[Fixed(1), Class(2)],
        call: Call::Select,
        classes: &[2],
        rows: &[&[0]],
    },
    // classes in falling order
    Case {
        from: CIRCLE,
        slots: &[Class(63), Class(0)],
        call: Call::Select,
        classes: &[0, 63],
        rows: &[&[0, 2], &[1, 0], &[2, 1]],
    },
    Case {
        from: ONE,
        slots: &[],
        call: Call::Select,
        classes: &[],
        rows: &[&[]],
    },
    // p(x, x, c), and x is not c, where a is 0, b is 1 and c is 2
    Case {
        from: TRIPLES,
        slots: &[Class(0), Class(0), Fixed(2)],
        call: Call::Unequal(Class(0), Fixed(2)),
        classes: &[0],
        rows: &[&[0]],
    },
    Case {
        from: PAIR,
        slots: &[Class(1), Class(4)],
        call: Call::Absent(NONE, &[]),
        classes: &[1, 4],
        rows: &[&[0, 1], &[1, 0]],
    },
    Case {
        from: PAIR,
        slots: &[Class(1), Class(4)],
        call: Call::Absent(ONE, &[]),
        classes: &[1, 4],
        rows: &[],
    },
    Case {
        from: PAIR,
        slots: &[Class(1), Class(4)],
        call: Call::Absent(CIRCLE, &[Class(4), Class(1)]),
        classes: &[1, 4],
        rows: &[&[0, 1]],
    },
    Case {
        from: CIRCLE,
        slots: &[Class(1), Class(4)],
        call: Call::Project(&[]),
        classes: &[],
        rows: &[&[]],
    },
    Case {
        from: TRIPLES,
        slots: &[Class(5), Class(6), Class(7)],
        call: Call::Project(&[5]),
        classes: &[5],
        rows: &[&[0], &[1], &[2]],
    },
    Case {
        from: TRIPLES,
        slots: &[Class(5), Class(6), Class(7)],
        call: Call::Project(&[7, 5, 6]),
        classes: &[7, 5, 6],
        rows: &[&[0, 1, 1], &[2, 0, 0], &[2, 0, 1], &[2, 2, 2]],
    },
    // repeats that stand apart
    Case {
        from: TRIPLES,
        slots: &[Class(5), Class(6), Class(7)],
        call: Call::Project(&[7]),
        classes: &[7],
        rows: &[&[0], &[2]],
    },
    Case {
        from: CIRCLE,
        slots: &[Class(3), Class(4)],
        call: Call::Project(&[3, 4]),
        classes: &[3, 4],
        rows: &[&[0, 1], &[1, 2], &[2, 0]],
    },
    // no shared class, by the empty row and by none
    Case {
        from: PAIR,
        slots: &[Class(1), Class(4)],
        call: Call::With(ONE, &[], Second::Semijoin),
        classes: &[1, 4],
        rows: &[&[0, 1], &[1, 0]],
    },
    Case {
        from: PAIR,
        slots: &[Class(1), Class(4)],
        call: Call::With(NONE, &[], Second::Semijoin),
        classes: &[1, 4],
        rows: &[],
    },
    Case {
        from: PAIR,
        slots: &[Class(1), Class(4)],
        call: Call::With(ONE, &[], Second::Whole(How::ByRows)),
        classes: &[1, 4],
        rows: &[&[0, 1], &[1, 0]],
    },
    Case {
        from: PAIR,
        slots: &[Class(1), Class(4)],
        call: Call::With(NONE, &[], Second::Reduced(How::ByRows)),
        classes: &[1, 4],
        rows: &[],
    },
    // the first row and the last one are dropped
    Case {
        from: CIRCLE,
        slots: &[Class(0), Class(1)],
        call: Call::With(PAIR, &[Class(0), Fixed(0)], Second::Reduced(How::ByRows)),
        classes: &[0, 1],
        rows: &[&[1, 2]],
    },
    Case {
        from: TRIPLES,
        slots: &[Class(5), Class(6), Class(7)],
        call: Call::With(CIRCLE, &[Class(6), Fixed(2)], Second::Reduced(How::ByRows)),
        classes: &[5, 6, 7],
        rows: &[&[0, 1, 2], &[1, 1, 0]],
    },
    Case {
        from: PAIR,
        slots: &[Class(1), Class(4)],
        call: Call::With(CIRCLE, &[Class(4), Class(9)], Second::Whole(How::ByRows)),
        classes: &[1, 4],
        rows: &[&[0, 1], &[1, 0]],
    },
    // looked up by a key: a row is dropped, and none is
    Case {
        from: CIRCLE,
        slots: &[Class(0), Class(1)],
        call: Call::With(
            PAIR,
            &[Class(1), Class(9)],
            Second::Reduced(How::ByKeyed(&[1])),
        ),
        classes: &[0, 1],
        rows: &[&[0, 1], &[2, 0]],
    },
    Case {
        from: CIRCLE,
        slots: &[Class(0), Class(1)],
        call: Call::With(
            CIRCLE,
            &[Class(1), Class(9)],
            Second::Whole(How::ByKeyed(&[1])),
        ),
        classes: &[0, 1],
        rows: &[&[0, 1], &[1, 2], &[2, 0]],
    },
    // the rows of a key are found, those of the empty key are all, and a small table is gone through
    Case {
        from: CIRCLE,
        slots: &[Class(0), Class(1)],
        call: Call::With(
            PAIR,
            &[Class(1), Fixed(0)],
            Second::Reduced(How::OfKeyed(&[1])),
        ),
        classes: &[1, 0],
        rows: &[&[1, 0]],
    },
    Case {
        from: PAIR,
        slots: &[Class(1), Class(4)],
        call: Call::With(ONE, &[], Second::Whole(How::OfKeyed(&[]))),
        classes: &[1, 4],
        rows: &[&[0, 1], &[1, 0]],
    },
    Case {
        from: PAIR,
        slots: &[Class(1), Class(4)],
        call: Call::With(
            TRIPLES,
            &[Class(9), Class(8), Class(1)],
            Second::Reduced(How::OfKeyed(&[1])),
        ),
        classes: &[1, 4],
        rows: &[&[0, 1]],
    },
    Case {
        from: PAIR,
        slots: &[Class(1), Class(4)],
        call: Call::With(
            CIRCLE,
            &[Class(1), Class(9)],
            Second::Whole(How::OfKeyed(&[1])),
        ),
        classes: &[1, 4],
        rows: &[&[0, 1], &[1, 0]],
    },
    // two shared classes, in the other order
    Case {
        from: PAIR,
        slots: &[Class(1), Class(4)],
        call: Call::With(TRIPLES, &[Class(4), Class(1), Class(9)], Second::Semijoin),
        classes: &[1, 4],
        rows: &[&[1, 0]],
    },
    Case {
        from: CIRCLE,
        slots: &[Class(0), Class(1)],
        call: Call::With(CIRCLE, &[Class(1), Class(2)], Second::Join),
        classes: &[0, 1, 2],
        rows: &[&[0, 1, 2], &[1, 2, 0], &[2, 0, 1]],
    },
    // no shared class
    Case {
        from: PAIR,
        slots: &[Class(0), Fixed(1)],
        call: Call::With(CIRCLE, &[Class(2), Fixed(0)], Second::Join),
        classes: &[0, 2],
        rows: &[&[0, 2]],
    },
    Case {
        from: ONE,
        slots: &[],
        call: Call::With(PAIR, &[Class(8), Class(3)], Second::Join),
        classes: &[3, 8],
        rows: &[&[0, 1], &[1, 0]],
    },
    Case {
        from: ONE,
        slots: &[],
        call: Call::With(ONE, &[], Second::Join),
        classes: &[],
        rows: &[&[]],
    },
    Case {
        from: CIRCLE,
        slots: &[Class(0), Class(1)],
        call: Call::With(NONE, &[], Second::Join),
        classes: &[0, 1],
        rows: &[],
    },
];

fn unequal<L: Ledger>(
    alloc: Global,
    relation: &Relation,
    a: Slot,
    b: Slot,
    steps: &mut Steps<L>,
) -> Result<Option<Relation>, AllocError> {
    let classes = relation.classes();
    if !is_over(classes, a) || !is_over(classes, b) {
        return Ok(None);
    }
    Ok(Some(filter_unequal(alloc, relation, a, b, steps)?))
}

fn absent<L: Ledger>(
    alloc: Global,
    relation: &Relation,
    rows: Rows<'_>,
    slots: &[Slot],
    steps: &mut Steps<L>,
) -> Result<Option<Relation>, AllocError> {
    let Some(table) = table_of(alloc, rows)? else {
        return Ok(None);
    };
    let classes = relation.classes();
    if slots.len() != table.arity() as usize || !are_over(classes, slots) {
        return Ok(None);
    }
    Ok(Some(filter_absent(alloc, relation, &table, slots, steps)?))
}

fn keyed<L: Ledger>(
    alloc: Global,
    relation: &Relation,
    key: &[u32],
    steps: &mut Steps<L>,
) -> Result<Option<Keyed>, AllocError> {
    if !are_held(relation.classes(), key) || !are_distinct(key) {
        return Ok(None);
    }
    Ok(Some(Keyed::by(alloc, relation, key, steps)?))
}

/// The reduction by a keyed relation; None where the key is not just what the two share.
fn by_keyed<L: Ledger>(
    alloc: Global,
    keep: &Relation,
    by: &Relation,
    key: &[u32],
    steps: &mut Steps<L>,
) -> Result<Option<Option<Relation>>, AllocError> {
    let Some(by) = keyed(alloc, by, key, steps)? else {
        return Ok(None);
    };
    if !by.shares_key(keep.classes()) {
        return Ok(None);
    }
    Ok(Some(reduction_by_keyed(alloc, keep, &by, steps)?))
}

/// The reduction of a keyed relation; None where the key is not just what the two share.
fn of_keyed<L: Ledger>(
    alloc: Global,
    keep: &Relation,
    key: &[u32],
    by: &Relation,
    steps: &mut Steps<L>,
) -> Result<Option<Option<Relation>>, AllocError> {
    let Some(keep) = keyed(alloc, keep, key, steps)? else {
        return Ok(None);
    };
    if !keep.shares_key(by.classes()) {
        return Ok(None);
    }
    let mut ranges = Ranges::new(alloc);
    Ok(Some(reduction_of_keyed(alloc, &keep, by, &mut ranges, steps)?))
}

/// The reduction, which is None where no row is dropped; None where it can't be asked for.
fn reduced<L: Ledger>(
    alloc: Global,
    keep: &Relation,
    by: &Relation,
    how: How,
    steps: &mut Steps<L>,
) -> Result<Option<Option<Relation>>, AllocError> {
    match how {
        How::ByRows => Ok(Some(reduction(alloc, keep, by, steps)?)),
        How::ByKeyed(key) => by_keyed(alloc, keep, by, key, steps),
        How::OfKeyed(key) => of_keyed(alloc, keep, key, by, steps),
    }
}

fn called_with<L: Ledger>(
    alloc: Global,
    relation: Relation,
    by: &Relation,
    call: Second,
    steps: &mut Steps<L>,
) -> Result<Option<Relation>, AllocError> {
    match call {
        Second::Semijoin => Ok(Some(semijoin(alloc, &relation, by, steps)?)),
        Second::Join => Ok(Some(hash_join(alloc, &relation, by, steps)?)),
        Second::Reduced(how) => match reduced(alloc, &relation, by, how, steps)? {
            Some(Some(kept)) => Ok(Some(kept)),
            _ => Ok(None),
        },
        Second::Whole(how) => match reduced(alloc, &relation, by, how, steps)? {
            Some(None) => Ok(Some(relation)),
            _ => Ok(None),
        },
    }
}

fn called<L: Ledger>(
    alloc: Global,
    relation: Relation,
    call: Call,
    steps: &mut Steps<L>,
) -> Result<Option<Relation>, AllocError> {
    match call {
        Call::Select => Ok(Some(relation)),
        Call::Unequal(a, b) => unequal(alloc, &relation, a, b, steps),
        Call::Absent(rows, slots) => absent(alloc, &relation, rows, slots, steps),
        Call::Project(classes) => projected(alloc, &relation, classes, steps),
        Call::With(rows, slots, second) => match relation_of(alloc, rows, slots, steps)? {
            None => Ok(None),
            Some(by) => called_with(alloc, relation, &by, second, steps),
        },
    }
}

fn is_met<L: Ledger>(alloc: Global, case: &Case, blank: Blank) -> Result<bool, AllocError>
    requires name { blank.name ≡ L.name }
    requires parts { blank.parts ≡ L.parts }
    requires some { 0 < blank.parts }
{
    let mut steps: Steps<L> = Steps::new(blank);
    let Some(relation) = relation_of(alloc, case.from, case.slots, &mut steps)? else {
        return Ok(false);
    };
    match called(alloc, relation, case.call, &mut steps)? {
        None => Ok(false),
        Some(relation) => {
            Ok(relation.classes() == case.classes && reads(relation.table(), case.rows, &mut steps))
        }
    }
}

#[test]
fn calls_give_the_classes_and_rows_by_hand(rt: HostRuntime) -> Result<(), Fail> {
    laws::one_relation_for_a_set();
    for (i, case) in CASES.iter().enumerate() {
        let met = is_met::<Brand>(rt.alloc(), case, Blank::new(1))?;
        assert!(rt; met, "case {i}");
    }
    Ok(())
}
