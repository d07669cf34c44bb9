//! Cores that were joined by hand.

ghost use Rattle.std.specs.Prelude.{◌≡◌, ◌<◌};

use crate::given::{CIRCLE, NONE, ONE, PAIR, Rows, projected, reads, relation_of};
use Slot::Class;
use pl_join::{Relation, Slot};
use pl_kernel::core_table;
use pl_steps::Steps;
use std::alloc::{AllocError, Global};
use std::marker::Brand;
use std::sync::ledger::{Blank, Ledger};
use std::test::Fail;

/// One of the relations: the rows of a table, what stands in its columns, and the classes in their order.
type Part = (Rows<'static>, &'static [Slot], &'static [u32]);

/// The relations of a core, and the classes and rows of their join.
struct Case {
    core: &'static [Part],
    classes: &'static [u32],
    rows: &'static [&'static [u32]],
}

const NO_EDGE: Rows<'static> = Rows(2, 0, &[]);

const UNITS: Rows<'static> = Rows(1, 2, &[1, 2]);

/// Edges from class 0 to 1, from 1 to 2 and from 2 to 0.
const FROM_0_TO_1: Part = (CIRCLE, &[Class(0), Class(1)], &[0, 1]);

const FROM_1_TO_2: Part = (CIRCLE, &[Class(1), Class(2)], &[1, 2]);

const FROM_2_TO_0: Part = (CIRCLE, &[Class(2), Class(0)], &[0, 2]);

const CASES: &[Case] = &[
    // the triangle, and its sides in another order
    Case {
        core: &[FROM_0_TO_1, FROM_1_TO_2, FROM_2_TO_0],
        classes: &[0, 1, 2],
        rows: &[&[0, 1, 2], &[1, 2, 0], &[2, 0, 1]],
    },
    Case {
        core: &[FROM_1_TO_2, FROM_2_TO_0, FROM_0_TO_1],
        classes: &[1, 2, 0],
        rows: &[&[0, 1, 2], &[1, 2, 0], &[2, 0, 1]],
    },
    // the triangle with a side that runs the other way
    Case {
        core: &[
            FROM_0_TO_1,
            FROM_1_TO_2,
            (CIRCLE, &[Class(0), Class(2)], &[0, 2]),
        ],
        classes: &[0, 1, 2],
        rows: &[],
    },
    // one relation, and one whose classes don't rise
    Case {
        core: &[FROM_0_TO_1],
        classes: &[0, 1],
        rows: &[&[0, 1], &[1, 2], &[2, 0]],
    },
    Case {
        core: &[(CIRCLE, &[Class(5), Class(9)], &[9, 5])],
        classes: &[5, 9],
        rows: &[&[0, 1], &[1, 2], &[2, 0]],
    },
    Case {
        core: &[
            (CIRCLE, &[Class(5), Class(9)], &[9, 5]),
            (UNITS, &[Class(9)], &[9]),
        ],
        classes: &[5, 9],
        rows: &[&[0, 1], &[1, 2]],
    },
    // no shared class
    Case {
        core: &[
            (UNITS, &[Class(7)], &[7]),
            (PAIR, &[Class(3), Class(1)], &[1, 3]),
        ],
        classes: &[7, 1, 3],
        rows: &[&[1, 0, 1], &[1, 1, 0], &[2, 0, 1], &[2, 1, 0]],
    },
    // the second is joined last, and its classes stand before those of the third
    Case {
        core: &[FROM_0_TO_1, (UNITS, &[Class(8)], &[8]), FROM_1_TO_2],
        classes: &[0, 1, 8, 2],
        rows: &[
            &[0, 1, 1, 2],
            &[0, 1, 2, 2],
            &[1, 2, 1, 0],
            &[1, 2, 2, 0],
            &[2, 0, 1, 1],
            &[2, 0, 2, 1],
        ],
    },
    // the same relation twice
    Case {
        core: &[FROM_0_TO_1, FROM_0_TO_1],
        classes: &[0, 1],
        rows: &[&[0, 1], &[1, 2], &[2, 0]],
    },
    // one without a row
    Case {
        core: &[
            FROM_0_TO_1,
            (NO_EDGE, &[Class(1), Class(63)], &[1, 63]),
            FROM_2_TO_0,
        ],
        classes: &[0, 1, 63, 2],
        rows: &[],
    },
    // no class: the empty row, and no row
    Case {
        core: &[(ONE, &[], &[]), FROM_0_TO_1],
        classes: &[0, 1],
        rows: &[&[0, 1], &[1, 2], &[2, 0]],
    },
    Case {
        core: &[FROM_0_TO_1, (NONE, &[], &[])],
        classes: &[0, 1],
        rows: &[],
    },
    Case {
        core: &[(ONE, &[], &[])],
        classes: &[],
        rows: &[&[]],
    },
];

/// The relation of a part.
fn relation_by<L: Ledger>(
    alloc: Global,
    part: Part,
    steps: &mut Steps<L>,
) -> Result<Option<Relation>, AllocError> {
    let (table, slots, classes) = part;
    match relation_of(alloc, table, slots, steps)? {
        None => Ok(None),
        Some(relation) => projected(alloc, &relation, classes, steps),
    }
}

fn is_met<L: Ledger>(alloc: Global, case: &Case, blank: Blank) -> Result<bool, AllocError>
    requires name { blank.name ≡ L.name }
    requires parts { blank.parts ≡ L.parts }
    requires some { 0 < blank.parts }
{
    let mut steps: Steps<L> = Steps::new(blank);
    let mut core = Vec::new(alloc);
    for part in case.core {
        match relation_by(alloc, *part, &mut steps)? {
            None => return Ok(false),
            Some(relation) => core.push(relation)?,
        }
    }
    if core.is_empty() {
        return Ok(false);
    }
    let joined = core_table(alloc, &core, &mut steps)?;
    Ok(joined.classes() == case.classes && reads(joined.table(), case.rows, &mut steps))
}

#[test]
fn cores_join_to_the_classes_and_rows_by_hand(rt: HostRuntime) -> Result<(), Fail> {
    for (i, case) in CASES.iter().enumerate() {
        let met = is_met::<Brand>(rt.alloc(), case, Blank::new(1))?;
        assert!(rt; met, "case {i}");
    }
    Ok(())
}
