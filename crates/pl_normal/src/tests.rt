//! Normal forms that were worked out by hand: classes, edges, filters and orders.

ghost use Rattle.std.specs.Prelude.{◌<◌, ◌≤◌, ◌↔◌, length, All, IsTrue};
ghost use Rattle.pl_join.specs.Relation.{IsSlotBelow};
ghost use Rattle.pl_normal.specs.Scope.{IsTermBelow, IsLiteralBelow};

use crate::classes::{Fixing, class_slots, fixings, parameter_classes, slot_objects};
use crate::edges::{edges, sets_of};
use crate::filters::filters;
use crate::form::Placed;
use crate::order::parameter_order;
use pl_hyper::ears;
use pl_join::Slot;
use pl_task::{Lifted, List, Literal, Parameter, Schema, Term};
use std::alloc::{AllocError, Global};
use std::test::Fail;

/// A literal of a case, over parameters 0, 1, .. and object 100 and up.
enum Given {
    /// An atom with these terms.
    Atom(&'static [u32]),
    /// A negated atom with these terms.
    Not(&'static [u32]),
    Equal(u32, u32),
    Unequal(u32, u32),
}

struct Case {
    parameters: usize,
    condition: &'static [Given],
    classes: &'static [u32],
    fixed: &'static [Option<u32>],
    core: &'static [u32],
    order: &'static [u32],
    /// The edges of the local filters.
    local: &'static [u32],
    /// How many filters are late.
    late: usize,
}

const CASES: &[Case] = &[
    // e x y, e y z: the order is y z x.
    Case {
        parameters: 3,
        condition: &[Given::Atom(&[0, 1]), Given::Atom(&[1, 2])],
        classes: &[0, 1, 2],
        fixed: &[None, None, None],
        core: &[4],
        order: &[1, 2, 0],
        local: &[],
        late: 0,
    },
    // A triangle: the core has its three edges.
    Case {
        parameters: 3,
        condition: &[
            Given::Atom(&[0, 1]),
            Given::Atom(&[1, 2]),
            Given::Atom(&[2, 0]),
        ],
        classes: &[0, 1, 2],
        fixed: &[None, None, None],
        core: &[3, 4, 5],
        order: &[0, 1, 2],
        local: &[],
        late: 0,
    },
    // pick of gripper: obj, room, gripper.
    Case {
        parameters: 3,
        condition: &[
            Given::Atom(&[0]),
            Given::Atom(&[1]),
            Given::Atom(&[2]),
            Given::Atom(&[0, 1]),
            Given::Atom(&[1]),
            Given::Atom(&[2]),
        ],
        classes: &[0, 1, 2],
        fixed: &[None, None, None],
        core: &[8],
        order: &[2, 1, 0],
        local: &[],
        late: 0,
    },
    // drop of gripper.
    Case {
        parameters: 3,
        condition: &[
            Given::Atom(&[0]),
            Given::Atom(&[1]),
            Given::Atom(&[2]),
            Given::Atom(&[0, 2]),
            Given::Atom(&[1]),
        ],
        classes: &[0, 1, 2],
        fixed: &[None, None, None],
        core: &[7],
        order: &[1, 0, 2],
        local: &[],
        late: 0,
    },
    // A chain of equalities, written from its end.
    Case {
        parameters: 4,
        condition: &[Given::Equal(3, 2), Given::Equal(2, 0), Given::Unequal(1, 3)],
        classes: &[0, 1, 0, 0],
        fixed: &[None, None, None, None],
        core: &[3],
        order: &[0, 1, 2, 3],
        local: &[],
        late: 1,
    },
    // Two parameters that are equal to one object are two classes.
    Case {
        parameters: 2,
        condition: &[
            Given::Equal(0, 105),
            Given::Equal(105, 1),
            Given::Atom(&[0, 1]),
        ],
        classes: &[0, 1],
        fixed: &[Some(105), Some(105)],
        core: &[],
        order: &[0, 1],
        local: &[],
        late: 0,
    },
    // A class that is equal to two objects is fixed to the first.
    Case {
        parameters: 2,
        condition: &[
            Given::Equal(1, 0),
            Given::Equal(107, 1),
            Given::Equal(0, 103),
        ],
        classes: &[0, 0],
        fixed: &[Some(107), Some(107)],
        core: &[],
        order: &[0, 1],
        local: &[],
        late: 0,
    },
    // Filters of an edge: each stands at the first edge that has its classes.
    Case {
        parameters: 2,
        condition: &[
            Given::Atom(&[0, 1]),
            Given::Unequal(0, 1),
            Given::Not(&[0]),
            Given::Unequal(0, 0),
            Given::Not(&[1, 105, 1]),
        ],
        classes: &[0, 1],
        fixed: &[None, None],
        core: &[2],
        order: &[0, 1],
        local: &[2, 0, 0, 1],
        late: 0,
    },
    // Filters of which no edge has both classes, of an atom and of an inequality.
    Case {
        parameters: 3,
        condition: &[
            Given::Atom(&[0, 1]),
            Given::Atom(&[1, 2]),
            Given::Not(&[0, 2]),
            Given::Unequal(0, 2),
            Given::Not(&[2, 1]),
            Given::Unequal(1, 2),
        ],
        classes: &[0, 1, 2],
        fixed: &[None, None, None],
        core: &[4],
        order: &[1, 2, 0],
        local: &[4, 4],
        late: 2,
    },
    // A class that is fixed by a chain takes no part: only the filter of the other class is one.
    Case {
        parameters: 3,
        condition: &[
            Given::Equal(0, 1),
            Given::Equal(1, 105),
            Given::Atom(&[0, 2]),
            Given::Unequal(0, 2),
            Given::Not(&[1]),
            Given::Unequal(105, 106),
            Given::Unequal(1, 107),
        ],
        classes: &[0, 0, 2],
        fixed: &[Some(105), Some(105), None],
        core: &[1],
        order: &[2, 0, 1],
        local: &[0],
        late: 0,
    },
    // The same atom twice: its edges stay apart, and the first is an ear of the second.
    Case {
        parameters: 2,
        condition: &[Given::Atom(&[0, 1]), Given::Atom(&[0, 1])],
        classes: &[0, 1],
        fixed: &[None, None],
        core: &[3],
        order: &[0, 1],
        local: &[],
        late: 0,
    },
    // Equalities of objects, and of a parameter with itself, join nothing.
    Case {
        parameters: 2,
        condition: &[
            Given::Equal(105, 105),
            Given::Equal(105, 106),
            Given::Equal(1, 1),
        ],
        classes: &[0, 1],
        fixed: &[None, None],
        core: &[1],
        order: &[1, 0],
        local: &[],
        late: 0,
    },
    // As many parameters as a schema has at most.
    Case {
        parameters: 64,
        condition: &[
            Given::Atom(&[63, 0]),
            Given::Equal(1, 62),
            Given::Unequal(62, 63),
        ],
        classes: &[
            0, 1, 2, 3, 4, 5, 6, 7, 8, 9, 10, 11, 12, 13, 14, 15, 16, 17, 18, 19, 20, 21, 22, 23,
            24, 25, 26, 27, 28, 29, 30, 31, 32, 33, 34, 35, 36, 37, 38, 39, 40, 41, 42, 43, 44, 45,
            46, 47, 48, 49, 50, 51, 52, 53, 54, 55, 56, 57, 58, 59, 60, 61, 1, 63,
        ],
        fixed: &[None; 64],
        core: &[64],
        order: &[
            0, 63, 1, 61, 60, 59, 58, 57, 56, 55, 54, 53, 52, 51, 50, 49, 48, 47, 46, 45, 44, 43,
            42, 41, 40, 39, 38, 37, 36, 35, 34, 33, 32, 31, 30, 29, 28, 27, 26, 25, 24, 23, 22, 21,
            20, 19, 18, 17, 16, 15, 14, 13, 12, 11, 10, 9, 8, 7, 6, 5, 4, 3, 2, 62,
        ],
        local: &[],
        late: 1,
    },
    // No parameter.
    Case {
        parameters: 0,
        condition: &[Given::Atom(&[]), Given::Not(&[])],
        classes: &[],
        fixed: &[],
        core: &[],
        order: &[],
        local: &[],
        late: 0,
    },
];

fn term(number: u32) -> Term {
    if number < 100 {
        Term::Parameter(number)
    } else {
        Term::Object(number)
    }
}

fn lifted(alloc: Global, numbers: &[u32]) -> Result<Lifted, AllocError> {
    let mut terms = Vec::new(alloc);
    for number in numbers {
        terms.push(term(*number))?;
    }
    Ok(Lifted {
        predicate: 0,
        terms: List::of(terms),
    })
}

fn literal(alloc: Global, given: &Given) -> Result<Literal, AllocError> {
    match given {
        Given::Atom(numbers) => Ok(Literal::Atom(lifted(alloc, numbers)?)),
        Given::Not(numbers) => Ok(Literal::NotAtom(lifted(alloc, numbers)?)),
        Given::Equal(a, b) => Ok(Literal::Equal(term(*a), term(*b))),
        Given::Unequal(a, b) => Ok(Literal::NotEqual(term(*a), term(*b))),
    }
}

/// Whether the term is an object or a parameter below `n`.
fn term_is_below(n: usize, term: Term) -> bool
    ensures { IsTrue result → IsTermBelow n term }
{
    match term {
        Term::Parameter(p) => (p as usize) < n,
        Term::Object(_) => true,
    }
}

/// Whether all terms are objects or parameters below `n`.
fn terms_are_below(n: usize, terms: &[Term]) -> bool
    ensures { IsTrue result → All (IsTermBelow n) terms.now }
{
    for term in terms {
        if !term_is_below(n, *term) {
            return false;
        }
    }
    true
}

/// Whether the parameters of the literal are below `n`.
fn literal_is_below(n: usize, literal: &Literal) -> bool
    ensures { IsTrue result → IsLiteralBelow n literal.now }
{
    match literal {
        Literal::Atom(atom) => terms_are_below(n, atom.terms.as_slice()),
        Literal::NotAtom(atom) => terms_are_below(n, atom.terms.as_slice()),
        Literal::Equal(a, b) => terms_are_below(n, &[*a, *b]),
        Literal::NotEqual(a, b) => terms_are_below(n, &[*a, *b]),
    }
}

/// Whether the parameters of all literals are below `n`.
fn literals_are_below(n: usize, literals: &[Literal]) -> bool
    ensures { IsTrue result → All (IsLiteralBelow n) literals.now }
{
    for literal in literals {
        if !literal_is_below(n, literal) {
            return false;
        }
    }
    true
}

/// A schema with so many parameters and this condition.
fn schema_of(alloc: Global, case: &Case) -> Result<Schema, AllocError> {
    let mut parameters = Vec::new(alloc);
    for _p in 0..case.parameters {
        parameters.push(Parameter {
            name: List::of(Vec::new(alloc)),
            types: List::of(Vec::new(alloc)),
        })?;
    }
    let mut condition = Vec::new(alloc);
    for given in case.condition {
        condition.push(literal(alloc, given)?)?;
    }
    Ok(Schema {
        name: List::of(Vec::new(alloc)),
        parameters: List::of(parameters),
        condition: List::of(condition),
        delete: List::of(Vec::new(alloc)),
        add: List::of(Vec::new(alloc)),
    })
}

/// Whether the classes of the schema are these.
fn has_classes(alloc: Global, schema: &Schema, classes: &[u32]) -> Result<bool, AllocError>
    requires few { length schema.now.parameters ≤ 64 }
    requires literals { All (IsLiteralBelow (length schema.now.parameters)) schema.now.condition }
{
    Ok(parameter_classes(alloc, schema)?.as_slice() == classes)
}

/// Whether the parameters of the fixings are below `n`.
fn fixings_are_below(n: usize, fixings: &[Fixing]) -> bool
    ensures { IsTrue result ↔ All (λ f. f.parameter < n) fixings.now }
{
    fixings.iter().all(|fixing| (fixing.parameter as usize) < n)
}

/// Whether the slot is an object or a class below 64.
fn slot_is_below(slot: Slot) -> bool
    ensures { IsTrue result → IsSlotBelow 64 slot }
{
    match slot {
        Slot::Fixed(_) => true,
        Slot::Class(class) => class < 64,
    }
}

/// Whether the slots are objects and classes below 64.
fn slots_are_below(slots: &[Slot]) -> bool
    ensures { IsTrue result → All (IsSlotBelow 64) slots.now }
{
    for slot in slots {
        if !slot_is_below(*slot) {
            return false;
        }
    }
    true
}

/// Whether the filters belong to these edges.
fn are_at(local: &[Placed], edges: &[u32]) -> bool {
    if local.len() != edges.len() {
        return false;
    }
    for i in 0..local.len() {
        if local[i].edge != edges[i] {
            return false;
        }
    }
    true
}

/// Whether the slots, the filters, the core of the edges and the order of the parameters are those of the
/// case.
fn is_ordered(
    alloc: Global,
    classes: &[u32],
    condition: &[Literal],
    case: &Case,
) -> Result<bool, AllocError> {
    let found = fixings(alloc, condition)?;
    if !fixings_are_below(classes.len(), found.as_slice()) {
        return Ok(false);
    }
    let made = class_slots(alloc, classes, found.as_slice())?;
    let slots = made.as_slice();
    if slots.len() > 64 {
        return Ok(false);
    }
    if !slots_are_below(slots) {
        return Ok(false);
    }
    if !literals_are_below(slots.len(), condition) {
        return Ok(false);
    }
    let edges = edges(alloc, slots, condition)?;
    let edges = edges.as_slice();
    if edges.len() > 2000 {
        return Ok(false);
    }
    let filters = filters(alloc, edges, slots, condition)?;
    if !are_at(filters.local.as_slice(), case.local) || filters.late.len() != case.late {
        return Ok(false);
    }
    let sets = sets_of(alloc, edges)?;
    let sets = sets.as_slice();
    if sets.len() > 2000 {
        return Ok(false);
    }
    let plan = ears(alloc, sets)?;
    let order = parameter_order(alloc, classes.len() as u32, &plan)?;
    let fixed = slot_objects(alloc, slots)?;
    Ok(fixed.as_slice() == case.fixed && plan.core() == case.core && order.as_slice() == case.order)
}

#[test]
fn classes_and_orders_are_those_worked_out_by_hand(rt: HostRuntime) -> Result<(), Fail> {
    let alloc = rt.alloc();
    for (i, case) in CASES.iter().enumerate() {
        let schema = schema_of(alloc, case)?;
        let count = schema.parameters.as_slice().len();
        assert!(rt; count <= 64);
        assert!(rt; literals_are_below(count, schema.condition.as_slice()));
        assert!(rt; has_classes(alloc, &schema, case.classes)?, "case {i}");
        let condition = schema.condition.as_slice();
        assert!(rt;
            is_ordered(alloc, case.classes, condition, case)?,
            "case {i}"
        );
    }
    Ok(())
}
