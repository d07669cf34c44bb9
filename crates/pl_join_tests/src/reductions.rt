//! Joins whose reduction was worked out by hand.

ghost use Rattle.std.specs.Prelude.{◌≡◌, ◌<◌};
ghost use Rattle.pl_reduce.specs.Recipes.{AreGiven};

use crate::given::{CIRCLE, NONE, OBJECTS, ONE, PAIR, PATH, Rows, reads, relation_of};
use Slot::Class;
use pl_hyper::{Ear, EarPlan, ears};
use pl_join::{Relation, Slot, hash_join};
use pl_reduce::{Recipe, Reduced};
use pl_steps::Steps;
use std::alloc::{AllocError, Global};
use std::marker::Brand;
use std::sync::ledger::{Blank, Ledger};
use std::test::Fail;

/// A table, and what stands at its columns.
struct Atom(Rows<'static>, &'static [Slot]);

/// A node's classes, the width of its key, and its rows.
struct Node(&'static [u32], u32, &'static [&'static [u32]]);

/// A join: an edge and an atom for each of its relations, and what the reduction makes of it.
struct Case {
    edges: &'static [u64],
    atoms: &'static [Atom],
    classes: &'static [u32],
    nodes: &'static [Node],
    is_empty: bool,
}

/// No row of one column.
const EMPTY: Rows<'static> = Rows(1, 0, &[]);

/// The objects of eight layers of two, and of the chain 14 to 21 through them.
const ALL: Rows<'static> = Rows(
    1,
    24,
    &[
        0, 1, 2, 3, 4, 5, 6, 7, 8, 9, 10, 11, 12, 13, 14, 15, 16, 17, 18, 19, 20, 21, 22, 23,
    ],
);

const CASES: &[Case] = &[
    // walks of two steps: the type of each parameter, and then the steps; no row dangles
    Case {
        edges: &[0b001, 0b010, 0b100, 0b011, 0b110],
        atoms: &[
            Atom(OBJECTS, &[Class(0)]),
            Atom(OBJECTS, &[Class(1)]),
            Atom(OBJECTS, &[Class(2)]),
            Atom(PATH, &[Class(0), Class(1)]),
            Atom(PATH, &[Class(1), Class(2)]),
        ],
        classes: &[1, 2, 0],
        nodes: &[
            Node(&[1, 2], 0, &[&[0, 1], &[1, 0], &[1, 2], &[2, 1]]),
            Node(&[0], 1, &[&[0], &[1], &[2]]),
            Node(&[1], 1, &[&[0], &[1], &[2]]),
            Node(&[2], 1, &[&[0], &[1], &[2]]),
            Node(&[1, 0], 1, &[&[0, 1], &[1, 0], &[1, 2], &[2, 1]]),
        ],
        is_empty: false,
    },
    // the types, p(x) and q(y), of which q has no row
    Case {
        edges: &[0b01, 0b10, 0b01, 0b10],
        atoms: &[
            Atom(OBJECTS, &[Class(0)]),
            Atom(OBJECTS, &[Class(1)]),
            Atom(Rows(1, 2, &[0, 1]), &[Class(0)]),
            Atom(EMPTY, &[Class(1)]),
        ],
        classes: &[1, 0],
        nodes: &[
            Node(&[1], 0, &[]),
            Node(&[0], 1, &[]),
            Node(&[1], 1, &[]),
            Node(&[0], 0, &[]),
        ],
        is_empty: true,
    },
    // eight layers, each joined with the next one; the chain through them ends, and nothing else does
    Case {
        edges: &[
            0b0000_0001,
            0b0000_0010,
            0b0000_0100,
            0b0000_1000,
            0b0001_0000,
            0b0010_0000,
            0b0100_0000,
            0b1000_0000,
            0b0000_0011,
            0b0000_0110,
            0b0000_1100,
            0b0001_1000,
            0b0011_0000,
            0b0110_0000,
            0b1100_0000,
        ],
        atoms: &[
            Atom(ALL, &[Class(0)]),
            Atom(ALL, &[Class(1)]),
            Atom(ALL, &[Class(2)]),
            Atom(ALL, &[Class(3)]),
            Atom(ALL, &[Class(4)]),
            Atom(ALL, &[Class(5)]),
            Atom(ALL, &[Class(6)]),
            Atom(ALL, &[Class(7)]),
            Atom(
                Rows(2, 5, &[0, 2, 0, 3, 1, 2, 1, 3, 14, 15]),
                &[Class(0), Class(1)],
            ),
            Atom(
                Rows(2, 5, &[2, 4, 2, 5, 3, 4, 3, 5, 15, 16]),
                &[Class(1), Class(2)],
            ),
            Atom(
                Rows(2, 5, &[4, 6, 4, 7, 5, 6, 5, 7, 16, 17]),
                &[Class(2), Class(3)],
            ),
            Atom(
                Rows(2, 5, &[6, 8, 6, 9, 7, 8, 7, 9, 17, 18]),
                &[Class(3), Class(4)],
            ),
            Atom(
                Rows(2, 5, &[8, 10, 8, 11, 9, 10, 9, 11, 18, 19]),
                &[Class(4), Class(5)],
            ),
            Atom(
                Rows(2, 5, &[10, 12, 10, 13, 11, 12, 11, 13, 19, 20]),
                &[Class(5), Class(6)],
            ),
            Atom(
                Rows(2, 5, &[22, 22, 22, 23, 23, 22, 23, 23, 20, 21]),
                &[Class(6), Class(7)],
            ),
        ],
        classes: &[6, 7, 5, 4, 3, 2, 1, 0],
        nodes: &[
            Node(&[6, 7], 0, &[&[20, 21]]),
            Node(&[0], 1, &[&[14]]),
            Node(&[1], 1, &[&[15]]),
            Node(&[2], 1, &[&[16]]),
            Node(&[3], 1, &[&[17]]),
            Node(&[4], 1, &[&[18]]),
            Node(&[5], 1, &[&[19]]),
            Node(&[6], 1, &[&[20]]),
            Node(&[7], 1, &[&[21]]),
            Node(&[1, 0], 1, &[&[15, 14]]),
            Node(&[2, 1], 1, &[&[16, 15]]),
            Node(&[3, 2], 1, &[&[17, 16]]),
            Node(&[4, 3], 1, &[&[18, 17]]),
            Node(&[5, 4], 1, &[&[19, 18]]),
            Node(&[6, 5], 1, &[&[20, 19]]),
        ],
        is_empty: false,
    },
    // a root alone
    Case {
        edges: &[0b101],
        atoms: &[Atom(CIRCLE, &[Class(2), Class(0)])],
        classes: &[0, 2],
        nodes: &[Node(&[0, 2], 0, &[&[0, 2], &[1, 0], &[2, 1]])],
        is_empty: false,
    },
    // a node without a class, with the empty row and without a row
    Case {
        edges: &[0, 0b1],
        atoms: &[Atom(ONE, &[]), Atom(OBJECTS, &[Class(0)])],
        classes: &[0],
        nodes: &[Node(&[0], 0, &[&[0], &[1], &[2]]), Node(&[], 0, &[&[]])],
        is_empty: false,
    },
    Case {
        edges: &[0, 0b1],
        atoms: &[Atom(NONE, &[]), Atom(OBJECTS, &[Class(0)])],
        classes: &[0],
        nodes: &[Node(&[0], 0, &[]), Node(&[], 0, &[])],
        is_empty: true,
    },
    // the same as the root
    Case {
        edges: &[0b1, 0],
        atoms: &[Atom(OBJECTS, &[Class(0)]), Atom(ONE, &[])],
        classes: &[0],
        nodes: &[Node(&[], 0, &[&[]]), Node(&[0], 0, &[&[0], &[1], &[2]])],
        is_empty: false,
    },
    // two components
    Case {
        edges: &[0b0011, 0b1100, 0b1000],
        atoms: &[
            Atom(PAIR, &[Class(0), Class(1)]),
            Atom(CIRCLE, &[Class(2), Class(3)]),
            Atom(Rows(1, 2, &[2, 1]), &[Class(3)]),
        ],
        classes: &[3, 2, 0, 1],
        nodes: &[
            Node(&[3], 0, &[&[1], &[2]]),
            Node(&[0, 1], 0, &[&[0, 1], &[1, 0]]),
            Node(&[3, 2], 1, &[&[1, 0], &[2, 1]]),
        ],
        is_empty: false,
    },
    // (6, 1) of the first edge goes with its parent's (1, 5), which the root drops on the way back
    Case {
        edges: &[0b0011, 0b0110, 0b1100],
        atoms: &[
            Atom(Rows(2, 2, &[5, 0, 6, 1]), &[Class(0), Class(1)]),
            Atom(Rows(2, 2, &[0, 4, 1, 5]), &[Class(1), Class(2)]),
            Atom(Rows(2, 2, &[4, 8, 7, 9]), &[Class(2), Class(3)]),
        ],
        classes: &[2, 3, 1, 0],
        nodes: &[
            Node(&[2, 3], 0, &[&[4, 8]]),
            Node(&[1, 0], 1, &[&[0, 5]]),
            Node(&[2, 1], 1, &[&[4, 0]]),
        ],
        is_empty: false,
    },
    // a circle of three edges, which stays as the core, and a further edge
    Case {
        edges: &[0b0011, 0b0110, 0b0101, 0b1100],
        atoms: &[
            Atom(CIRCLE, &[Class(0), Class(1)]),
            Atom(CIRCLE, &[Class(1), Class(2)]),
            Atom(CIRCLE, &[Class(2), Class(0)]),
            Atom(Rows(2, 4, &[0, 7, 2, 8, 2, 9, 3, 9]), &[Class(2), Class(3)]),
        ],
        classes: &[0, 1, 2, 3],
        nodes: &[
            Node(&[0, 1, 2], 0, &[&[0, 1, 2], &[1, 2, 0]]),
            Node(&[2, 3], 1, &[&[0, 7], &[2, 8], &[2, 9]]),
        ],
        is_empty: false,
    },
];

/// The relation of an edge.
fn relation_at<L: Ledger>(
    alloc: Global,
    atoms: &[Atom],
    edge: u32,
    steps: &mut Steps<L>,
) -> Result<Option<Relation>, AllocError> {
    match atoms.get(edge as usize) {
        None => Ok(None),
        Some(Atom(table, slots)) => relation_of(alloc, *table, slots, steps),
    }
}

/// The join of the core's relations.
fn root_of<L: Ledger>(
    alloc: Global,
    atoms: &[Atom],
    core: &[u32],
    steps: &mut Steps<L>,
) -> Result<Option<Relation>, AllocError> {
    let Some((first, others)) = core.split_first() else {
        return Ok(None);
    };
    let Some(mut root) = relation_at(alloc, atoms, *first, steps)? else {
        return Ok(None);
    };
    for edge in others {
        let Some(relation) = relation_at(alloc, atoms, *edge, steps)? else {
            return Ok(None);
        };
        root = hash_join(alloc, &root, &relation, steps)?;
    }
    Ok(Some(root))
}

/// The relations of the ears.
fn rest_of<L: Ledger>(
    alloc: Global,
    atoms: &[Atom],
    removed: &[Ear],
    steps: &mut Steps<L>,
) -> Result<Option<Vec<Relation>>, AllocError> {
    let mut rest = Vec::new(alloc);
    for ear in removed {
        let Some(relation) = relation_at(alloc, atoms, ear.edge, steps)? else {
            return Ok(None);
        };
        rest.push(relation)?;
    }
    Ok(Some(rest))
}

fn reduced_of<L: Ledger>(
    alloc: Global,
    case: &Case,
    steps: &mut Steps<L>,
) -> Result<Option<Reduced<'static>>, AllocError> {
    if case.edges.len() > 64 {
        return Ok(None);
    }
    let plan = ears(alloc, case.edges)?;
    let Some(root) = root_of(alloc, case.atoms, plan.core(), steps)? else {
        return Ok(None);
    };
    let Some(rest) = rest_of(alloc, case.atoms, plan.removed(), steps)? else {
        return Ok(None);
    };
    if !Reduced::fits(alloc, &root, &rest, &plan)? {
        return Ok(None);
    }
    Ok(Some(Reduced::reduce(alloc, root, rest, &plan, steps)?))
}

fn has_nodes<L: Ledger>(join: &Reduced<'_>, nodes: &[Node], steps: &mut Steps<L>) -> bool {
    if join.nodes() != nodes.len() {
        return false;
    }
    for (i, Node(classes, width, rows)) in nodes.iter().enumerate() {
        if join.node_classes(i) != *classes || join.indexed(i).width() != *width {
            return false;
        }
        if !reads(join.table(i), rows, steps) {
            return false;
        }
    }
    true
}

/// Whether the join is as the case says.
fn is_alike<L: Ledger>(join: &Reduced<'_>, case: &Case, steps: &mut Steps<L>) -> bool {
    if join.classes() != case.classes || join.is_empty() != case.is_empty {
        return false;
    }
    has_nodes(join, case.nodes, steps)
}

fn is_met<L: Ledger>(alloc: Global, case: &Case, blank: Blank) -> Result<bool, AllocError>
    requires name { blank.name ≡ L.name }
    requires parts { blank.parts ≡ L.parts }
    requires some { 0 < blank.parts }
{
    let mut steps: Steps<L> = Steps::new(blank);
    match reduced_of(alloc, case, &mut steps)? {
        None => Ok(false),
        Some(join) => Ok(is_alike(&join, case, &mut steps)),
    }
}

/// A copy of the relations of the nodes in the mask.
fn masked(
    alloc: Global,
    relations: &[Relation],
    mask: u64,
) -> Result<Vec<Option<Relation>>, AllocError> {
    let mut some = Vec::new(alloc);
    for (i, relation) in relations.iter().enumerate() {
        if i < 64 && mask >> i & 1 == 1 {
            some.push(Some(relation.copied(alloc)?))?;
        } else {
            some.push(None)?;
        }
    }
    Ok(some)
}

/// The relations of the nodes: the root's, and those of the ears.
fn nodes_of<L: Ledger>(
    alloc: Global,
    case: &Case,
    plan: &EarPlan,
    steps: &mut Steps<L>,
) -> Result<Option<Vec<Relation>>, AllocError> {
    let Some(root) = root_of(alloc, case.atoms, plan.core(), steps)? else {
        return Ok(None);
    };
    let Some(rest) = rest_of(alloc, case.atoms, plan.removed(), steps)? else {
        return Ok(None);
    };
    let mut nodes = rest;
    nodes.insert(0, root)?;
    Ok(Some(nodes))
}

/// Whether the case's join is as it says where the relations of the nodes in the mask are fixed.
fn is_met_with<L: Ledger>(
    alloc: Global,
    case: &Case,
    mask: u64,
    steps: &mut Steps<L>,
) -> Result<bool, AllocError> {
    if case.edges.len() > 64 {
        return Ok(false);
    }
    let plan = ears(alloc, case.edges)?;
    let Some(nodes) = nodes_of(alloc, case, &plan, steps)? else {
        return Ok(false);
    };
    let fixed = masked(alloc, &nodes, mask)?;
    let given = masked(alloc, &nodes, !mask)?;
    if !Recipe::fits(alloc, &plan, &fixed)? || !Recipe::fits(alloc, &plan, &given)? {
        return Ok(false);
    }
    let recipe = Recipe::of(alloc, &plan, fixed, steps)?;
    if !recipe.lacks(&given) {
        return Ok(false);
    }
    is_alike_with(alloc, &recipe, given, case, steps)
}

/// Whether the reduction with a recipe is as the case says.
fn is_alike_with<L: Ledger>(
    alloc: Global,
    recipe: &Recipe,
    given: Vec<Option<Relation>>,
    case: &Case,
    steps: &mut Steps<L>,
) -> Result<bool, AllocError>
    requires { AreGiven recipe.now given.items }
{
    let join = Reduced::reduce_with(alloc, recipe, given, steps)?;
    Ok(is_alike(&join, case, steps))
}

/// Whether the case's join is as it says, whatever relations are fixed: none, all, each alone, and all but
/// each.
fn is_met_by_recipes<L: Ledger>(
    alloc: Global,
    case: &Case,
    blank: Blank,
) -> Result<bool, AllocError>
    requires name { blank.name ≡ L.name }
    requires parts { blank.parts ≡ L.parts }
    requires some { 0 < blank.parts }
{
    let mut steps: Steps<L> = Steps::new(blank);
    let every: u64 = !0;
    for node in 0..16u32 {
        let alone: u64 = 1 << node;
        for mask in [0, every, alone, every ^ alone, every / 3, every / 7 << node] {
            if !is_met_with(alloc, case, mask, &mut steps)? {
                return Ok(false);
            }
        }
    }
    Ok(true)
}

#[test]
fn recipes_have_the_nodes_by_hand(rt: HostRuntime) -> Result<(), Fail> {
    for (i, case) in CASES.iter().enumerate() {
        let met = is_met_by_recipes::<Brand>(rt.alloc(), case, Blank::new(1))?;
        assert!(rt; met, "case {i}");
    }
    Ok(())
}

#[test]
fn reductions_have_the_nodes_by_hand(rt: HostRuntime) -> Result<(), Fail> {
    for (i, case) in CASES.iter().enumerate() {
        let met = is_met::<Brand>(rt.alloc(), case, Blank::new(1))?;
        assert!(rt; met, "case {i}");
    }
    Ok(())
}
