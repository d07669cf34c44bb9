//! The removal, the core and the order of classes of small hypergraphs, computed by hand from the rules.

use pl_hyper::ears;
use std::alloc::Global;
use std::process::Abort;
use std::test::Fail;

const A: u64 = 1;

const B: u64 = 2;

const C: u64 = 4;

const D: u64 = 8;

const E: u64 = 16;

const OBJECT: u64 = 1;

const ROOM: u64 = 2;

const GRIPPER: u64 = 4;

/// A hypergraph, and what its plan has to be: pairs of an ear and its parent, the core, and the order of the
/// classes.
#[derive(Clone, Copy)]
struct Case<'a> {
    name: &'a str,
    edges: &'a [u64],
    removed: &'a [(u32, u32)],
    core: &'a [u32],
    acyclic: bool,
    order: &'a [u32],
}

const CASES: &[Case<'static>] = &[
    Case {
        name: "no edge",
        edges: &[],
        removed: &[],
        core: &[],
        acyclic: true,
        order: &[],
    },
    Case {
        name: "one edge",
        edges: &[B | D],
        removed: &[],
        core: &[0],
        acyclic: true,
        order: &[1, 3],
    },
    Case {
        name: "equal edges",
        edges: &[A | B, A | B],
        removed: &[(0, 1)],
        core: &[1],
        acyclic: true,
        order: &[0, 1],
    },
    Case {
        name: "an edge inside the one before",
        edges: &[A | B, B],
        removed: &[(0, 1)],
        core: &[1],
        acyclic: true,
        order: &[1, 0],
    },
    Case {
        name: "an edge inside the one behind",
        edges: &[B, A | B],
        removed: &[(0, 1)],
        core: &[1],
        acyclic: true,
        order: &[0, 1],
    },
    Case {
        name: "two components",
        edges: &[A | B, C | D, B],
        removed: &[(0, 2), (1, 2)],
        core: &[2],
        acyclic: true,
        order: &[1, 2, 3, 0],
    },
    Case {
        name: "a path, with an edge for each class",
        edges: &[A, B, C, A | B, B | C],
        removed: &[(0, 3), (1, 3), (2, 4), (3, 4)],
        core: &[4],
        acyclic: true,
        order: &[1, 2, 0],
    },
    Case {
        name: "a triangle, with an edge for each class",
        edges: &[A, B, C, A | B, B | C, C | A],
        removed: &[(0, 3), (1, 3), (2, 4)],
        core: &[3, 4, 5],
        acyclic: false,
        order: &[0, 1, 2],
    },
    Case {
        name: "a triangle that an edge holds",
        edges: &[A | B, B | C, C | A, A | B | C],
        removed: &[(0, 3), (1, 3), (2, 3)],
        core: &[3],
        acyclic: true,
        order: &[0, 1, 2],
    },
    Case {
        name: "a cycle of four",
        edges: &[A | B, B | C, C | D, D | A],
        removed: &[],
        core: &[0, 1, 2, 3],
        acyclic: false,
        order: &[0, 1, 2, 3],
    },
    Case {
        name: "a triangle with a path that hangs on it",
        edges: &[A | B, B | C, A | C, C | D, D | E],
        removed: &[(4, 3), (3, 1)],
        core: &[0, 1, 2],
        acyclic: false,
        order: &[0, 1, 2, 3, 4],
    },
    Case {
        name: "gripper's pick",
        edges: &[
            OBJECT,
            ROOM,
            GRIPPER,
            OBJECT,
            ROOM,
            GRIPPER,
            OBJECT | ROOM,
            ROOM,
            GRIPPER,
        ],
        removed: &[
            (0, 3),
            (1, 4),
            (2, 5),
            (3, 6),
            (4, 6),
            (5, 8),
            (6, 7),
            (7, 8),
        ],
        core: &[8],
        acyclic: true,
        order: &[2, 1, 0],
    },
    Case {
        name: "gripper's drop",
        edges: &[
            OBJECT,
            ROOM,
            GRIPPER,
            OBJECT,
            ROOM,
            GRIPPER,
            OBJECT | GRIPPER,
            ROOM,
        ],
        removed: &[(0, 3), (1, 4), (2, 5), (3, 6), (4, 7), (5, 6), (6, 7)],
        core: &[7],
        acyclic: true,
        order: &[1, 0, 2],
    },
];

fn has_plan(rt: &impl Abort, alloc: Global, case: &Case<'_>) -> Result<(), Fail> {
    let name = case.name;
    assert!(rt; case.edges.len() < 100);
    let plan = ears(alloc, case.edges)?;
    let pairs = plan.removed().iter().map(|ear| (ear.edge, ear.parent));
    let removed: Vec<(u32, u32)> = pairs.collect(alloc)?;
    assert_eq!(rt; plan.edges(), case.edges, "edges of {name}");
    assert_eq!(rt; removed.as_slice(), case.removed, "ears of {name}");
    assert_eq!(rt; plan.core(), case.core, "core of {name}");
    assert_eq!(rt; plan.is_acyclic(), case.acyclic, "{name}");
    let order = plan.class_order(alloc)?;
    assert_eq!(rt; order.as_slice(), case.order, "order of {name}");
    Ok(())
}

#[test]
fn small_hypergraphs(rt: HostRuntime) -> Result<(), Fail> {
    for case in CASES {
        has_plan(&rt, rt.alloc(), case)?;
    }
    Ok(())
}

#[test]
fn all_classes(rt: HostRuntime) -> Result<(), Fail> {
    let order: Vec<u32> = (0..64).collect(rt.alloc())?;
    let case = Case {
        name: "the last class, and all classes",
        edges: &[1 << 63, u64::MAX],
        removed: &[(0, 1)],
        core: &[1],
        acyclic: true,
        order: order.as_slice(),
    };
    has_plan(&rt, rt.alloc(), &case)
}
