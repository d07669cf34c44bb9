//! Words and answers on a small task, worked by hand.

ghost use Rattle.std.specs.Prelude.{IfOk};
ghost use Rattle.pl_state.specs.StateOf.{IsStateOf};

use pl_samples::{AtomCase, atoms, is_atom, places};
use pl_state::{GoalTest, Packed, StaticAtoms, apply, holds_fluent, pack, tables, true_rows};
use pl_task::{StepRef, Task};
use std::alloc::{AllocError, Global};
use std::collections::HashSet;
use std::test::Fail;

/// Atoms, and the words of their state. Predicate 0 is `at`, 1 the static `link`, and 2 `done`:
/// the words are the number and the rows of `at`, then the number of `done`.
struct PackCase {
    atoms: &'static [AtomCase],
    words: &'static [u32],
}

const PACKS: &[PackCase] = &[
    PackCase {
        atoms: &[],
        words: &[0, 0],
    },
    PackCase {
        atoms: &[(0, &[1])],
        words: &[1, 1, 0],
    },
    // Order and repeats don't matter, and static atoms are left out.
    PackCase {
        atoms: &[
            (0, &[2]),
            (2, &[]),
            (1, &[1, 0]),
            (0, &[0]),
            (0, &[2]),
            (2, &[]),
        ],
        words: &[2, 0, 2, 1],
    },
];

/// Words of a state, a step, and the words afterwards. Schema 0 hops, 1 finishes, 2 spreads.
struct ApplyCase {
    atoms: &'static [AtomCase],
    schema: u32,
    args: &'static [u32],
    words: &'static [u32],
}

const APPLIES: &[ApplyCase] = &[
    ApplyCase {
        atoms: &[(0, &[0])],
        schema: 0,
        args: &[0, 1],
        words: &[1, 1, 0],
    },
    // What is deleted and added is there.
    ApplyCase {
        atoms: &[(0, &[0])],
        schema: 0,
        args: &[0, 0],
        words: &[1, 0, 0],
    },
    // A delete that isn't there, an add that is.
    ApplyCase {
        atoms: &[(0, &[1]), (0, &[2])],
        schema: 0,
        args: &[0, 2],
        words: &[2, 1, 2, 0],
    },
    // Both ends of a part.
    ApplyCase {
        atoms: &[(0, &[3]), (0, &[1]), (0, &[2])],
        schema: 0,
        args: &[3, 0],
        words: &[3, 0, 1, 2, 0],
    },
    ApplyCase {
        atoms: &[(0, &[0]), (0, &[1]), (2, &[])],
        schema: 0,
        args: &[0, 3],
        words: &[2, 1, 3, 1],
    },
    ApplyCase {
        atoms: &[(0, &[1])],
        schema: 1,
        args: &[1],
        words: &[0, 1],
    },
    ApplyCase {
        atoms: &[(2, &[]), (0, &[2])],
        schema: 2,
        args: &[3, 0],
        words: &[3, 0, 2, 3, 0],
    },
    ApplyCase {
        atoms: &[],
        schema: 2,
        args: &[1, 1],
        words: &[1, 1, 0],
    },
];

/// The atoms of a state, and whether an atom is true in it.
struct HeldCase {
    atoms: &'static [AtomCase],
    atom: AtomCase,
    held: bool,
}

const HELD: &[HeldCase] = &[
    HeldCase {
        atoms: &[(0, &[3]), (0, &[0])],
        atom: (0, &[3]),
        held: true,
    },
    HeldCase {
        atoms: &[(0, &[3]), (0, &[0])],
        atom: (0, &[1]),
        held: false,
    },
    HeldCase {
        atoms: &[(0, &[3])],
        atom: (1, &[0, 1]),
        held: true,
    },
    HeldCase {
        atoms: &[(0, &[3])],
        atom: (1, &[1, 0]),
        held: false,
    },
    HeldCase {
        atoms: &[(0, &[3])],
        atom: (2, &[]),
        held: false,
    },
];

/// The atoms of a state, and how many literals of the goal they leave unmet.
struct GoalCase {
    atoms: &'static [AtomCase],
    unmet: u32,
}

const GOALS: &[GoalCase] = &[
    GoalCase {
        atoms: &[(0, &[3]), (0, &[0])],
        unmet: 3,
    },
    GoalCase {
        atoms: &[(2, &[]), (0, &[1])],
        unmet: 0,
    },
];

/// The state with the atoms that are of the task.
fn packed(alloc: Global, task: &Task, cases: &[AtomCase]) -> Result<Packed, AllocError>
    ensures { IfOk result (IsStateOf task.now) }
{
    pack(alloc, task, &atoms(alloc, task, cases)?)
}

#[test]
fn atoms_are_packed(rt: HostRuntime) -> Result<(), Fail> {
    let alloc = rt.alloc();
    let task = places(alloc, 4, false)?;
    for (i, case) in PACKS.iter().enumerate() {
        let state = packed(alloc, &task, case.atoms)?;
        assert!(rt; state.words() == case.words, "case {i}");
    }
    Ok(())
}

#[test]
fn steps_are_applied(rt: HostRuntime) -> Result<(), Fail> {
    let alloc = rt.alloc();
    let task = places(alloc, 4, false)?;
    for (i, case) in APPLIES.iter().enumerate() {
        let state = packed(alloc, &task, case.atoms)?;
        let step = StepRef {
            schema: case.schema,
            args: case.args,
        };
        assert!(rt; task.is_step(step), "case {i}");
        let next = apply(alloc, &task, &state, step)?;
        assert!(rt; next.words() == case.words, "case {i}");
    }
    Ok(())
}

/// Whether the atom is one of the task, and each way to ask a state for it answers as the case has it.
fn is_told(alloc: Global, task: &Task, case: &HeldCase) -> Result<bool, AllocError> {
    let (predicate, objects) = case.atom;
    if !is_atom(task, predicate, objects) {
        return Ok(false);
    }
    let state = packed(alloc, task, case.atoms)?;
    let statics = StaticAtoms::of(alloc, task)?;
    if statics.holds(task, &state, predicate, objects) != case.held {
        return Ok(false);
    }
    if task.predicates.as_slice()[predicate as usize].is_static {
        return Ok(true);
    }
    Ok(holds_fluent(task, &state, predicate, objects) == case.held)
}

#[test]
fn states_are_asked(rt: HostRuntime) -> Result<(), Fail> {
    let alloc = rt.alloc();
    let task = places(alloc, 4, false)?;
    for (i, case) in HELD.iter().enumerate() {
        assert!(rt; is_told(alloc, &task, case)?, "case {i}");
    }
    Ok(())
}

/// Whether the state leaves so many literals of the goal unmet.
fn is_counted(alloc: Global, task: &Task, case: &GoalCase) -> Result<bool, AllocError> {
    let state = packed(alloc, task, case.atoms)?;
    let goal = GoalTest::of(alloc, task)?;
    Ok(goal.unmet(task, &state) == case.unmet && goal.holds(task, &state) == (case.unmet == 0))
}

#[test]
fn goals_are_counted(rt: HostRuntime) -> Result<(), Fail> {
    let alloc = rt.alloc();
    let task = places(alloc, 4, false)?;
    for (i, case) in GOALS.iter().enumerate() {
        assert!(rt; is_counted(alloc, &task, case)?, "case {i}");
    }
    Ok(())
}

#[test]
fn equal_states_are_one(rt: HostRuntime) -> Result<(), Fail> {
    let alloc = rt.alloc();
    let task = places(alloc, 4, false)?;
    let state = packed(alloc, &task, &[(0, &[3]), (0, &[0])])?;
    let again = packed(alloc, &task, &[(0, &[0]), (0, &[3])])?;
    let other = packed(alloc, &task, &[(0, &[0]), (0, &[2])])?;
    assert!(rt; state == again);
    assert!(rt; state != other);
    let mut seen: HashSet<Packed> = HashSet::new(alloc);
    seen.insert(state)?;
    assert!(rt; seen.contains(&again));
    assert!(rt; !seen.contains(&other));
    Ok(())
}

#[test]
fn states_are_seen_as_tables(rt: HostRuntime) -> Result<(), Fail> {
    let alloc = rt.alloc();
    let task = places(alloc, 4, false)?;
    assert_eq!(rt; task.predicates.as_slice().len(), 3);
    let state = packed(alloc, &task, &[(0, &[3]), (0, &[0])])?;
    let made = tables(alloc, &task, &state)?;
    let at = made.of(0).ok_or("a table")?;
    assert_eq!(rt; at.arity(), 1);
    assert_eq!(rt; at.len(), 2);
    assert!(rt; made.of(1).is_none());
    assert!(rt; !task.predicates.as_slice()[0].is_static);
    let rows = true_rows(&task, &state, 0);
    assert_eq!(rt; rows.count, 2);
    assert!(rt; rows.flat == [0, 3].as_slice());
    Ok(())
}
