//! Noted sets on a small task, worked by hand.

ghost use Rattle.std.specs.Prelude.{◌≤◌, IfOk};
ghost use Rattle.pl_state.specs.StateOf.{IsStateOf};

use pl_novel::Novelty;
use pl_samples::{AtomCase, atoms, places};
use pl_state::{Packed, apply, pack};
use pl_task::{StepRef, Task};
use std::alloc::{AllocError, Global};
use std::test::Fail;

/// Whether a state is new under width 1, and whether it is under width 2.
type New = (bool, bool);

/// The atoms of a state, and whether it is new after those before it.
struct NoteCase {
    atoms: &'static [AtomCase],
    new: New,
}

const NOTES: &[NoteCase] = &[
    NoteCase {
        atoms: &[],
        new: (false, false),
    },
    NoteCase {
        atoms: &[(0, &[0])],
        new: (true, true),
    },
    NoteCase {
        atoms: &[(0, &[0])],
        new: (false, false),
    },
    NoteCase {
        atoms: &[(0, &[3]), (0, &[0])],
        new: (true, true),
    },
    NoteCase {
        atoms: &[(0, &[3])],
        new: (false, false),
    },
    NoteCase {
        atoms: &[(2, &[])],
        new: (true, true),
    },
    NoteCase {
        atoms: &[(2, &[]), (0, &[0])],
        new: (false, true),
    },
    NoteCase {
        atoms: &[(0, &[3]), (2, &[])],
        new: (false, true),
    },
    NoteCase {
        atoms: &[(0, &[0]), (2, &[]), (0, &[3])],
        new: (false, false),
    },
];

/// A state, a step of it, and whether the state that the step leads to is new after those before it.
struct StepCase {
    atoms: &'static [AtomCase],
    schema: u32,
    args: &'static [u32],
    new: New,
}

const STEPS: &[StepCase] = &[
    // To where it was.
    StepCase {
        atoms: &[(0, &[0])],
        schema: 0,
        args: &[0, 0],
        new: (false, false),
    },
    StepCase {
        atoms: &[(0, &[0])],
        schema: 0,
        args: &[0, 1],
        new: (true, true),
    },
    // Two atoms that were seen, and are now together.
    StepCase {
        atoms: &[(0, &[0])],
        schema: 2,
        args: &[0, 1],
        new: (false, true),
    },
    // One atom, added twice.
    StepCase {
        atoms: &[(0, &[0])],
        schema: 2,
        args: &[0, 0],
        new: (false, false),
    },
    StepCase {
        atoms: &[(0, &[0])],
        schema: 1,
        args: &[0],
        new: (true, true),
    },
    // What it added before, beside an atom that it adds not.
    StepCase {
        atoms: &[(0, &[0])],
        schema: 1,
        args: &[1],
        new: (false, true),
    },
    StepCase {
        atoms: &[(0, &[0]), (0, &[1])],
        schema: 2,
        args: &[1, 2],
        new: (true, true),
    },
    StepCase {
        atoms: &[(0, &[0]), (0, &[1])],
        schema: 0,
        args: &[0, 2],
        new: (false, false),
    },
    StepCase {
        atoms: &[(0, &[0]), (0, &[1])],
        schema: 1,
        args: &[2],
        new: (false, true),
    },
    StepCase {
        atoms: &[(0, &[0]), (0, &[1])],
        schema: 1,
        args: &[1],
        new: (false, false),
    },
];

/// The state with the atoms that are of the task.
fn packed(alloc: Global, task: &Task, cases: &[AtomCase]) -> Result<Packed, AllocError>
    ensures { IfOk result (IsStateOf task.now) }
{
    pack(alloc, task, &atoms(alloc, task, cases)?)
}

/// Whether the state is new under width `k`.
fn under(k: u32, new: New) -> bool {
    if k == 1 { new.0 } else { new.1 }
}

/// How many states, from the first one on, are new under width `k` just where they are to be.
fn noted_as_wanted(alloc: Global, task: &Task, k: u32) -> Result<usize, AllocError>
    requires some { 1 ≤ k }
    requires few { k ≤ 2 }
{
    let mut novelty = Novelty::new(alloc, k);
    for (i, case) in NOTES.iter().enumerate() {
        let state = packed(alloc, task, case.atoms)?;
        if novelty.note(task, &state)? != under(k, case.new) {
            return Ok(i);
        }
    }
    Ok(NOTES.len())
}

#[test]
fn states_are_noted(rt: HostRuntime) -> Result<(), Fail> {
    let task = places(rt.alloc(), 4, false)?;
    for k in 1..=2 {
        let many = noted_as_wanted(rt.alloc(), &task, k)?;
        assert_eq!(rt; many, NOTES.len(), "width {k}");
    }
    Ok(())
}

/// Whether the state that a step leads to is new, once the state before it is noted. It is not for what is no
/// step.
fn is_new_by(
    alloc: Global,
    task: &Task,
    novelty: &mut Novelty,
    case: &StepCase,
) -> Result<bool, AllocError> {
    let step = StepRef {
        schema: case.schema,
        args: case.args,
    };
    if !task.is_step(step) {
        return Ok(false);
    }
    let before = packed(alloc, task, case.atoms)?;
    novelty.note(task, &before)?;
    let next = apply(alloc, task, &before, step)?;
    novelty.note_step(task, &next, step)
}

/// How many steps, from the first one on, lead to a new state under width `k` just where they are to.
fn stepped_as_wanted(alloc: Global, task: &Task, k: u32) -> Result<usize, AllocError>
    requires some { 1 ≤ k }
    requires few { k ≤ 2 }
{
    let mut novelty = Novelty::new(alloc, k);
    for (i, case) in STEPS.iter().enumerate() {
        if is_new_by(alloc, task, &mut novelty, case)? != under(k, case.new) {
            return Ok(i);
        }
    }
    Ok(STEPS.len())
}

#[test]
fn steps_are_noted(rt: HostRuntime) -> Result<(), Fail> {
    let task = places(rt.alloc(), 4, false)?;
    for k in 1..=2 {
        let many = stepped_as_wanted(rt.alloc(), &task, k)?;
        assert_eq!(rt; many, STEPS.len(), "width {k}");
    }
    Ok(())
}
