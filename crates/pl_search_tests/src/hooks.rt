//! Hooks on a small task, worked by hand.

ghost use Rattle.std.specs.Prelude.{◌≡◌, ◌↔◌, false, IfOk, IsTrue};
ghost use Rattle.pl_task.specs.Goal.{unmet, IsHopeless};
ghost use Rattle.pl_state.specs.Decided.{IsDecidedGoal};
ghost use Rattle.pl_state.specs.StateOf.{state_in, IsStateOf};
ghost use Rattle.pl_hooks.specs.Fixed.{IsFixedGoal};

use pl_hooks::{HopelessTest, Pruner, Ranker};
use pl_samples::{AtomCase, atoms, places};
use pl_state::{GoalTest, Packed, pack};
use pl_task::Task;
use std::alloc::{AllocError, Global};
use std::test::Fail;

/// The atoms of a state, and how many literals of the goal they leave unmet.
struct RankCase {
    atoms: &'static [AtomCase],
    rank: u32,
}

const RANKS: &[RankCase] = &[
    RankCase {
        atoms: &[],
        rank: 3,
    },
    RankCase {
        atoms: &[(0, &[0]), (0, &[3])],
        rank: 3,
    },
    RankCase {
        atoms: &[(2, &[])],
        rank: 2,
    },
    RankCase {
        atoms: &[(0, &[1])],
        rank: 1,
    },
    RankCase {
        atoms: &[(0, &[1]), (2, &[])],
        rank: 0,
    },
];

/// The state with the atoms that are of the task.
pub fn packed(alloc: Global, task: &Task, cases: &[AtomCase]) -> Result<Packed, AllocError>
    ensures { IfOk result (IsStateOf task.now) }
{
    pack(alloc, task, &atoms(alloc, task, cases)?)
}

/// The answer of a pruner that keeps every state.
fn is_cut(task: &Task, state: &Packed) -> bool
    requires { IsStateOf task.now state.now }
    ensures { result ≡ false }
{
    let pruner = Pruner::new(task, |_state: &Packed| false);
    pruner.cut(state)
}

/// The answer of a pruner that cuts hopeless states.
pub fn is_hopeless_cut(test: &HopelessTest, task: &Task, state: &Packed) -> bool
    requires goal { IsFixedGoal task.now test.now }
    requires state { IsStateOf task.now state.now }
    ensures { IsTrue result ↔ IsHopeless task.now (state_in task.now state.now) }
{
    let pruner = Pruner::new(task, |state: &Packed| test.is_hopeless(task, state));
    pruner.cut(state)
}

/// The answer of a ranker that counts by the goal of the task.
fn rank_of(goal: &GoalTest, task: &Task, state: &Packed) -> u32
    requires goal { IsDecidedGoal task.now goal.now }
    requires state { IsStateOf task.now state.now }
    ensures { result ≡ unmet task.now (state_in task.now state.now) }
{
    let ranker = Ranker::new(task, |state: &Packed| goal.unmet(task, state));
    ranker.rank(state)
}

#[test]
fn hooks_are_asked(rt: HostRuntime) -> Result<(), Fail> {
    let alloc = rt.alloc();
    let task = places(alloc, 4, false)?;
    let goal = GoalTest::of(alloc, &task)?;
    for (i, case) in RANKS.iter().enumerate() {
        let state = packed(alloc, &task, case.atoms)?;
        assert!(rt; !is_cut(&task, &state), "case {i}");
        assert_eq!(rt; rank_of(&goal, &task, &state), case.rank, "case {i}");
    }
    Ok(())
}
