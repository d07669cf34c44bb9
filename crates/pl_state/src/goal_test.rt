//! The goal of a task, with what no step changes decided once.

ghost use Rattle.std.specs.Prelude.{◌≡◌, ◌<◌, false, true, IfOk, length};
ghost use Rattle.pl_task.specs.States.{initial};
ghost use Rattle.pl_task.specs.Goal.{is_goal, is_goal_met, unmet as unmet_in};
ghost use Rattle.pl_task.specs.WellFormed.{IsAtomOf};
ghost use Rattle.pl_state.specs.StateOf.{is_fluent_in, state_in, IsStateOf};
ghost use Rattle.pl_state.specs.Decided.{IsDecidedGoal};
ghost use Rattle.pl_state.specs.Statics.{AreStaticAtoms};

use crate::fluents::holds_fluent;
use crate::packed::Packed;
use crate::statics::StaticAtoms;
use pl_task::{Atom, GoalLiteral, List, Task};
use std::alloc::{AllocError, Global};
use std::marker::Model;

/// The goal of a task for a search, which asks it of many states: literals over static predicates are decided
/// once, and cost nothing for a state.
///
/// Contracts see how many of these no state meets, and the other literals.
#[derive(Drop)]
pub struct GoalTest {
    missed: u32,
    literals: Vec<GoalLiteral>,
}

impl Model for GoalTest {
    ghost use Rattle.pl_state.specs.Decided.{DecidedGoal};

    ghost Value = { DecidedGoal };

    ghost view = { λ goal. record { missed = goal.missed; literals = goal.literals.items } };
}

impl GoalTest {
    /// The goal of the task. It sorts the static atoms. The only error is want of memory.
    pub fn of(alloc: Global, task: &Task) -> Result<GoalTest, AllocError>
        ensures { IfOk result (IsDecidedGoal task.now) }
    {
        let statics = StaticAtoms::of(alloc, task)?;
        let mut missed = 0;
        let mut literals = Vec::new(alloc);
        for literal in task.goal.as_slice() {
            if is_fluent(task, literal.atom.predicate) {
                literals.push(copied(alloc, literal)?)?;
                continue;
            }
            if is_met_initially(&statics, task, literal) {
                continue;
            }
            missed += 1;
        }
        Ok(GoalTest { missed, literals })
    }

    /// Whether the state is a goal state: each literal of the goal is met.
    pub fn holds(&self, task: &Task, state: &Packed) -> bool
        requires goal { IsDecidedGoal task.now self.now }
        requires state { IsStateOf task.now state.now }
        ensures { result ≡ is_goal task.now (state_in task.now state.now) }
    {
        if 0 < self.missed {
            return false;
        }
        for literal in &self.literals {
            if !is_met(task, state, literal) {
                return false;
            }
        }
        true
    }

    /// The number of goal literals, repeats counted, that are not met.
    pub fn unmet(&self, task: &Task, state: &Packed) -> u32
        requires goal { IsDecidedGoal task.now self.now }
        requires state { IsStateOf task.now state.now }
        ensures { result ≡ unmet_in task.now (state_in task.now state.now) }
    {
        let mut count = self.missed;
        for literal in &self.literals {
            if !is_met(task, state, literal) {
                count += 1;
            }
        }
        count
    }
}

/// Whether the predicate is fluent.
fn is_fluent(task: &Task, predicate: u32) -> bool
    requires { predicate < length task.now.predicates }
    ensures { result ≡ is_fluent_in task.now predicate }
{
    !task.predicates.as_slice()[predicate as usize].is_static
}

/// Whether the initial state meets the literal over a static predicate.
fn is_met_initially(statics: &StaticAtoms, task: &Task, literal: &GoalLiteral) -> bool
    requires statics { AreStaticAtoms task.now statics.now }
    requires atom { IsAtomOf task.now.objects task.now.predicates literal.now.atom }
    requires unchanging { is_fluent_in task.now literal.now.atom.predicate ≡ false }
    ensures { result ≡ is_goal_met (initial task.now) literal.now }
{
    let atom = &literal.atom;
    statics.has(task, atom.predicate, atom.objects.as_slice()) == literal.wanted
}

/// Whether the state meets the literal over a fluent predicate.
fn is_met(task: &Task, state: &Packed, literal: &GoalLiteral) -> bool
    requires state { IsStateOf task.now state.now }
    requires atom { IsAtomOf task.now.objects task.now.predicates literal.now.atom }
    requires fluent { is_fluent_in task.now literal.now.atom.predicate ≡ true }
    ensures { result ≡ is_goal_met (state_in task.now state.now) literal.now }
{
    let atom = &literal.atom;
    holds_fluent(task, state, atom.predicate, atom.objects.as_slice()) == literal.wanted
}

/// A copy of the literal.
fn copied(alloc: Global, literal: &GoalLiteral) -> Result<GoalLiteral, AllocError>
    ensures { IfOk result (λ g. g ≡ literal.now) }
{
    let objects = Vec::from_slice(alloc, literal.atom.objects.as_slice())?;
    let atom = Atom {
        predicate: literal.atom.predicate,
        objects: List::of(objects),
    };
    Ok(GoalLiteral {
        atom,
        wanted: literal.wanted,
    })
}
