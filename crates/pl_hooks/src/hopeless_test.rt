//! The test for states from which an unmet literal of the goal can never be met, with what the effects could
//! change worked out once.

ghost use Rattle.std.specs.Prelude.{◌≡◌, ◌↔◌, ◌<◌, false, true, IfOk, IsTrue, length};
ghost use Rattle.pl_task.specs.States.{initial};
ghost use Rattle.pl_task.specs.Goal.{is_goal_met, IsHopeless};
ghost use Rattle.pl_task.specs.WellFormed.{IsAtomOf};
ghost use Rattle.pl_state.specs.StateOf.{is_fluent_in, state_in, IsStateOf};
ghost use Rattle.pl_state.specs.Statics.{AreStaticAtoms};
ghost use Rattle.pl_hooks.specs.Fixed.{IsHeld, IsLost, IsFixedGoal};

use crate::fixed::is_fixed;
use pl_state::{Packed, StaticAtoms, holds_fluent};
use pl_task::{GoalLiteral, Task};
use std::alloc::{AllocError, Global};
use std::marker::Model;

/// The test for hopeless states of a search, which asks it of many. A state costs a look at each goal literal
/// over a fluent predicate whose atom no effect could change.
///
/// Contracts see whether a literal is lost in each state, and the numbers of those that a state decides.
#[derive(Drop)]
pub struct HopelessTest {
    lost: bool,
    fixed: Vec<u32>,
}

impl Model for HopelessTest {
    ghost use Rattle.pl_hooks.specs.Fixed.{FixedGoal};

    ghost Value = { FixedGoal };

    ghost view = { λ test. record { lost = test.lost; fixed = test.fixed.items } };
}

impl HopelessTest {
    /// The test for the states of the task. It goes over the schemas once for each literal of the goal, and
    /// sorts the static atoms. The only error is want of memory.
    pub fn of(alloc: Global, task: &Task) -> Result<HopelessTest, AllocError>
        ensures { IfOk result (IsFixedGoal task.now) }
    {
        let statics = StaticAtoms::of(alloc, task)?;
        let goal = task.goal.as_slice();
        let mut lost = false;
        let mut fixed = Vec::new(alloc);
        for number in 0..goal.len() {
            let literal = &goal[number];
            if is_held(task, literal) {
                fixed.push(number as u32)?;
                continue;
            }
            if !is_lost(&statics, task, literal) {
                continue;
            }
            lost = true;
        }
        Ok(HopelessTest { lost, fixed })
    }

    /// Whether the state is hopeless: no effect could change the atom of some literal of the goal that is not
    /// met.
    pub fn is_hopeless(&self, task: &Task, state: &Packed) -> bool
        requires goal { IsFixedGoal task.now self.now }
        requires state { IsStateOf task.now state.now }
        ensures { IsTrue result ↔ IsHopeless task.now (state_in task.now state.now) }
    {
        if self.lost {
            return true;
        }
        let goal = task.goal.as_slice();
        for number in &self.fixed {
            if !is_met(task, state, &goal[*number as usize]) {
                return true;
            }
        }
        false
    }
}

/// Whether the state meets the literal over a fluent predicate.
fn is_met(task: &Task, state: &Packed, literal: &GoalLiteral) -> bool
    requires state { IsStateOf task.now state.now }
    requires atom { IsAtomOf task.now.objects task.now.predicates literal.now.atom }
    requires fluent { is_fluent_in task.now literal.now.atom.predicate ≡ true }
    ensures { result ≡ is_goal_met (state_in task.now state.now) literal.now }
{
    let atom = &literal.atom;
    holds_fluent(task, state, atom.predicate, atom.objects.as_slice()) == literal.wanted
}

/// Whether the literal is over a fluent predicate, and no effect could change its atom.
fn is_held(task: &Task, literal: &GoalLiteral) -> bool
    requires { IsAtomOf task.now.objects task.now.predicates literal.now.atom }
    ensures { IsTrue result ↔ IsHeld task.now literal.now }
{
    if !is_fluent(task, literal.atom.predicate) {
        return false;
    }
    is_fixed(task, literal)
}

/// Whether the literal is over a static predicate, and not met.
fn is_lost(statics: &StaticAtoms, task: &Task, literal: &GoalLiteral) -> bool
    requires statics { AreStaticAtoms task.now statics.now }
    requires atom { IsAtomOf task.now.objects task.now.predicates literal.now.atom }
    ensures { IsTrue result ↔ IsLost task.now literal.now }
{
    if is_fluent(task, literal.atom.predicate) {
        return false;
    }
    if is_met_initially(statics, task, literal) {
        return false;
    }
    is_fixed(task, literal)
}

fn is_fluent(task: &Task, predicate: u32) -> bool
    requires { predicate < length task.now.predicates }
    ensures { result ≡ is_fluent_in task.now predicate }
{
    !task.predicates.as_slice()[predicate as usize].is_static
}

/// Whether the initial state meets the literal over a static predicate.
fn is_met_initially(statics: &StaticAtoms, task: &Task, literal: &GoalLiteral) -> bool
    requires statics { AreStaticAtoms task.now statics.now }
    requires atom { IsAtomOf task.now.objects task.now.predicates literal.now.atom }
    requires unchanging { is_fluent_in task.now literal.now.atom.predicate ≡ false }
    ensures { result ≡ is_goal_met (initial task.now) literal.now }
{
    let atom = &literal.atom;
    statics.has(task, atom.predicate, atom.objects.as_slice()) == literal.wanted
}
