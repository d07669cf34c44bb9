//! One line of a plan.

ghost use Rattle.std.specs.Prelude.{◌≡◌, ◌↔◌, IsTrue, IfOk, OnOk, MatchOption};
ghost use Rattle.pl_task.specs.States.{IsStep, IsApplicable, state_of};
ghost use Rattle.pl_valid.specs.Verdict.{IsLineOf, IsRefused};
ghost use Rattle.pl_valid.specs.Judging.{KnowsTypes, IsExecuted};

use crate::condition::hold_all;
use crate::effect::execute;
use crate::held::Held;
use crate::typing::TypeTable;
use crate::verdict::Reason;
use indexmap::IndexSet;
use pl_task::{PlanLine, Step, Task};
use std::alloc::{AllocError, Global};

/// Executes the line, or says why it cannot be executed.
pub fn execute_line(
    alloc: Global,
    task: &Task,
    types: &mut TypeTable,
    atoms: &mut IndexSet<Held>,
    line: &PlanLine,
) -> Result<Option<Reason>, AllocError>
    requires line { IsLineOf task.now line.now }
    requires types { KnowsTypes task.now types.old }
    ensures refusal { IfOk result (λ refusal. MatchOption refusal
        (IsExecuted task.now (state_of atoms.old.keys) line.now (state_of atoms.new.keys))
        (λ why. IsRefused task.now (state_of atoms.old.keys) line.now why)) }
    ensures types { OnOk result (KnowsTypes task.now types.new) }
{
    match line {
        PlanLine::Step(step) => {
            if !is_applicable(alloc, task, types, atoms, step)? {
                return Ok(Some(Reason::Inapplicable));
            }
            execute(alloc, task, atoms, step)?;
            Ok(None)
        }
        PlanLine::UnknownAction => Ok(Some(Reason::UnknownAction)),
        PlanLine::Arguments => Ok(Some(Reason::Arguments)),
        PlanLine::UnknownObject => Ok(Some(Reason::UnknownObject)),
    }
}

/// Whether the arguments have the types of the parameters and the precondition holds.
fn is_applicable(
    alloc: Global,
    task: &Task,
    types: &mut TypeTable,
    atoms: &IndexSet<Held>,
    step: &Step,
) -> Result<bool, AllocError>
    requires step { IsStep task.now step.now }
    requires types { KnowsTypes task.now types.old }
    ensures decides { IfOk result (λ answer. IsTrue answer ↔
        IsApplicable task.now (state_of atoms.now.keys) step.now) }
    ensures types { OnOk result (KnowsTypes task.now types.new) }
{
    let step = step.view();
    let schema = &task.schemas.as_slice()[step.schema as usize];
    if !types.are_typed(alloc, task, schema.parameters.as_slice(), step.args)? {
        return Ok(false);
    }
    let holds = hold_all(alloc, atoms, step.args, schema.condition.as_slice())?;
    Ok(holds)
}
