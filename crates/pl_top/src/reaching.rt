//! The state that the lines of a plan lead to.

ghost use Rattle.std.specs.Prelude.{◌≡◌, ◌≤◌, ◌^◌, All, IfOk, length};
ghost use Rattle.pl_task.specs.States.{initial};
ghost use Rattle.pl_valid.specs.Verdict.{IsLineOf};
ghost use Rattle.pl_state.specs.StateOf.{state_in, IsStateOf};
ghost use Rattle.pl_top.specs.Reaching.{IsReached, IsRefusalOf, after_line, after_lines};

use pl_state::{Packed, apply, pack};
use pl_task::{PlanLine, Task};
use pl_valid::{Verdict, judge};
use std::alloc::{AllocError, Global};

/// Where the lines of a plan lead to.
#[derive(Drop)]
pub enum Destination {
    /// A line is refused, as this verdict says.
    Refused(Verdict),
    /// All lines are executed, and lead to this state.
    State(Packed),
}

/// The state that the lines lead to from the initial state, or the verdict that refuses one.
pub fn reached(alloc: Global, task: &Task, lines: &[PlanLine]) -> Result<Destination, AllocError>
    requires few { length lines.now ≤ 2 ^ 24 }
    requires lines { All (IsLineOf task.now) lines.now }
    ensures { IfOk result (IsReached task.now lines.now) }
{
    let refusal = refusal_of(alloc, task, lines)?;
    if let Some(verdict) = refusal {
        return Ok(Destination::Refused(verdict));
    }
    let state = executed(alloc, task, lines)?;
    Ok(Destination::State(state))
}

/// The verdict that refuses a line, or none where all lines are executed. It judges where there is a line.
fn refusal_of(alloc: Global, task: &Task, lines: &[PlanLine]) -> Result<Option<Verdict>, AllocError>
    requires few { length lines.now ≤ 2 ^ 24 }
    requires lines { All (IsLineOf task.now) lines.now }
    ensures { IfOk result (IsRefusalOf task.now lines.now) }
{
    if lines.len() == 0 {
        return Ok(None);
    }
    match judge(alloc, task, lines)? {
        Verdict::Valid(_) => Ok(None),
        Verdict::GoalMissed => Ok(None),
        Verdict::Invalid { line, reason } => Ok(Some(Verdict::Invalid { line, reason })),
    }
}

/// The state after the lines, from the initial state on. A line that is no step changes nothing.
fn executed(alloc: Global, task: &Task, lines: &[PlanLine]) -> Result<Packed, AllocError>
    requires { All (IsLineOf task.now) lines.now }
    ensures kept { IfOk result (IsStateOf task.now) }
    ensures state { IfOk result (λ state.
        state_in task.now state ≡ after_lines task.now (initial task.now) lines.now) }
{
    let mut state = pack(alloc, task, task.init.as_slice())?;
    for line in lines {
        state = moved(alloc, task, state, line)?;
    }
    Ok(state)
}

/// The state after a line.
fn moved(alloc: Global, task: &Task, state: Packed, line: &PlanLine) -> Result<Packed, AllocError>
    requires line { IsLineOf task.now line.now }
    requires state { IsStateOf task.now state }
    ensures kept { IfOk result (IsStateOf task.now) }
    ensures state { IfOk result (λ next.
        state_in task.now next ≡ after_line task.now (state_in task.now state) line.now) }
{
    match line {
        PlanLine::Step(step) => apply(alloc, task, &state, step.view()),
        PlanLine::UnknownAction | PlanLine::Arguments | PlanLine::UnknownObject => Ok(state),
    }
}
