//! The judge.

ghost use Rattle.std.specs.Prelude.{◌≤◌, ◌^◌, length, All, IfOk};
ghost use Rattle.pl_valid.specs.Verdict.{IsLineOf, IsVerdict};

use crate::condition::meets_goal;
use crate::effect::initial_state;
use crate::line::execute_line;
use crate::typing::TypeTable;
use crate::verdict::Verdict;
use pl_task::{PlanLine, Task};
use std::alloc::{AllocError, Global};

/// The verdict on the lines of a plan, which are executed in turn from the initial state.
///
/// `Invalid` names the first line, counted from 1, that is no step or is not applicable after the lines
/// before it. A line takes a look-up by hash for each literal of its step. The error says that memory ran
/// out.
pub fn judge(alloc: Global, task: &Task, lines: &[PlanLine]) -> Result<Verdict, AllocError>
    requires few { length lines.now ≤ 2 ^ 24 }
    requires lines { All (IsLineOf task.now) lines.now }
    ensures { IfOk result (IsVerdict task.now lines.now) }
{
    let mut atoms = initial_state(alloc, task)?;
    let mut types = TypeTable::new(alloc);
    for (i, line) in lines.iter().enumerate() {
        let refusal = execute_line(alloc, task, &mut types, &mut atoms, line)?;
        if let Some(reason) = refusal {
            let number = (i + 1) as u32;
            return Ok(Verdict::Invalid {
                line: number,
                reason,
            });
        }
    }
    if !meets_goal(alloc, task, &atoms)? {
        return Ok(Verdict::GoalMissed);
    }
    Ok(Verdict::Valid(lines.len() as u32))
}
