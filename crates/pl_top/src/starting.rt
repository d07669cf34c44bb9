//! What a listing starts from: the task, the lines of a plan, and the step past which steps are listed.

ghost use Rattle.std.specs.Prelude.{◌≤◌, ◌^◌, All, IfErr, IfOk, IfSome, Option, length};
ghost use Rattle.pl_io.specs.Outside.{most_file_bytes};
ghost use Rattle.pl_task.specs.States.{IsStep};
ghost use Rattle.pl_valid.specs.Verdict.{IsLineOf};
ghost use Rattle.pl_top.specs.Answer.{AreLinesOfAny, IsFaultOfAny, IsListed, IsNoStep, IsStepOfText};
ghost use Rattle.pl_top.specs.Asked.{bytes_in};
ghost use Rattle.pl_top.specs.Refusal.{IsUnanswered};
ghost use Rattle.pl_top.specs.Starting.{IsPageOf, IsReady, IsStartOf, IsStartStated};

use crate::refusal::Refusal;
use crate::validating::{faulty, of_input};
use pl_check::{CheckEnd, StepEnd, check, read_plan, read_step};
use pl_task::{List, PlanLine, Step, Task};
use std::alloc::Global;

/// A task, with the state and the steps of it that are asked for.
#[derive(Drop)]
pub struct Start {
    /// The task.
    pub task: Task,
    /// The lines that lead to the state.
    pub lines: List<PlanLine>,
    /// The step past which steps are listed.
    pub past: Option<Step>,
    /// How many are listed at most.
    pub count: Option<u32>,
}

/// What the files and the words say, or why they say nothing.
pub fn start_of(
    alloc: Global,
    domain: &[u8],
    problem: &[u8],
    plan: Option<&[u8]>,
    past: Option<&str>,
    count: Option<u32>,
) -> Result<Start, Refusal>
    requires domain { length domain.now ≤ most_file_bytes }
    requires problem { length problem.now ≤ most_file_bytes }
    requires plan { IfSome plan (λ bytes. length bytes.now ≤ most_file_bytes) }
    ensures start { IfOk result
        (IsStartOf domain.now problem.now (bytes_in plan.entry) (bytes_in past.entry) count) }
    ensures stated { IfOk result (IsStartStated domain.now problem.now (bytes_in plan.entry)) }
    ensures page { IfOk result (IsPageOf (bytes_in past.entry) count) }
    ensures ready { IfOk result IsReady }
    ensures refused { IfErr result (IsUnanswered
        (IsListed domain.now problem.now (bytes_in plan.entry) (bytes_in past.entry) count)) }
{
    let task = match check(alloc, domain, problem) {
        Ok(task) => task,
        Err(CheckEnd::Fault(fault)) => return Err(of_input(domain, problem, fault)),
        Err(CheckEnd::Memory(error)) => return Err(Refusal::Memory(error)),
    };
    let lines = match lines_of(alloc, plan, &task) {
        Ok(lines) => lines,
        Err(refusal) => return Err(refusal),
    };
    match past_step(alloc, past, &task) {
        Ok(past) => Ok(Start {
            task,
            lines,
            past,
            count,
        }),
        Err(refusal) => Err(refusal),
    }
}

/// The lines of a plan file, and none without one.
fn lines_of(alloc: Global, plan: Option<&[u8]>, task: &Task) -> Result<List<PlanLine>, Refusal>
    requires { IfSome plan (λ bytes. length bytes.now ≤ most_file_bytes) }
    ensures lines { IfOk result (AreLinesOfAny (bytes_in plan.entry) task.now) }
    ensures steps { IfOk result (All (IsLineOf task.now)) }
    ensures few { IfOk result (λ lines. length lines ≤ 2 ^ 24) }
    ensures refused { IfErr result (IsUnanswered (IsFaultOfAny (bytes_in plan.entry))) }
{
    let Some(bytes) = plan else {
        return Ok(List::of(Vec::new(alloc)));
    };
    match read_plan(alloc, bytes, task) {
        Ok(lines) => Ok(lines),
        Err(CheckEnd::Fault(fault)) => Err(faulty(bytes, fault)),
        Err(CheckEnd::Memory(error)) => Err(Refusal::Memory(error)),
    }
}

/// The step that a text is, and none without a text.
fn past_step(alloc: Global, past: Option<&str>, task: &Task) -> Result<Option<Step>, Refusal>
    ensures step { IfOk result (IsStepOfText task.now (bytes_in past.entry)) }
    ensures within { IfOk result (λ step. IfSome step (IsStep task.now)) }
    ensures refused { IfErr result (IsUnanswered (IsNoStep task.now (bytes_in past.entry))) }
{
    let Some(text) = past else {
        return Ok(None);
    };
    match read_step(alloc, text.as_bytes(), task) {
        Ok(step) => Ok(Some(step)),
        Err(StepEnd::NotAStep) => Err(Refusal::NotAStep),
        Err(StepEnd::Memory(error)) => Err(Refusal::Memory(error)),
    }
}
