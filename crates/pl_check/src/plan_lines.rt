//! Reads plan files and steps: what each line names.

ghost use Rattle.std.specs.Prelude.{◌≡◌, ◌≤◌, ◌<◌, length, map, not, slice_get, ℕ, IfOk, IfErr, IsErrOf};
ghost use Rattle.std.specs.Prelude.{MatchOption, All, ⊤, [], ◌∷◌};
ghost use Rattle.std.specs.List.{list_all};
ghost use Rattle.pl_task.specs.Instance.{Instance};
ghost use Rattle.pl_task.specs.States.{IsStep};
ghost use Rattle.pl_task.specs.declared.data.ObjectDef.{ObjectDef};
ghost use Rattle.pl_task.specs.declared.data.Schema.{Schema};
ghost use Rattle.pl_task.specs.declared.plan.PlanLine.TheVariants as line;
ghost use Rattle.pl_text.specs.Trees.{tree_of};
ghost use Rattle.pl_text.specs.Words.{folded};
ghost use Rattle.pl_check.specs.Elements.{trees, is_list as has_elements};
ghost use Rattle.pl_check.specs.PlanLines as spec;
ghost use Rattle.pl_check.specs.Reading.{Reads};

use crate::fault::{CheckEnd, FaultKind, InputFault, StepEnd};
use crate::forms::read_forms;
use crate::reading::{ReadEnd, refusal};
use crate::role::FileRole;
use crate::source::{head, is_list, parts, place, rest, word};
use pl_names::Names;
use pl_task::{List, PlanLine, Step, StepRef, Task};
use pl_text::{Form, small_copy, small_word};
use std::alloc::{AllocError, Global};

/// The lines of a plan file.
///
/// Names are looked up in lists of the task's names, which are made once.
pub fn read_plan(alloc: Global, bytes: &[u8], task: &Task) -> Result<List<PlanLine>, CheckEnd>
    requires { length bytes.now ≤ 16777216 }
    ensures lines { IfOk result (spec.AreLines bytes.now task.now) }
    ensures steps { IfOk result
        (All (λ l. (step : Instance) → l ≡ line.Step step → IsStep task.now step)) }
    ensures few { IfOk result (λ lines. length lines ≤ 16777216) }
    ensures err { IfErr result (spec.EndsPlanBy bytes.now) }
{
    let list = read_forms(alloc, FileRole::Plan, bytes)?;
    let forms = list.as_slice();
    match check_lines(forms) {
        Ok(()) => match lines_of(alloc, bytes, task, forms) {
            Ok(lines) => Ok(lines),
            Err(error) => Err(CheckEnd::Memory(error)),
        },
        Err(ReadEnd::Fault(fault)) => Err(CheckEnd::Fault(InputFault {
            file: FileRole::Plan,
            at: fault.at,
            kind: fault.kind,
        })),
        Err(ReadEnd::Memory(error)) => Err(CheckEnd::Memory(error)),
    }
}

/// The lines that the forms of a file are.
fn lines_of(
    alloc: Global,
    bytes: &[u8],
    task: &Task,
    forms: &[Form],
) -> Result<List<PlanLine>, AllocError>
    ensures { IfOk result
        (λ lines. lines ≡ map (spec.line_of (folded bytes.now) task.now) (trees forms.now)) }
{
    let copy = small_copy(alloc, bytes)?;
    let lines = read_lines(alloc, small_word(bytes, &copy), task, forms)?;
    Ok(List::of(lines))
}

/// The step that a text is: a plan file of one line, which is a step.
pub fn read_step(alloc: Global, text: &[u8], task: &Task) -> Result<Step, StepEnd>
    ensures ok { IfOk result (spec.IsStepText text.now task.now) }
    ensures step { IfOk result (IsStep task.now) }
    ensures refused { IsErrOf result StepEnd.NotAStep →
        (step : Instance) → spec.IsStepText text.now task.now step → ⊥ }
{
    if text.len() > 16777216 {
        return Err(StepEnd::NotAStep);
    }
    let lines = match read_plan(alloc, text, task) {
        Ok(lines) => lines,
        Err(CheckEnd::Fault(_)) => return Err(StepEnd::NotAStep),
        Err(CheckEnd::Memory(error)) => return Err(StepEnd::Memory(error)),
    };
    let Some(step) = only_step(lines.as_slice()) else {
        return Err(StepEnd::NotAStep);
    };
    match Step::of(alloc, step.view()) {
        Ok(step) => Ok(step),
        Err(error) => Err(StepEnd::Memory(error)),
    }
}

/// The one step that these lines are, if they are one.
fn only_step(lines: &[PlanLine]) -> Option<&Step>
    ensures { MatchOption result
        ((step : Instance) → lines.now ≡ line.Step step ∷ [] → ⊥)
        (λ step. lines.now ≡ line.Step step.now ∷ []) }
{
    match lines {
        [PlanLine::Step(step)] => Some(step),
        _ => None,
    }
}

/// Checks that each form is a line.
fn check_lines(forms: &[Form]) -> Result<(), ReadEnd>
    ensures { Reads (spec.plan_faults (trees forms.now)) (λ _. ⊤) result }
{
    for form in forms {
        check_line(form)?;
    }
    Ok(())
}

/// Checks that a form is a line.
#[tactic(auto, unfolding(crate::specs::PlanLines::line_faults))]
fn check_line(form: &Form) -> Result<(), ReadEnd>
    ensures { Reads (spec.line_faults (tree_of form.now)) (λ _. ⊤) result }
{
    if !is_line(form) {
        return Err(refusal(place(form), FaultKind::BadForm));
    }
    Ok(())
}

/// Whether the form is a list of words, and not empty.
#[tactic(auto, unfolding(crate::specs::PlanLines::is_line))]
fn is_line(form: &Form) -> bool
    ensures { result ≡ spec.is_line (tree_of form.now) }
{
    if !is_list(form) {
        return false;
    }
    let words = parts(form);
    if words.len() == 0 {
        return false;
    }
    are_words(words)
}

/// Whether no form is a list.
fn are_words(words: &[Form]) -> bool
    ensures { result ≡ list_all (λ word. not (has_elements word)) (trees words.now) }
{
    for word in words {
        if is_list(word) {
            return false;
        }
    }
    true
}

/// What the lines name.
fn read_lines<'a>(
    alloc: Global,
    text: &'a [u8],
    task: &'a Task,
    forms: &[Form],
) -> Result<Vec<PlanLine>, AllocError>
    ensures { IfOk result
        (λ lines. lines.items ≡ map (spec.line_of text.now task.now) (trees forms.now)) }
{
    let actions = names_of_actions(alloc, task)?;
    let objects = names_of_objects(alloc, task)?;
    let mut lines = Vec::new(alloc);
    for form in forms {
        lines.push(read_line(alloc, text, task, &actions, &objects, parts(form))?)?;
    }
    Ok(lines)
}

/// The names of a task's schemas, by their numbers.
fn names_of_actions(alloc: Global, task: &Task) -> Result<Names<'_>, AllocError>
    ensures { IfOk result (λ names. names ≡ map (λ (s : Schema). s.name) task.now.schemas) }
{
    let mut list = Vec::new(alloc);
    for schema in task.schemas.as_slice() {
        list.push(schema.name.as_slice())?;
    }
    Names::of(alloc, list)
}

/// The names of a task's objects, by their numbers.
fn names_of_objects(alloc: Global, task: &Task) -> Result<Names<'_>, AllocError>
    ensures { IfOk result (λ names. names ≡ map (λ (o : ObjectDef). o.name) task.now.objects) }
{
    let mut list = Vec::new(alloc);
    for object in task.objects.as_slice() {
        list.push(object.name.as_slice())?;
    }
    Names::of(alloc, list)
}

/// What a line of these words names, by its first word.
fn read_line<'a>(
    alloc: Global,
    text: &'a [u8],
    task: &Task,
    actions: &Names<'a>,
    objects: &Names<'a>,
    words: &[Form],
) -> Result<PlanLine, AllocError>
    requires actions { actions.now ≡ map (λ (s : Schema). s.name) task.now.schemas }
    requires objects { objects.now ≡ map (λ (o : ObjectDef). o.name) task.now.objects }
    ensures { IfOk result (λ l. l ≡ spec.line_naming text.now task.now (trees words.now)) }
{
    match actions.find(head(text, words)) {
        Some(number) => line_of_action(alloc, text, task, number, objects, rest(words, 1)),
        None => Ok(PlanLine::UnknownAction),
    }
}

/// What a line of an action names, by its further words.
#[tactic(auto, unfolding(crate::specs::PlanLines::line_by))]
fn line_of_action<'a>(
    alloc: Global,
    text: &'a [u8],
    task: &Task,
    number: u32,
    objects: &Names<'a>,
    words: &[Form],
) -> Result<PlanLine, AllocError>
    requires number { number < length task.now.schemas }
    requires objects { objects.now ≡ map (λ (o : ObjectDef). o.name) task.now.objects }
    ensures { IfOk result (λ l. l ≡
        spec.line_by text.now task.now (trees words.now) number (slice_get task.now.schemas number)) }
{
    let schema = &task.schemas.as_slice()[number as usize];
    if words.len() != schema.parameters.as_slice().len() {
        return Ok(PlanLine::Arguments);
    }
    match read_numbers(alloc, text, objects, words)? {
        None => Ok(PlanLine::UnknownObject),
        Some(args) => Ok(PlanLine::Step(Step::of(
            alloc,
            StepRef {
                schema: number,
                args: &args,
            },
        )?)),
    }
}

/// The numbers of words among names, if all are among them.
fn read_numbers<'a>(
    alloc: Global,
    text: &'a [u8],
    names: &Names<'a>,
    forms: &[Form],
) -> Result<Option<Vec<u32>>, AllocError>
    ensures { IfOk result (λ found. MatchOption found
        (length (spec.numbers_named text.now names.now (trees forms.now)) < length forms.now)
        (λ numbers. (numbers.items ≡ spec.numbers_named text.now names.now (trees forms.now)) ×
        (length numbers.items ≡ length forms.now))) }
{
    let mut numbers = Vec::new(alloc);
    for form in forms {
        let Some(number) = names.find(word(text, form)) else {
            return Ok(None);
        };
        numbers.push(number)?;
    }
    Ok(Some(numbers))
}
