//! Which types are reached by chains of parents: a walk that marks each type once, so that circles do no
//! harm.

ghost use Rattle.std.specs.Prelude.{◌<◌, ◌↔◌, [], ◌∷◌, length, All, Contains, IfOk, IsTrue};
ghost use Rattle.pl_task.specs.Types.{IsReached};
ghost use Rattle.pl_task.specs.WellFormed.{AreTypes};
ghost use Rattle.pl_task.specs.Marking.{IsMarking, Grows};

use crate::data::TypeDef;
use std::alloc::{AllocError, Global};

/// Whether a chain of parents leads to the type from one of the starts, in time linear in types and parents.
pub fn is_reached(
    alloc: Global,
    types: &[TypeDef],
    starts: &[u32],
    type_number: u32,
) -> Result<bool, AllocError>
    requires types { AreTypes types.now }
    requires starts { All (λ t. t < length types.now) starts.now }
    requires type_number { type_number < length types.now }
    ensures { IfOk result (λ answer. IsTrue answer ↔ IsReached types.now starts.now type_number) }
{
    let mut all = vec![in alloc; false; types.len()]?;
    let marks = all.as_mut_slice();
    let mut queue = Vec::new(alloc);
    mark_all(marks, &mut queue, starts)?;
    let mut next = 0;
    while next < queue.len() {
        let definition = &types[queue[next] as usize];
        mark_all(marks, &mut queue, definition.parents.as_slice())?;
        next += 1;
    }
    Ok(marks[type_number as usize])
}

/// Marks the numbers, and appends those that were not marked to the queue.
fn mark_all(marks: &mut [bool], queue: &mut Vec<u32>, numbers: &[u32]) -> Result<(), AllocError>
    requires numbers { All (λ n. n < length marks.old) numbers.now }
    requires marking { IsMarking marks.old queue.old.items }
    ensures marking { IfOk result (λ _. IsMarking marks.new queue.new.items) }
    ensures held { IfOk result (λ _. All (Contains queue.new.items) numbers.now) }
    ensures grows { IfOk result (λ _. Grows numbers.now queue.old.items queue.new.items) }
{
    for number in numbers {
        mark(marks, queue, *number)?;
    }
    Ok(())
}

/// Marks a number, and appends it to the queue unless it was marked.
fn mark(marks: &mut [bool], queue: &mut Vec<u32>, number: u32) -> Result<(), AllocError>
    requires number { number < length marks.old }
    requires marking { IsMarking marks.old queue.old.items }
    ensures marking { IfOk result (λ _. IsMarking marks.new queue.new.items) }
    ensures held { IfOk result (λ _. Contains queue.new.items number) }
    ensures grows { IfOk result (λ _. Grows (number ∷ []) queue.old.items queue.new.items) }
{
    if !marks[number as usize] {
        queue.push(number)?;
        marks[number as usize] = true;
    }
    Ok(())
}
