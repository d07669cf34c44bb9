//! Which predicates effects name.

ghost use Rattle.std.specs.Prelude.{◌≡◌, ◌<◌, ◌||◌, ℕ, false, length, slice_index_or, IfOk};
ghost use Rattle.std.specs.List.{list_any};
ghost use Rattle.pl_task.specs.WellFormed.{is_fluent, is_of_predicate};

use pl_task::{Lifted, Schema};
use std::alloc::{AllocError, Global};

/// For each number below the count, whether an effect of a schema names the predicate of that number.
///
/// The time is linear in the effects.
pub fn fluent_marks(
    alloc: Global,
    schemas: &[Schema],
    count: usize,
) -> Result<Vec<bool>, AllocError>
    ensures length { IfOk result (λ marks. length marks.items ≡ count) }
    ensures marks { IfOk result (λ marks. (p : ℕ) → p < count → slice_index_or marks.items p false ≡
        is_fluent schemas.now p) }
{
    let mut marks = vec![in alloc; false; count]?;
    let fluent = marks.as_mut_slice();
    for schema in schemas {
        mark(fluent, schema.delete.as_slice());
        mark(fluent, schema.add.as_slice());
    }
    Ok(marks)
}

/// Marks the predicates of these atoms.
fn mark(fluent: &mut [bool], atoms: &[Lifted])
    ensures { (p : ℕ) → p < length fluent.old →
        slice_index_or fluent.new p false ≡
        (slice_index_or fluent.old p false || list_any (is_of_predicate p) atoms.now) }
{
    for atom in atoms {
        let predicate = atom.predicate as usize;
        if predicate < fluent.len() {
            fluent[predicate] = true;
        }
    }
}
