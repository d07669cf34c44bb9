//! Atoms, each once.

ghost use Rattle.std.specs.Prelude.{◌≡◌, IfOk};
ghost use Rattle.pl_check.specs.Stated.{once};

use indexmap::IndexSet;
use pl_task::Atom;
use std::alloc::{AllocError, Global};

/// The atoms, each once in the order of their first places.
///
/// Each is looked up once, by hash, and moved: none is copied.
pub fn each_once(alloc: Global, all: Vec<Atom>) -> Result<Vec<Atom>, AllocError>
    ensures { IfOk result (λ atoms. atoms.items ≡ once all.items) }
{
    let mut seen = IndexSet::with_capacity(alloc, all.len())?;
    for atom in all {
        seen.insert(atom)?;
    }
    listed(alloc, seen)
}

/// The atoms of a set, in its order.
fn listed(alloc: Global, seen: IndexSet<Atom>) -> Result<Vec<Atom>, AllocError>
    ensures { IfOk result (λ atoms. atoms.items ≡ seen.keys) }
{
    seen.into_iter().collect(alloc)
}
