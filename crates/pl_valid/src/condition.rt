//! Whether literals hold in a state.

ghost use Rattle.std.specs.Prelude.{◌≡◌, ◌↔◌, IsTrue, length, All, IfOk};
ghost use Rattle.pl_task.specs.States.{is_met, state_of};
ghost use Rattle.pl_task.specs.Goal.{is_goal};
ghost use Rattle.pl_valid.specs.Judging.{HasValues};

use crate::effect::{grounded, value};
use crate::held::Held;
use indexmap::IndexSet;
use pl_task::{Literal, Task};
use std::alloc::{AllocError, Global};

/// Whether the state is a goal state.
pub fn meets_goal(alloc: Global, task: &Task, atoms: &IndexSet<Held>) -> Result<bool, AllocError>
    ensures { IfOk result (λ answer. answer ≡ is_goal task.now (state_of atoms.now.keys)) }
{
    for literal in task.goal.as_slice() {
        if holds(atoms, &Held::of(alloc, &literal.atom)?) != literal.wanted {
            return Ok(false);
        }
    }
    Ok(true)
}

/// Whether all literals of a precondition hold, with the arguments put in for the parameters.
///
/// Each takes a look-up in the state, by hash.
pub fn hold_all(
    alloc: Global,
    atoms: &IndexSet<Held>,
    args: &[u32],
    condition: &[Literal],
) -> Result<bool, AllocError>
    requires { All (HasValues (length args.now)) condition.now }
    ensures { IfOk result (λ answer. IsTrue answer ↔
        All (λ l. IsTrue (is_met (state_of atoms.now.keys) args.now l)) condition.now) }
{
    for literal in condition {
        if !literal_holds(alloc, atoms, args, literal)? {
            return Ok(false);
        }
    }
    Ok(true)
}

/// Whether the literal holds, with the arguments put in for the parameters.
fn literal_holds(
    alloc: Global,
    atoms: &IndexSet<Held>,
    args: &[u32],
    literal: &Literal,
) -> Result<bool, AllocError>
    requires { HasValues (length args.now) literal.now }
    ensures { IfOk result (λ answer. answer ≡ is_met (state_of atoms.now.keys) args.now literal.now) }
{
    match literal {
        Literal::Atom(atom) => Ok(holds(atoms, &grounded(alloc, args, atom)?)),
        Literal::NotAtom(atom) => Ok(!holds(atoms, &grounded(alloc, args, atom)?)),
        Literal::Equal(a, b) => Ok(value(args, *a) == value(args, *b)),
        Literal::NotEqual(a, b) => Ok(value(args, *a) != value(args, *b)),
    }
}

/// Whether the atom is true.
fn holds(atoms: &IndexSet<Held>, atom: &Held) -> bool
    ensures { result ≡ state_of atoms.now.keys atom.now }
{
    atoms.contains(atom)
}
