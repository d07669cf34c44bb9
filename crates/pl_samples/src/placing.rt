//! The task of places.

ghost use Rattle.std.specs.Prelude.{◌≡◌, ◌≤◌, IfOk};
ghost use Rattle.pl_samples.specs.Places.{at_place, done, place, hop, finish, spread, hop_goal};
ghost use Rattle.pl_samples.specs.Places.{IsTaskOfPlaces};

use crate::parts::{atom, definition, literal, objects};
use pl_task::{GoalLiteral, Lifted, List, Parameter, Schema, Task, Term, TypeDef};
use std::alloc::{AllocError, Global};

/// The task with so many places, of which place 0 is linked to place 1. Its goal is to be at place 1, said
/// twice, that all is done, that 0 is linked to 1, and that 1 isn't linked to 0; or, with `back`, that it is,
/// which no step can reach.
pub fn places(alloc: Global, count: u32, back: bool) -> Result<Task, AllocError>
    requires { 2 ≤ count }
    ensures { IfOk result (IsTaskOfPlaces count back) }
{
    let object = TypeDef {
        name: List::of(Vec::new(alloc)),
        parents: List::of(Vec::new(alloc)),
    };
    let types = vec![in alloc; object]?;
    let objects = objects(alloc, count)?;
    let at = definition(alloc, 1, false);
    let link = definition(alloc, 2, true);
    let done = definition(alloc, 0, false);
    let predicates = vec![in alloc; at, link, done]?;
    let schemas = vec![in alloc; to_hop(alloc)?, to_finish(alloc)?, to_spread(alloc)?]?;
    let init = vec![in alloc; atom(alloc, 1, &[0, 1])?]?;
    let goal = goal(alloc, back)?;
    Ok(Task {
        types: List::of(types),
        objects: List::of(objects),
        predicates: List::of(predicates),
        schemas: List::of(schemas),
        init: List::of(init),
        goal: List::of(goal),
    })
}

fn lifted(alloc: Global, term: Term) -> Result<Lifted, AllocError>
    ensures { IfOk result (λ a. a ≡ at_place term) }
{
    Ok(Lifted {
        predicate: 0,
        terms: List::of(vec![in alloc; term]?),
    })
}

fn is_done(alloc: Global) -> Lifted
    ensures { result ≡ done }
{
    Lifted {
        predicate: 2,
        terms: List::of(Vec::new(alloc)),
    }
}

fn a_place(alloc: Global) -> Result<Parameter, AllocError>
    ensures { IfOk result (λ p. p ≡ place) }
{
    Ok(Parameter {
        name: List::of(Vec::new(alloc)),
        types: List::of(vec![in alloc; 0]?),
    })
}

fn to_hop(alloc: Global) -> Result<Schema, AllocError>
    ensures { IfOk result (λ s. s ≡ hop) }
{
    Ok(Schema {
        name: List::of(Vec::new(alloc)),
        parameters: List::of(vec![in alloc; a_place(alloc)?, a_place(alloc)?]?),
        condition: List::of(Vec::new(alloc)),
        delete: List::of(vec![in alloc; lifted(alloc, Term::Parameter(0))?]?),
        add: List::of(vec![in alloc; lifted(alloc, Term::Parameter(1))?]?),
    })
}

fn to_finish(alloc: Global) -> Result<Schema, AllocError>
    ensures { IfOk result (λ s. s ≡ finish) }
{
    Ok(Schema {
        name: List::of(Vec::new(alloc)),
        parameters: List::of(vec![in alloc; a_place(alloc)?]?),
        condition: List::of(Vec::new(alloc)),
        delete: List::of(vec![in alloc; lifted(alloc, Term::Parameter(0))?]?),
        add: List::of(vec![in alloc; is_done(alloc)]?),
    })
}

fn to_spread(alloc: Global) -> Result<Schema, AllocError>
    ensures { IfOk result (λ s. s ≡ spread) }
{
    let first = lifted(alloc, Term::Parameter(0))?;
    let second = lifted(alloc, Term::Parameter(1))?;
    let again = lifted(alloc, Term::Parameter(0))?;
    Ok(Schema {
        name: List::of(Vec::new(alloc)),
        parameters: List::of(vec![in alloc; a_place(alloc)?, a_place(alloc)?]?),
        condition: List::of(Vec::new(alloc)),
        delete: List::of(vec![in alloc; is_done(alloc), first]?),
        add: List::of(vec![in alloc; second, again]?),
    })
}

fn goal(alloc: Global, back: bool) -> Result<Vec<GoalLiteral>, AllocError>
    ensures { IfOk result (λ goal. goal.items ≡ hop_goal back) }
{
    let once = literal(alloc, 0, &[1], true)?;
    let twice = literal(alloc, 0, &[1], true)?;
    let done = literal(alloc, 2, &[], true)?;
    let linked = literal(alloc, 1, &[0, 1], true)?;
    let not_linked = literal(alloc, 1, &[1, 0], back)?;
    Ok(vec![in alloc; once, twice, done, linked, not_linked]?)
}
