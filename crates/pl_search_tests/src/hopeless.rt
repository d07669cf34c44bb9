//! Hopeless states of a small task, worked by hand.

ghost use Rattle.std.specs.Prelude.{◌≡◌, IfOk};
ghost use Rattle.pl_task.specs.WellFormed.{IsAtomOf};
ghost use Rattle.pl_search_tests.specs.Twins.{bare, twice, marked, nobody, twin};

use crate::hooks::{is_hopeless_cut, packed};
use pl_hooks::HopelessTest;
use pl_samples::{AtomCase, atom, definition, is_atom, literal, objects};
use pl_task::{GoalLiteral, Lifted, List, Parameter, Schema, Task, Term, TypeDef};
use std::alloc::{AllocError, Global};
use std::test::Fail;

/// The one literal of the goal, the fluent atoms of a state, and whether that is hopeless.
struct HopelessCase {
    predicate: u32,
    objects: &'static [u32],
    wanted: bool,
    atoms: &'static [AtomCase],
    hopeless: bool,
}

/// Predicate 0 is `pair`, 1 the static `link`, and 2 `mark`, with one object. The schema deletes `(pair ?x
/// ?x)`, and adds it with `(mark ?x)`, for an `?x` of a type that no object has.
const CASES: &[HopelessCase] = &[
    HopelessCase {
        predicate: 1,
        objects: &[0, 2],
        wanted: true,
        atoms: &[],
        hopeless: true,
    },
    HopelessCase {
        predicate: 1,
        objects: &[0, 1],
        wanted: true,
        atoms: &[],
        hopeless: false,
    },
    HopelessCase {
        predicate: 1,
        objects: &[0, 1],
        wanted: false,
        atoms: &[],
        hopeless: true,
    },
    HopelessCase {
        predicate: 0,
        objects: &[0, 1],
        wanted: true,
        atoms: &[(0, &[0, 0])],
        hopeless: true,
    },
    HopelessCase {
        predicate: 0,
        objects: &[0, 1],
        wanted: true,
        atoms: &[(0, &[0, 1])],
        hopeless: false,
    },
    HopelessCase {
        predicate: 0,
        objects: &[1, 1],
        wanted: true,
        atoms: &[],
        hopeless: false,
    },
    HopelessCase {
        predicate: 0,
        objects: &[0, 1],
        wanted: false,
        atoms: &[(0, &[0, 1])],
        hopeless: true,
    },
    HopelessCase {
        predicate: 0,
        objects: &[1, 1],
        wanted: false,
        atoms: &[(0, &[1, 1])],
        hopeless: false,
    },
    HopelessCase {
        predicate: 2,
        objects: &[0],
        wanted: true,
        atoms: &[],
        hopeless: false,
    },
    HopelessCase {
        predicate: 2,
        objects: &[0],
        wanted: false,
        atoms: &[(2, &[0])],
        hopeless: true,
    },
    HopelessCase {
        predicate: 2,
        objects: &[0],
        wanted: false,
        atoms: &[(2, &[1])],
        hopeless: false,
    },
];

fn a_type(alloc: Global) -> TypeDef
    ensures { result ≡ bare }
{
    TypeDef {
        name: List::of(Vec::new(alloc)),
        parents: List::of(Vec::new(alloc)),
    }
}

fn a_parameter(alloc: Global) -> Result<Parameter, AllocError>
    ensures { IfOk result (λ p. p ≡ nobody) }
{
    Ok(Parameter {
        name: List::of(Vec::new(alloc)),
        types: List::of(vec![in alloc; 1]?),
    })
}

fn a_pair(alloc: Global) -> Result<Lifted, AllocError>
    ensures { IfOk result (λ a. a ≡ twice) }
{
    Ok(Lifted {
        predicate: 0,
        terms: List::of(vec![in alloc; Term::Parameter(0), Term::Parameter(0)]?),
    })
}

fn a_mark(alloc: Global) -> Result<Lifted, AllocError>
    ensures { IfOk result (λ a. a ≡ marked) }
{
    Ok(Lifted {
        predicate: 2,
        terms: List::of(vec![in alloc; Term::Parameter(0)]?),
    })
}

fn a_schema(alloc: Global) -> Result<Schema, AllocError>
    ensures { IfOk result (λ s. s ≡ twin) }
{
    Ok(Schema {
        name: List::of(Vec::new(alloc)),
        parameters: List::of(vec![in alloc; a_parameter(alloc)?]?),
        condition: List::of(Vec::new(alloc)),
        delete: List::of(vec![in alloc; a_pair(alloc)?]?),
        add: List::of(vec![in alloc; a_pair(alloc)?, a_mark(alloc)?]?),
    })
}

/// The task with three objects, of which 0 is linked to 1, and no goal.
fn twins(alloc: Global) -> Result<Task, AllocError> {
    let types = vec![in alloc; a_type(alloc), a_type(alloc)]?;
    let objects = objects(alloc, 3)?;
    let pair = definition(alloc, 2, false);
    let link = definition(alloc, 2, true);
    let mark = definition(alloc, 1, false);
    let predicates = vec![in alloc; pair, link, mark]?;
    let schemas = vec![in alloc; a_schema(alloc)?]?;
    let init = vec![in alloc; atom(alloc, 1, &[0, 1])?]?;
    Ok(Task {
        types: List::of(types),
        objects: List::of(objects),
        predicates: List::of(predicates),
        schemas: List::of(schemas),
        init: List::of(init),
        goal: List::of(Vec::new(alloc)),
    })
}

/// The task with this goal.
fn with_goal(alloc: Global, task: Task, literal: GoalLiteral) -> Result<Task, AllocError>
    requires { IsAtomOf task.objects task.predicates literal.atom }
{
    let goal = vec![in alloc; literal]?;
    Ok(Task {
        types: task.types,
        objects: task.objects,
        predicates: task.predicates,
        schemas: task.schemas,
        init: task.init,
        goal: List::of(goal),
    })
}

/// Whether the test and a pruner both answer as the case has it.
fn is_answered(alloc: Global, case: &HopelessCase) -> Result<bool, AllocError> {
    let task = twins(alloc)?;
    if !is_atom(&task, case.predicate, case.objects) {
        return Ok(false);
    }
    let literal = literal(alloc, case.predicate, case.objects, case.wanted)?;
    let task = with_goal(alloc, task, literal)?;
    let state = packed(alloc, &task, case.atoms)?;
    let test = HopelessTest::of(alloc, &task)?;
    if test.is_hopeless(&task, &state) != case.hopeless {
        return Ok(false);
    }
    Ok(is_hopeless_cut(&test, &task, &state) == case.hopeless)
}

#[test]
fn hopeless_states_are_told(rt: HostRuntime) -> Result<(), Fail> {
    for (i, case) in CASES.iter().enumerate() {
        assert!(rt; is_answered(rt.alloc(), case)?, "case {i}");
    }
    Ok(())
}
