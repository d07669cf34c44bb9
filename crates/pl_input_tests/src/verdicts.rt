//! Verdicts on a small task, from the rules by hand.

ghost use Rattle.std.specs.Prelude.{◌≡◌, ◌<◌, ◌≤◌, ◌^◌, [], ◌∷◌, length, All, IfOk};
ghost use Rattle.pl_task.specs.declared.data.ObjectDef.{ObjectDef as ObjectOf};
ghost use Rattle.pl_task.specs.declared.data.Term.TheVariants as term;
ghost use Rattle.pl_valid.specs.Verdict.{IsLineOf};
ghost use Rattle.pl_input_tests.specs.Lamps.{on, lamp, light, pass};

use pl_task::{
    Atom, GoalLiteral, Lifted, List, Literal, ObjectDef, Parameter, PlanLine, PredicateDef, Schema,
    Step, StepRef, Task, Term, TypeDef,
};
use pl_valid::{Reason, Verdict, judge};
use std::alloc::{AllocError, Global};
use std::test::Fail;

/// A line of a plan for the lamps.
enum Line {
    /// Lights a lamp.
    Light(u32),
    /// Passes the light of a lamp on to another.
    Pass(u32, u32),
    UnknownAction,
    Arguments,
    UnknownObject,
}

/// Lines with their verdict. At first no lamp is lit. The goal is that lamp 1 is lit and lamp 0 is not.
struct Case {
    lines: &'static [Line],
    verdict: Verdict,
}

const CASES: &[Case] = &[
    Case {
        lines: &[],
        verdict: Verdict::GoalMissed,
    },
    Case {
        lines: &[Line::Light(1)],
        verdict: Verdict::Valid(1),
    },
    // A lamp that is lit already, and a light that is passed to a lit lamp.
    Case {
        lines: &[
            Line::Light(1),
            Line::Light(1),
            Line::Light(0),
            Line::Pass(0, 1),
        ],
        verdict: Verdict::Valid(4),
    },
    Case {
        lines: &[Line::Light(1), Line::Light(0)],
        verdict: Verdict::GoalMissed,
    },
    Case {
        lines: &[Line::Pass(0, 1)],
        verdict: Verdict::Invalid {
            line: 1,
            reason: Reason::Inapplicable,
        },
    },
    Case {
        lines: &[Line::Light(1), Line::Pass(1, 1)],
        verdict: Verdict::Invalid {
            line: 2,
            reason: Reason::Inapplicable,
        },
    },
    Case {
        lines: &[Line::Light(0), Line::Pass(0, 1), Line::Pass(0, 1)],
        verdict: Verdict::Invalid {
            line: 3,
            reason: Reason::Inapplicable,
        },
    },
    Case {
        lines: &[Line::Light(1), Line::UnknownAction, Line::Pass(0, 1)],
        verdict: Verdict::Invalid {
            line: 2,
            reason: Reason::UnknownAction,
        },
    },
    Case {
        lines: &[Line::Arguments],
        verdict: Verdict::Invalid {
            line: 1,
            reason: Reason::Arguments,
        },
    },
    Case {
        lines: &[Line::Light(1), Line::UnknownObject],
        verdict: Verdict::Invalid {
            line: 2,
            reason: Reason::UnknownObject,
        },
    },
];

fn lit(alloc: Global, term: Term) -> Result<Lifted, AllocError>
    ensures { IfOk result (λ a. a ≡ on term) }
{
    Ok(Lifted {
        predicate: 0,
        terms: List::of(vec![in alloc; term]?),
    })
}

fn a_lamp(alloc: Global) -> Result<Parameter, AllocError>
    ensures { IfOk result (λ p. p ≡ lamp) }
{
    Ok(Parameter {
        name: List::of(Vec::new(alloc)),
        types: List::of(vec![in alloc; 0]?),
    })
}

fn to_light(alloc: Global) -> Result<Schema, AllocError>
    ensures { IfOk result (λ s. s ≡ light) }
{
    Ok(Schema {
        name: List::of(Vec::new(alloc)),
        parameters: List::of(vec![in alloc; a_lamp(alloc)?]?),
        condition: List::of(Vec::new(alloc)),
        delete: List::of(Vec::new(alloc)),
        add: List::of(vec![in alloc; lit(alloc, Term::Parameter(0))?]?),
    })
}

fn to_pass(alloc: Global) -> Result<Schema, AllocError>
    ensures { IfOk result (λ s. s ≡ pass) }
{
    let is_lit = Literal::Atom(lit(alloc, Term::Parameter(0))?);
    let is_other = Literal::NotEqual(Term::Parameter(0), Term::Parameter(1));
    Ok(Schema {
        name: List::of(Vec::new(alloc)),
        parameters: List::of(vec![in alloc; a_lamp(alloc)?, a_lamp(alloc)?]?),
        condition: List::of(vec![in alloc; is_lit, is_other]?),
        delete: List::of(vec![in alloc; lit(alloc, Term::Parameter(0))?]?),
        add: List::of(vec![in alloc; lit(alloc, Term::Parameter(1))?]?),
    })
}

fn wanted(alloc: Global, number: u32, wanted: bool) -> Result<GoalLiteral, AllocError>
    ensures { IfOk result (λ g. g ≡ record {
      atom = record { predicate = 0; objects = number ∷ [] };
      wanted = wanted;
    }) }
{
    let objects = List::of(vec![in alloc; number]?);
    let atom = Atom {
        predicate: 0,
        objects,
    };
    Ok(GoalLiteral { atom, wanted })
}

/// So many objects without a declared type.
fn objects(alloc: Global, count: u32) -> Result<Vec<ObjectDef>, AllocError>
    ensures many { IfOk result (λ v. length v.items ≡ count) }
    ensures plain { IfOk result (λ v. All (λ (o : ObjectOf). o.types ≡ []) v.items) }
{
    let mut made = Vec::new(alloc);
    for _i in 0..count {
        made.push(ObjectDef {
            name: List::of(Vec::new(alloc)),
            types: List::of(Vec::new(alloc)),
        })?;
    }
    Ok(made)
}

/// The task with so many lamps.
fn lamps(alloc: Global, count: u32) -> Result<Task, AllocError>
    requires { 2 ≤ count }
{
    let on_definition = PredicateDef {
        name: List::of(Vec::new(alloc)),
        arity: 1,
        is_static: false,
    };
    let object = TypeDef {
        name: List::of(Vec::new(alloc)),
        parents: List::of(Vec::new(alloc)),
    };
    let types = vec![in alloc; object]?;
    let objects = objects(alloc, count)?;
    let predicates = vec![in alloc; on_definition]?;
    let schemas = vec![in alloc; to_light(alloc)?, to_pass(alloc)?]?;
    let goal = vec![in alloc; wanted(alloc, 1, true)?, wanted(alloc, 0, false)?]?;
    Ok(Task {
        types: List::of(types),
        objects: List::of(objects),
        predicates: List::of(predicates),
        schemas: List::of(schemas),
        init: List::of(Vec::new(alloc)),
        goal: List::of(goal),
    })
}

/// A line with the step, if it is one of the task.
fn step_line(alloc: Global, task: &Task, schema: u32, args: &[u32]) -> Result<PlanLine, AllocError>
    requires { length args.now ≤ 64 }
    ensures { IfOk result (IsLineOf task.now) }
{
    let step = StepRef { schema, args };
    if !task.is_step(step) {
        return Ok(PlanLine::Arguments);
    }
    Ok(PlanLine::Step(Step::of(alloc, step)?))
}

fn plan_line(alloc: Global, task: &Task, line: &Line) -> Result<PlanLine, AllocError>
    ensures { IfOk result (IsLineOf task.now) }
{
    match line {
        Line::Light(number) => step_line(alloc, task, 0, &[*number]),
        Line::Pass(from, to) => step_line(alloc, task, 1, &[*from, *to]),
        Line::UnknownAction => Ok(PlanLine::UnknownAction),
        Line::Arguments => Ok(PlanLine::Arguments),
        Line::UnknownObject => Ok(PlanLine::UnknownObject),
    }
}

fn plan_lines(alloc: Global, task: &Task, lines: &[Line]) -> Result<Vec<PlanLine>, AllocError>
    requires { length lines.now ≤ 2 ^ 24 }
    ensures few { IfOk result (λ v. length v.items ≤ 2 ^ 24) }
    ensures lines { IfOk result (λ v. All (IsLineOf task.now) v.items) }
{
    let mut made = Vec::new(alloc);
    for line in lines {
        made.push(plan_line(alloc, task, line)?)?;
    }
    Ok(made)
}

#[test]
fn plans_are_judged(rt: HostRuntime) -> Result<(), Fail> {
    let alloc = rt.alloc();
    let task = lamps(alloc, 2)?;
    for (i, case) in CASES.iter().enumerate() {
        assert!(rt; case.lines.len() < 10);
        let lines = plan_lines(alloc, &task, case.lines)?;
        assert_eq!(rt; judge(alloc, &task, &lines)?, case.verdict, "case {i}");
    }
    Ok(())
}
