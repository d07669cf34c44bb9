//! The task.

ghost use Rattle.pl_task.specs.WellFormed.{AreTypes, AreObjects, ArePredicates, AreSchemas, AreInitial};
ghost use Rattle.pl_task.specs.WellFormed.{IsGoalOf};

use crate::data::{Atom, GoalLiteral, ObjectDef, PredicateDef, Schema, TypeDef};
use crate::list::List;
use crate::marking::is_reached;
use crate::step::StepRef;
use std::alloc::{AllocError, Global};

/// A planning task. Numbers of types, objects, predicates and schemas are places in its lists, and all are in
/// range.
#[derive(Debug, Drop)]
pub struct Task {
    /// The types. Type 0 is `object`, which each object has.
    pub types: List<TypeDef>,
    /// The objects, constants of the domain first.
    pub objects: List<ObjectDef>,
    /// The predicates, static and fluent.
    pub predicates: List<PredicateDef>,
    /// The action schemas.
    pub schemas: List<Schema>,
    /// The atoms that are true at first, each once.
    pub init: List<Atom>,
    /// The literals of the goal.
    pub goal: List<GoalLiteral>,
    pub ghost types_ok: { AreTypes types },
    pub ghost objects_ok: { AreObjects types objects },
    pub ghost predicates_ok: { ArePredicates schemas predicates },
    pub ghost schemas_ok: { AreSchemas types objects predicates schemas },
    pub ghost init_ok: { AreInitial objects predicates init },
    pub ghost goal_ok: { IsGoalOf objects predicates goal },
}

impl Task {
    ghost use Rattle.std.specs.Prelude.{◌<◌, ◌↔◌, length, IfOk, IsTrue};
    ghost use Rattle.pl_task.specs.Types.{HasType};
    ghost use Rattle.pl_task.specs.States.{IsStep};

    /// Whether the object has the type: the type is `object`, or a chain of parents leads to it from a type
    /// of the object.
    ///
    /// Parents may run in a circle: the types that were seen are marked, in memory of its own.
    pub fn has_type(&self, alloc: Global, object: u32, type_number: u32) -> Result<bool, AllocError>
        requires object { object < length self.now.objects }
        requires type_number { type_number < length self.now.types }
        ensures { IfOk result (λ answer. IsTrue answer ↔ HasType self.now object type_number) }
    {
        if type_number == 0 {
            return Ok(true);
        }
        let definition = &self.objects.as_slice()[object as usize];
        is_reached(
            alloc,
            self.types.as_slice(),
            definition.types.as_slice(),
            type_number,
        )
    }

    /// Whether the schema and the objects are of the task and the arguments are as many as the schema's
    /// parameters.
    ///
    /// It says nothing of types: a step is one whether or not it is applicable.
    pub fn is_step(&self, step: StepRef<'_>) -> bool
        ensures { IsTrue result ↔ IsStep self.now (record {
          schema = step.entry.schema;
          args = step.entry.args.now;
        }) }
    {
        let schemas = self.schemas.as_slice();
        if step.schema as usize >= schemas.len() {
            return false;
        }
        let schema = &schemas[step.schema as usize];
        if step.args.len() != schema.parameters.as_slice().len() {
            return false;
        }
        let objects = self.objects.as_slice().len();
        step.args.iter().all(|object| (*object as usize) < objects)
    }
}
