//! Which types the arguments of steps have.

ghost use Rattle.std.specs.Prelude.{◌≡◌, ℕ, ◌<◌, ◌↔◌, IsTrue, length, All, Any, IfOk, OnOk};
ghost use Rattle.pl_task.specs.declared.data.Parameter.{Parameter as ParameterOf};
ghost use Rattle.pl_task.specs.declared.task.Task.{Task as TaskOf};
ghost use Rattle.pl_task.specs.States.{AreTyped};
ghost use Rattle.pl_task.specs.Types.{HasType};

use pl_task::{Parameter, Task};
use std::alloc::{AllocError, Global};
use std::collections::BTreeMap;

/// What was asked of the types of a task. A question costs a walk over the parents once: its answer is kept
/// for all objects that were declared with the same one type.
#[derive(Drop)]
pub struct TypeTable {
    /// The answers, by object and type.
    known: BTreeMap<(u32, u32), bool>,
    /// For a type, an object that was declared with it alone.
    alike: BTreeMap<u32, u32>,
}

impl TypeTable {
    ghost use Rattle.pl_valid.specs.Judging.{KnowsTypes};

    /// A table of no answers, which serves every task.
    pub fn new(alloc: Global) -> TypeTable
        ensures { (task : TaskOf) → KnowsTypes task result }
    {
        TypeTable {
            known: BTreeMap::new(alloc),
            alike: BTreeMap::new(alloc),
        }
    }

    /// Whether the object has the type.
    pub fn has_type(
        &mut self,
        alloc: Global,
        task: &Task,
        object: u32,
        type_number: u32,
    ) -> Result<bool, AllocError>
        requires object { object < length task.now.objects }
        requires type_number { type_number < length task.now.types }
        requires known { KnowsTypes task.now self.old }
        ensures decides { IfOk result (λ answer. IsTrue answer ↔ HasType task.now object type_number) }
        ensures known { OnOk result (KnowsTypes task.now self.new) }
    {
        let asked = self.representative(task, object)?;
        if let Some(answer) = self.known.get(&(asked, type_number)) {
            return Ok(*answer);
        }
        let answer = task.has_type(alloc, asked, type_number)?;
        let _ = self.known.insert((asked, type_number), answer)?;
        Ok(answer)
    }

    /// An object with the same types: one for all objects that were declared with one type and the same, else
    /// the object.
    fn representative(&mut self, task: &Task, object: u32) -> Result<u32, AllocError>
        requires object { object < length task.now.objects }
        requires known { KnowsTypes task.now self.old }
        ensures within { IfOk result (λ other. other < length task.now.objects) }
        ensures same { IfOk result (λ other. (t : ℕ) → HasType task.now other t ↔ HasType task.now object t) }
        ensures known { OnOk result (KnowsTypes task.now self.new) }
    {
        let definition = &task.objects.as_slice()[object as usize];
        let types = definition.types.as_slice();
        if types.len() != 1 {
            return Ok(object);
        }
        if let Some(other) = self.alike.get(&types[0]) {
            return Ok(*other);
        }
        let _ = self.alike.insert(types[0], object)?;
        Ok(object)
    }

    /// Whether the object has at least one of the types.
    fn has_any_type(
        &mut self,
        alloc: Global,
        task: &Task,
        object: u32,
        types: &[u32],
    ) -> Result<bool, AllocError>
        requires object { object < length task.now.objects }
        requires types { All (λ t. t < length task.now.types) types.now }
        requires known { KnowsTypes task.now self.old }
        ensures decides { IfOk result (λ answer. IsTrue answer ↔ Any (HasType task.now object) types.now) }
        ensures known { OnOk result (KnowsTypes task.now self.new) }
    {
        for type_number in types {
            if self.has_type(alloc, task, object, *type_number)? {
                return Ok(true);
            }
        }
        Ok(false)
    }

    /// Whether each argument has at least one type of its parameter.
    pub fn are_typed(
        &mut self,
        alloc: Global,
        task: &Task,
        parameters: &[Parameter],
        args: &[u32],
    ) -> Result<bool, AllocError>
        requires many { length args.now ≡ length parameters.now }
        requires within { All (λ o. o < length task.now.objects) args.now }
        requires types { All (λ (p : ParameterOf). All (λ t. t < length task.now.types) p.types)
            parameters.now }
        requires known { KnowsTypes task.now self.old }
        ensures decides { IfOk result (λ answer. IsTrue answer ↔ AreTyped task.now parameters.now args.now) }
        ensures known { OnOk result (KnowsTypes task.now self.new) }
    {
        for (i, parameter) in parameters.iter().enumerate() {
            if !self.has_any_type(alloc, task, args[i], parameter.types.as_slice())? {
                return Ok(false);
            }
        }
        Ok(true)
    }
}
