//! A ground step, owned, borrowed and as a plain mark.

ghost use Rattle.std.specs.Prelude.{◌≡◌, ◌≤◌, IfOk, IsOk, length, take};
ghost use Rattle.pl_task.specs.Instance.{Instance, Kept, instance_of};

use smallvec::SmallVec;
use std::alloc::{AllocError, Global};
use std::marker::Model;

/// A step of a task: an action schema with an object for each of its parameters. Up to eight objects take no
/// memory.
///
/// Contracts see the schema's number and the list of the objects' numbers.
#[derive(Debug, Drop)]
pub struct Step {
    schema: u32,
    args: SmallVec<u32, 8>,
}

impl Model for Step {
    ghost use Rattle.pl_task.specs.Instance.{Instance};

    ghost Value = { Instance };

    ghost view = { λ step. record { schema = step.schema; args = step.args.items } };
}

/// A step that is lent out.
#[derive(Clone, Copy, Debug)]
pub struct StepRef<'a> {
    /// The number of the schema.
    pub schema: u32,
    /// The number of an object for each parameter, in the order of the schema's parameters.
    pub args: &'a [u32],
}

impl Step {
    /// An owned copy of a step. With at most eight arguments it takes no memory and always answers `Ok`.
    pub fn of(alloc: Global, step: StepRef<'_>) -> Result<Step, AllocError>
        requires { length step.args.now ≤ 64 }
        ensures ok { IfOk result (λ s. s ≡ record {
          schema = step.entry.schema;
          args = step.entry.args.now;
        }) }
        ensures short { length step.entry.args.now ≤ 8 → IsOk result }
    {
        let args = SmallVec::from_slice(alloc, step.args)?;
        Ok(Step {
            schema: step.schema,
            args,
        })
    }

    /// The step, lent out.
    pub fn view(&self) -> StepRef<'_>
        ensures schema { result.schema ≡ self.now.schema }
        ensures args { result.args.now ≡ self.now.args }
    {
        StepRef {
            schema: self.schema,
            args: self.args.as_slice(),
        }
    }
}

/// A step as a plain value of fixed size, by which an enumeration can be taken up again.
#[derive(Clone, Copy)]
pub struct Mark {
    schema: u32,
    len: u32,
    args: [u32; 64],
}

impl Model for Mark {
    ghost use Rattle.std.specs.Prelude.{◌≤◌};
    ghost use Rattle.pl_task.specs.Instance.{Kept};

    ghost Value = { Kept };

    ghost view = { λ m. record { schema = m.schema; count = m.len; numbers = m.args } };

    ghost invariant = { λ m. m.len ≤ 64 };

    ghost inverse = { λ k. record { schema = k.schema; len = k.count; args = k.numbers } };
}

impl Mark {
    /// A copy of a step with at most 64 arguments.
    pub fn of(step: StepRef<'_>) -> Mark
        requires { length step.args.now ≤ 64 }
        ensures { instance_of result ≡ record { schema = step.entry.schema; args = step.entry.args.now } }
    {
        let mut args = [0; 64];
        args[..step.args.len()].copy_from_slice(step.args);
        Mark {
            schema: step.schema,
            len: step.args.len() as u32,
            args,
        }
    }

    /// The step, lent out.
    pub fn view(&self) -> StepRef<'_>
        ensures schema { result.schema ≡ self.now.schema }
        ensures args { result.args.now ≡ (instance_of self.now).args }
    {
        StepRef {
            schema: self.schema,
            args: &self.args[..self.len as usize],
        }
    }
}
