//! Plans, and the lines of a plan file.

use crate::list::List;
use crate::step::Step;

/// Steps to be executed in turn.
pub type Plan = List<Step>;

/// What a line of a plan file names. The tests are made in the order of the variants, and the first that
/// fails decides.
#[derive(Debug, Drop)]
pub enum PlanLine {
    /// A step of the task.
    Step(Step),
    /// No action has the line's name.
    UnknownAction,
    /// The action takes another number of arguments.
    Arguments,
    /// An argument names no object.
    UnknownObject,
}
