//! Laws about the definitions of this crate. Each function does nothing and takes no memory; its contract is
//! the law.

ghost use Rattle.pl_task.specs.Laws.{AgreeingStatesAreOne, StatesAreSets, AddsComeLast, ExecutionHasOneEnd};
ghost use Rattle.pl_task.specs.Laws.{ExecutesInParts, TypesAreTested, StepsAreTested};
ghost use Rattle.pl_task.specs.Laws.{ApplicableStepsAreSteps};

use crate::task::Task;

/// States that agree on every atom are one, and those of lists are the sets of their atoms.
pub fn states_are_sets()
    ensures one { AgreeingStatesAreOne }
    ensures members { StatesAreSets }
    ensures adds { AddsComeLast }
{}

/// Steps lead from a state to at most one state, and a list of steps is executed in parts.
pub fn execution(_task: &Task)
    ensures one_end { ExecutionHasOneEnd _task.now }
    ensures parts { ExecutesInParts _task.now }
{}

/// The tests of types and of applicable steps decide what they test, and applicable steps are steps.
pub fn tests_decide(_task: &Task)
    ensures types { TypesAreTested _task.now }
    ensures steps { StepsAreTested _task.now }
    ensures are_steps { ApplicableStepsAreSteps _task.now }
{}
