//! Laws about the applicable steps of a schema. Each function does nothing and takes no memory; its contract
//! is the law.

ghost use Rattle.pl_gen.specs.SchemaSteps.{StepsComeBySchemas, RowsAreSteps, LateFiltersAreLast};
ghost use Rattle.pl_gen.specs.SchemaSteps.{FalseGuardsStop, NoEdgeIsOneStep, StepsAboveComeBySchemas};
ghost use Rattle.pl_gen.specs.SchemaSteps.{StepsAboveAreRowsPast};

use pl_task::Task;

/// The applicable steps of a state come schema by schema, and those of a schema are the steps under the
/// ascending answers of its query, in order. The late filters are the last that an answer meets.
pub fn rows_are_steps(_task: &Task)
    ensures schemas { StepsComeBySchemas _task.now }
    ensures rows { RowsAreSteps _task.now }
    ensures late { LateFiltersAreLast _task.now }
{}

/// A false guard leaves a schema no applicable step. Where all guards hold, a schema without edges has one,
/// of its fixed objects.
pub fn guards_come_first(_task: &Task)
    ensures stop { FalseGuardsStop _task.now }
    ensures one { NoEdgeIsOneStep _task.now }
{}

/// The applicable steps above a step are those of its schema that are above it, and those of all later
/// schemas. Those of its schema are the steps under the rows past its key.
pub fn steps_above_are_rows_past(_task: &Task)
    ensures schemas { StepsAboveComeBySchemas _task.now }
    ensures rows { StepsAboveAreRowsPast _task.now }
{}
