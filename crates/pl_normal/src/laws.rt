//! Laws about the definitions of this crate. Each function does nothing and takes no memory; its contract is
//! the law.

ghost use Rattle.pl_normal.specs.Laws.{ChainsAreTested, ClassesAreLeast, EarRemovalsAreRemovals};
ghost use Rattle.pl_normal.specs.Laws.{RemovalsAreOne, AnswersAreApplicable, StepsAreAnswers};
ghost use Rattle.pl_normal.specs.Laws.{StepsAreAssignments, StepsCompareByClasses, ParametersAreOrdered};
ghost use Rattle.pl_normal.specs.Laws.{StepOrderIsTotal, StepsTieNowhere, AllStepsAreSteps, AllStepsAscend};
ghost use Rattle.pl_normal.specs.Laws.{ApplicableStepsAreListed, ApplicableStepsAscend};

use pl_task::Task;

/// The classes of parameters are those that chains of equalities join, each named by its least parameter.
pub fn classes_are_least()
    ensures tested { ChainsAreTested }
    ensures least { ClassesAreLeast }
{}

/// The removal of ears as a function is the one removal that the edges have.
pub fn ears_are_removed_in_one_way()
    ensures is { EarRemovalsAreRemovals }
    ensures one { RemovalsAreOne }
{}

/// The query of a schema says what applicability says.
///
/// In a state that keeps the atoms over static predicates, an assignment meets all edges, guards and filters
/// exactly where the step under it is applicable, and each applicable step is the step under an assignment.
pub fn answers_are_applicable(_task: &Task)
    ensures answers { AnswersAreApplicable _task.now }
    ensures steps { StepsAreAnswers _task.now }
{}

/// Steps of a schema under assignments are one exactly where the assignments agree on the unfixed classes,
/// and compare as the objects of these classes do in class order.
pub fn steps_follow_the_classes(_task: &Task)
    ensures one { StepsAreAssignments _task.now }
    ensures order { StepsCompareByClasses _task.now }
    ensures parameters { ParametersAreOrdered _task.now }
{}

/// Steps are totally ordered; the list of all steps has exactly the steps, and that of the applicable ones
/// exactly those, each once and ascending.
pub fn steps_are_listed_in_order(_task: &Task)
    ensures total { StepOrderIsTotal _task.now }
    ensures ties { StepsTieNowhere _task.now }
    ensures steps { AllStepsAreSteps _task.now }
    ensures ascend { AllStepsAscend _task.now }
    ensures applicable { ApplicableStepsAreListed _task.now }
    ensures applicable_ascend { ApplicableStepsAscend _task.now }
{}
