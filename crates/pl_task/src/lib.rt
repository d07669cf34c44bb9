//! The planning task: types, objects, predicates, action schemas, the initial state and the goal, and what a
//! plan is.
//!
//! Every claim of the planner rests on the definitions of this crate. They stand in `specs/`: types by chains
//! of parents (`Types`), ground atoms, states, steps, applicability and results (`States`), execution, plans
//! and reachability (`Plans`), goals and hopeless states (`Goal`), and what every `Task` keeps
//! (`WellFormed`). They are those of PDDL 2.1 (Fox and Long 2003), restricted to STRIPS with typing, equality
//! and negated preconditions.
#![tactic(auto)]

mod data;
pub mod laws;
mod list;
mod marking;
mod plan;
mod step;
mod task;

pub use data::{
    Atom, GoalLiteral, Lifted, Literal, ObjectDef, Parameter, PredicateDef, Schema, Term, TypeDef,
};
pub use list::List;
pub use plan::{Plan, PlanLine};
pub use step::{Mark, Step, StepRef};
pub use task::Task;
