//! The normal form of an action schema: a query over the relations of a state.
//!
//! Parameters that equalities join are one class, and literals become guards, edges and filters
//! (`specs/NormalForm.antt`, over `specs/Classes.antt`). The ears of the edges give the order of the
//! parameters (`specs/EarRemoval.antt`, `specs/ParameterOrder.antt`), and with it the order of steps
//! (`specs/StepOrder.antt`), the lists of all steps and of the applicable ones (`specs/Steps.antt`), and the
//! measures that bounds on work are stated in (`specs/Measures.antt`). That the query says what applicability
//! says stands in `specs/Query.antt` and `specs/Laws.antt`.
//!
//! The join of a query has a recipe, made once a task, with the relations of the nodes that no state changes;
//! those of the other nodes are made of the tables of a state (`specs/Recipes.antt`, over
//! `specs/Queries.antt` and `specs/StateTables.antt`).
#![tactic(auto)]

mod classes;
mod edges;
mod filters;
mod fixed;
#[cfg(test)]
mod fixed_tests;
mod form;
mod guards;
mod kinds;
pub mod laws;
mod nodes;
mod normalizing;
mod numbering;
mod order;
mod query;
mod recipes;
mod relations;
mod slots;
mod tables;
#[cfg(test)]
mod tests;

pub use form::{Edge, Guard, NormalSchema, Placed, Sieve, Source};
pub use normalizing::{NormalTask, normal};
