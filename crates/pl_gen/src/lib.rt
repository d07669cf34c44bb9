//! The applicable steps of a state, each once, in step order, from any place on.
//!
//! An action schema is a query over the state's relations. It is answered by a join tree, a full reducer and
//! a cursor (Corrêa, Pommerening, Helmert and Francès 2020; Yannakakis 1981): no ground action is ever
//! written down. What a walk gives stands in `specs/Walks.antt`, what is kept of a schema in
//! `specs/Entries.antt` and `specs/Views.antt`, and why the rows of a schema's query are its applicable steps
//! in `specs/SchemaSteps.antt`.
#![tactic(auto)]

mod entry;
mod guards;
mod late;
pub mod laws;
mod place;
mod prepared;
mod query;
mod turn;
mod view;
mod walk;

pub use prepared::Prepared;
pub use view::View;
pub use walk::Walk;
