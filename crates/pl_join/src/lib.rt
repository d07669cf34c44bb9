//! Relations over classes of parameters, and their operations: selection, filters, projection, semijoin and
//! join.
//!
//! What a relation is, which assignments it holds, and what each operation gives, in the words of database
//! theory, stand in `specs/Relation.antt`.
#![tactic(auto)]

mod filters;
mod found;
mod joins;
mod keyed;
pub mod laws;
mod lookup;
mod projection;
mod relation;
mod selection;
mod semijoins;
mod short_list;
mod slot;
mod source;

pub use filters::{filter_absent, filter_unequal};
pub use found::Ranges;
pub use joins::hash_join;
pub use keyed::{Keyed, reduction_by_keyed, reduction_of_keyed};
pub use projection::project;
pub use relation::Relation;
pub use selection::{select, select_in_order};
pub use semijoins::{reduction, semijoin};
pub use slot::Slot;
