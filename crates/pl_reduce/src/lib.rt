//! The full reducer: the tables of a join along a removal of ears, in which no row is in no answer.
//!
//! `specs/Reduced.antt` says what a full reduction is, `specs/Nodes.antt` what its nodes are, and
//! `specs/Walk.antt` in which order a cursor walks them, and `specs/Layout.antt` where it stops.
//! `specs/Recipes.antt` is about joins with fixed relations.
#![tactic(auto)]

mod arranging;
mod fitting;
mod fixing;
mod handed;
pub mod laws;
mod layout;
mod pairs;
mod parents;
mod passes;
mod planned;
mod recipe;
mod reduced;
mod reducer;
mod storing;

pub use layout::{Layout, Stop};
pub use recipe::Recipe;
pub use reduced::Reduced;
