//! Breadth-first search and width search over the applicable steps of states.
//!
//! What they answer and what they leave of their registry stands in `specs/Breadth.antt` and
//! `specs/Width.antt`, over the records and endings of `pl_registry`. They stand on the steps that `pl_gen`
//! gives, and never speak of tables. `breadth` runs the turns of the entries, `expand` a turn, and `try_step`
//! of `pl_hooks` makes one step of it. `width`, `expand_new` and `try_new` do the same with a `Sieve` in
//! place of a pruner: it leaves out the states that aren't new under the width.
#![tactic(auto)]

mod expanding;
mod new_expanding;
mod new_trying;
mod searching;
mod sieve;
mod width_ended;
mod width_search;

pub use pl_registry::{Ended, Outcome, Stats};
pub use searching::breadth;
pub use width_ended::{WidthEnded, WidthOutcome};
pub use width_search::width;
