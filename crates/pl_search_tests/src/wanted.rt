//! How searches of the task of places are to end.

use pl_registry::{Outcome, Stats};
use pl_task::Plan;

/// How a search ends: with a plan of these steps, or without one.
pub enum Wanted {
    Plan(&'static [(u32, &'static [u32])]),
    Unsolvable,
    Limit,
}

/// So many places, whether a literal is wanted that no step can reach, the limit on states, and how the
/// search is to end.
pub struct Case {
    pub count: u32,
    pub back: bool,
    pub limit: u32,
    pub wanted: Wanted,
    pub stats: Stats,
}

/// Whether the plan has these steps.
pub fn has_steps(plan: &Plan, steps: &[(u32, &[u32])]) -> bool {
    let taken = plan.as_slice();
    if taken.len() != steps.len() {
        return false;
    }
    for i in 0..taken.len() {
        let step = taken[i].view();
        let (schema, args) = steps[i];
        if step.schema != schema || step.args != args {
            return false;
        }
    }
    true
}

/// Whether the search ended so.
pub fn is_wanted(outcome: &Outcome, wanted: &Wanted) -> bool {
    match (outcome, wanted) {
        (Outcome::Found(plan), Wanted::Plan(steps)) => has_steps(plan, steps),
        (Outcome::Unsolvable, Wanted::Unsolvable) => true,
        (Outcome::Limit, Wanted::Limit) => true,
        _ => false,
    }
}
