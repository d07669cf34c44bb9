//! What the judge answers.

/// What the lines of a plan come to.
#[derive(Clone, Copy, Debug, PartialEq, Eq)]
pub enum Verdict {
    /// The lines are a plan of so many steps.
    Valid(u32),
    /// A line cannot be executed after the lines before it.
    Invalid {
        /// The number of the first such line, from 1.
        line: u32,
        /// Why it cannot.
        reason: Reason,
    },
    /// All lines can be executed, and the state that they lead to is no goal state.
    GoalMissed,
}

/// Why a line cannot be executed.
#[derive(Clone, Copy, Debug, PartialEq, Eq)]
pub enum Reason {
    /// No action has the line's name.
    UnknownAction,
    /// The action takes another number of arguments.
    Arguments,
    /// An argument names no object.
    UnknownObject,
    /// The line is a step, and an argument lacks the parameter's type or a literal of the precondition is
    /// false.
    Inapplicable,
}
