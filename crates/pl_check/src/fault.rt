//! Faults of the input, and how a check ends that gives no task.

use crate::role::FileRole;
use std::alloc::AllocError;
use thiserror::Error;

/// What is wrong at a place. Where several tests fail at one place, the kind that stands first here is given.
#[derive(Clone, Copy, Debug, PartialEq, Eq)]
pub enum FaultKind {
    /// A byte outside comments that is no blank, no bracket and no part of a word.
    BadByte,
    /// A close bracket where no list is open.
    StrayClose,
    /// An open bracket where too many lists are open already.
    TooDeep,
    /// An open bracket that is never closed.
    Unclosed,
    /// The file isn't one list.
    NotOneForm,
    /// A form that doesn't have the shape that is asked for where it stands.
    BadForm,
    /// A part of PDDL that isn't read, or a section or key of another place.
    Unsupported,
    /// A section, an action, a key, a predicate or a parameter that stood before.
    Duplicate,
    /// A name in type position that isn't declared in `:types`.
    UnknownType,
    /// An atom of a predicate that isn't declared.
    UnknownPredicate,
    /// A variable that isn't a parameter of the action, or a name that isn't an object.
    UnknownName,
    /// An atom or an equality with too few or too many terms.
    WrongArity,
    /// More than 64 arguments or parameters, or more than 1,024 atoms and equalities in a precondition.
    TooMany,
}

/// A fault of one of the files.
#[derive(Clone, Copy, Debug, PartialEq, Eq)]
pub struct InputFault {
    /// The file.
    pub file: FileRole,
    /// The place, as the offset of a byte; the length of the file where a form is missing.
    pub at: u32,
    /// What is wrong there.
    pub kind: FaultKind,
}

/// Why a check gave no task, or a plan file no lines.
#[derive(Debug, Drop, Error)]
pub enum CheckEnd {
    /// The input has this fault first.
    #[error("the input is faulty: {0:?}")]
    Fault(InputFault),
    /// There was not enough memory.
    #[error(transparent)]
    Memory(AllocError),
}

/// Why a text gave no step.
#[derive(Debug, Drop, Error)]
pub enum StepEnd {
    /// The text isn't one step of the task.
    #[error("the text is no step of the task")]
    NotAStep,
    /// There was not enough memory.
    #[error(transparent)]
    Memory(AllocError),
}
