//! Why a file has no forms.

use std::alloc::AllocError;
use thiserror::Error;

/// How many lists may stand open at one place of a file.
pub const MAX_DEPTH: usize = 200;

/// What is wrong with a file before any of its forms is looked at, with its place: the offset of a byte.
///
/// Of the first three the one with the least place is given; `Unclosed` is given where there is none of them.
#[derive(Clone, Copy, Debug, PartialEq, Eq)]
pub enum TextFault {
    /// A byte outside comments that is no blank, no bracket and no part of a word.
    BadByte { at: u32 },
    /// A close bracket where no list is open.
    StrayClose { at: u32 },
    /// An open bracket where `MAX_DEPTH` lists are open already.
    TooDeep { at: u32 },
    /// An open bracket that is never closed.
    Unclosed { at: u32 },
}

/// Why a reading gave no forms.
#[derive(Debug, Drop, Error)]
pub enum TextEnd {
    /// The file has no forms: its fault.
    #[error("the text is faulty: {0:?}")]
    Fault(TextFault),
    /// There was not enough memory for the forms.
    #[error(transparent)]
    Memory(AllocError),
}
