//! What adding a state to a registry answers.

use std::alloc::AllocError;

/// The number of a state that was added.
#[derive(Clone, Copy, Debug, PartialEq, Eq)]
pub enum Added {
    /// The state is new, and has this number.
    New(u32),
    /// The state was held with this number. Nothing changed.
    Known(u32),
}

/// Why a state that isn't held was not registered. Nothing changed.
#[derive(Clone, Copy, Debug)]
pub enum Refused {
    /// As many states as the limit are registered.
    Full,
    /// Memory ran out.
    Memory(AllocError),
}
