//! Why a call on the outside gave up.

use std::alloc::AllocError;
use thiserror::Error;

/// A read or a write that the outside refused. The shelf or the sink has counted it as a fault.
#[derive(Clone, Copy, Debug, PartialEq, Eq, Error)]
#[error("the outside refused a read or a write")]
pub struct Failed;

/// Why a file was not read whole.
#[derive(Debug, Drop, Error)]
pub enum ReadEnd {
    /// The shelf tells its files, and none has the name.
    #[error("there is no such file")]
    Missing,
    /// The shelf failed, and has counted a fault.
    #[error("the file could not be read")]
    ReadFault,
    /// The file has more bytes than are read of any file.
    #[error("the file is too long")]
    TooLong,
    /// There was no memory for the bytes.
    #[error("out of memory")]
    Memory(AllocError),
}
