//! How a reading of forms ends.

ghost use Rattle.std.specs.Prelude.{◌≡◌, [], ◌∷◌, ◌++◌, OnOk, IfErr};
ghost use Rattle.pl_check.specs.Reading.{IsMemory};

use crate::fault::FaultKind;
use std::alloc::AllocError;

/// A fault of a form of a file.
#[derive(Clone, Copy, Debug, PartialEq, Eq)]
pub struct Fault {
    /// The place, as the offset of a byte.
    pub at: u32,
    /// What is wrong there.
    pub kind: FaultKind,
}

/// Why a reading of forms gave no value.
#[derive(Debug, Drop)]
pub enum ReadEnd {
    /// The forms have this fault first.
    Fault(Fault),
    /// There was not enough memory.
    Memory(AllocError),
}

/// The refusal for a fault.
pub fn refusal(at: u32, kind: FaultKind) -> ReadEnd
    ensures { result ≡ ReadEnd.Fault (record { at = at; kind = kind }) }
{
    ReadEnd::Fault(Fault { at, kind })
}

/// Adds an item at the end of a list.
pub fn push<T: Drop>(list: &mut Vec<T>, item: T) -> Result<(), ReadEnd>
    ensures ok { OnOk result (list.new.items ≡ list.old.items ++ item ∷ []) }
    ensures err { IfErr result IsMemory }
{
    match list.push(item) {
        Ok(()) => Ok(()),
        Err(failed) => Err(ReadEnd::Memory(failed.into())),
    }
}
