//! What ends a run before it has an answer to print.

ghost use Rattle.std.specs.Prelude.{◌≡◌};
ghost use Rattle.pl_print.specs.Texts.{fault_text};
ghost use Rattle.pl_print.specs.declared.fault.Fault.TheVariants as fault;
ghost use Rattle.pl_top.specs.Refusal.{fault_of, status_of};
ghost use Rattle.pl_top.specs.Run.{IsLinePut};

use pl_check::{FaultKind, FileRole};
use pl_io::Sink;
use pl_print::{Fault, put_fault};
use std::alloc::AllocError;

/// Why a run of a request has no answer to print.
#[derive(Debug, Drop)]
pub enum Refusal {
    /// This file is missing, or a read of it failed.
    CannotRead(FileRole),
    /// This file has more bytes than are read of any file.
    TooLong(FileRole),
    /// A file has this fault first.
    Input {
        /// Which of the files it is.
        file: FileRole,
        /// The line of the place, from 1.
        line: u32,
        /// The column of the place, in bytes, from 1.
        column: u32,
        /// What is wrong there.
        kind: FaultKind,
    },
    /// The text of the step past which steps are listed is no step of the task.
    NotAStep,
    /// Memory ran out.
    Memory(AllocError),
}

/// Writes the refusal's line to `err`, and answers the status. That `err` fails changes nothing.
pub fn refuse<E: Sink>(refusal: &Refusal, err: &mut E) -> u8
    ensures status { result ≡ status_of refusal.now }
    ensures line { IsLinePut (fault_text (fault_of refusal.now)) (E.seen err.old) (E.seen err.new) }
{
    put_line(err, &fault(refusal));
    match refusal {
        Refusal::CannotRead(_) => 4,
        Refusal::TooLong(_) | Refusal::Input { .. } => 3,
        Refusal::NotAStep => 2,
        Refusal::Memory(_) => 8,
    }
}

/// Says on `err` that `out` failed, and answers the status.
pub fn cannot_write<E: Sink>(err: &mut E) -> u8
    ensures status { result ≡ 5 }
    ensures line { IsLinePut (fault_text fault.Write) (E.seen err.old) (E.seen err.new) }
{
    put_line(err, &Fault::Write);
    5
}

/// The fault that is printed.
fn fault(refusal: &Refusal) -> Fault
    ensures { result ≡ fault_of refusal.now }
{
    match *refusal {
        Refusal::CannotRead(file) => Fault::Read(file),
        Refusal::TooLong(file) => Fault::TooLong(file),
        Refusal::Input {
            file,
            line,
            column,
            kind,
        } => Fault::Input {
            file,
            line,
            column,
            kind,
        },
        Refusal::NotAStep => Fault::NotAStep,
        Refusal::Memory(_) => Fault::Memory,
    }
}

/// Writes the line of a fault as far as the sink takes it.
pub fn put_line<E: Sink>(err: &mut E, fault: &Fault)
    ensures { IsLinePut (fault_text fault.now) (E.seen err.old) (E.seen err.new) }
{
    let _ = put_fault(err, fault);
}
