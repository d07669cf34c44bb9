//! The forms of a file, or its text fault.

ghost use Rattle.std.specs.Prelude.{◌≡◌, ◌≤◌, length, IfOk, IfErr, All};
ghost use Rattle.pl_text.specs.Trees.{trees_of, LieBetween};
ghost use Rattle.pl_check.specs.Elements.{trees};
ghost use Rattle.pl_check.specs.FirstFault.{AreRead, text_in_file};
ghost use Rattle.pl_check.specs.Reading.{EndsReading, HasFew, check_end_of};

use crate::fault::{CheckEnd, FaultKind, InputFault};
use crate::reading::ReadEnd;
use crate::role::FileRole;
use pl_text::{FormList, TextEnd, TextFault, forms};
use std::alloc::Global;

/// The forms of a file, or its text fault as a fault of the file.
pub fn read_forms(alloc: Global, file: FileRole, bytes: &[u8]) -> Result<FormList, CheckEnd>
    requires { length bytes.now ≤ 16777216 }
    ensures read { IfOk result (λ list. AreRead bytes.now (trees_of list)) }
    // As many forms and elements as the file has bytes, at most.
    ensures short { IfOk result (λ list. length list ≤ 16777216) }
    ensures few { IfOk result (λ list. All HasFew (trees list)) }
    // They lie in the file one after another.
    ensures lie { IfOk result (λ list. LieBetween 0 (length bytes.now) (trees_of list)) }
    ensures err { IfErr result (EndsReading file bytes.now) }
{
    match forms(alloc, bytes) {
        Ok(all) => Ok(all),
        Err(TextEnd::Fault(fault)) => Err(CheckEnd::Fault(text_fault(file, fault))),
        Err(TextEnd::Memory(error)) => Err(CheckEnd::Memory(error)),
    }
}

/// A text fault as a fault of a file.
fn text_fault(file: FileRole, fault: TextFault) -> InputFault
    ensures { result ≡ text_in_file file fault }
{
    match fault {
        TextFault::BadByte { at } => InputFault {
            file,
            at,
            kind: FaultKind::BadByte,
        },
        TextFault::StrayClose { at } => InputFault {
            file,
            at,
            kind: FaultKind::StrayClose,
        },
        TextFault::TooDeep { at } => InputFault {
            file,
            at,
            kind: FaultKind::TooDeep,
        },
        TextFault::Unclosed { at } => InputFault {
            file,
            at,
            kind: FaultKind::Unclosed,
        },
    }
}

/// The end of a reading as the end of a check of a file.
pub fn end_in(file: FileRole, end: ReadEnd) -> CheckEnd
    ensures { result ≡ check_end_of file end }
{
    match end {
        ReadEnd::Fault(fault) => CheckEnd::Fault(InputFault {
            file,
            at: fault.at,
            kind: fault.kind,
        }),
        ReadEnd::Memory(error) => CheckEnd::Memory(error),
    }
}
