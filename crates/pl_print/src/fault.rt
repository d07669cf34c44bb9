//! The lines that say why a run has no answer.

ghost use Rattle.std.specs.Prelude.{◌≡◌, OnOk, OnErr};
ghost use Rattle.std.specs.Io.KnownBytes.{Appends};
ghost use Rattle.pl_io.specs.Outside.{AppendsFront, HasCause};
ghost use Rattle.pl_print.specs.declared.fault.Fault.TheVariants as fault;
ghost use Rattle.pl_print.specs.Texts.{role_text, kind_text, fault_text};

use itoa::Buffer;
use pl_check::{FaultKind, FileRole};
use pl_io::{Failed, Sink, put_pieces};

/// Why a run has no answer.
#[derive(Clone, Copy, Debug, PartialEq, Eq)]
pub enum Fault {
    /// The words are no request.
    Words,
    /// The words name no step of the task.
    NotAStep,
    /// A file is faulty.
    Input {
        /// Which of the files it is.
        file: FileRole,
        /// The line of the place, from 1.
        line: u32,
        /// The column of the place, in bytes, from 1.
        column: u32,
        /// What is wrong there.
        kind: FaultKind,
    },
    /// A file has more bytes than are read of any.
    TooLong(FileRole),
    /// A file can't be read.
    Read(FileRole),
    /// The answer can't be written.
    Write,
    /// There is not enough memory.
    Memory,
}

/// Writes the line of a fault.
///
/// # Errors
///
/// `Failed` where the sink failed. Then a front of the line was written, and maybe nothing.
pub fn put_fault<O: Sink>(sink: &mut O, fault: &Fault) -> Result<(), Failed>
    ensures all { OnOk result
        (Appends (O.seen sink.old).written (O.seen sink.new).written (fault_text fault.now)) }
    ensures front { OnErr result
        (AppendsFront (O.seen sink.old).written (O.seen sink.new).written (fault_text fault.now)) }
    ensures cause { HasCause (O.seen sink.old).faults (O.seen sink.new).faults result }
{
    match *fault {
        Fault::Words => put_pieces(sink, &[b"powerlift: bad words\n"]),
        Fault::NotAStep => put_pieces(sink, &[b"powerlift: not a step\n"]),
        Fault::Input {
            file,
            line,
            column,
            kind,
        } => put_input_fault(sink, file, line, column, kind),
        Fault::TooLong(file) => put_pieces(
            sink,
            &[b"powerlift: ", role_bytes(file), b": too long\n"],
        ),
        Fault::Read(file) => put_pieces(
            sink,
            &[b"powerlift: cannot read ", role_bytes(file), b"\n"],
        ),
        Fault::Write => put_pieces(sink, &[b"powerlift: cannot write\n"]),
        Fault::Memory => put_pieces(sink, &[b"powerlift: out of memory\n"]),
    }
}

/// Writes `powerlift: FILE:LINE:COLUMN: KIND`, and the line's end.
fn put_input_fault<O: Sink>(
    sink: &mut O,
    file: FileRole,
    line: u32,
    column: u32,
    kind: FaultKind,
) -> Result<(), Failed>
    ensures all { OnOk result
        (Appends (O.seen sink.old).written (O.seen sink.new).written
        (fault_text (fault.Input file line column kind))) }
    ensures front { OnErr result
        (AppendsFront (O.seen sink.old).written (O.seen sink.new).written
        (fault_text (fault.Input file line column kind))) }
    ensures cause { HasCause (O.seen sink.old).faults (O.seen sink.new).faults result }
{
    let mut line_digits = Buffer::new();
    let mut column_digits = Buffer::new();
    put_pieces(
        sink,
        &[
            b"powerlift: ",
            role_bytes(file),
            b":",
            line_digits.format(line).as_bytes(),
            b":",
            column_digits.format(column).as_bytes(),
            b": ",
            kind_bytes(kind),
            b"\n",
        ],
    )
}

/// How a file is called.
fn role_bytes(role: FileRole) -> &'static [u8]
    ensures { result.now ≡ role_text role }
{
    match role {
        FileRole::Domain => b"domain",
        FileRole::Problem => b"problem",
        FileRole::Plan => b"plan",
    }
}

/// How a kind of fault is printed.
fn kind_bytes(kind: FaultKind) -> &'static [u8]
    ensures { result.now ≡ kind_text kind }
{
    match kind {
        FaultKind::BadByte => b"bad byte",
        FaultKind::StrayClose => b"stray bracket",
        FaultKind::TooDeep => b"too deep",
        FaultKind::Unclosed => b"unclosed bracket",
        FaultKind::NotOneForm => b"not one form",
        FaultKind::BadForm => b"bad form",
        FaultKind::Unsupported => b"unsupported",
        FaultKind::Duplicate => b"duplicate",
        FaultKind::UnknownType => b"unknown type",
        FaultKind::UnknownPredicate => b"unknown predicate",
        FaultKind::UnknownName => b"unknown name",
        FaultKind::WrongArity => b"wrong arity",
        FaultKind::TooMany => b"too many",
    }
}
