//! Single reads and writes of the operating system, tried again where they are interrupted.

ghost use Rattle.std.specs.Prelude.{◌≡◌, ◌<◌, IfOk, take};
ghost use Rattle.std.specs.Io.{ReadsAtMost, WritesAtMost};
ghost use Rattle.std.specs.Io.KnownBytes.{Appends, Keeps, ReadConsumes};
ghost use Rattle.pl_io.specs.Outside.{HasCause, faults_after};

use crate::error::Failed;
use std::fs::File;
use std::io::{ErrorKind, Read, Write};

/// How often a call is made that is interrupted each time.
const TRIES: u32 = 1_000;

/// The file of that name, opened for reading, or `Failed` where the system refuses.
pub fn open(runtime: &HostRuntime, name: &str) -> Result<File, Failed> {
    for _ in 0..TRIES {
        match File::open(runtime, name) {
            Ok(file) => return Ok(file),
            Err(e) if e.kind() == ErrorKind::Interrupted => {}
            Err(_) => return Err(Failed),
        }
    }
    Err(Failed)
}

/// How many bytes one read gave, or `Failed` where the system refuses.
#[tactic(auto, using(crate::proofs::Kept::kept))]
pub fn read<R: Read>(from: &mut R, buffer: &mut [u8]) -> Result<usize, Failed>
    ensures within { ReadsAtMost result buffer.new }
    ensures bytes { ReadConsumes (R.remaining from.old) (R.remaining from.new) result buffer.new }
{
    for _ in 0..TRIES {
        match from.read(buffer) {
            Ok(count) => return Ok(count),
            Err(e) if e.kind() == ErrorKind::Interrupted => {}
            Err(_) => return Err(Failed),
        }
    }
    Err(Failed)
}

/// How many bytes one write took and sent on, or `Failed` where the system refuses or takes nothing.
#[tactic(auto, using(crate::proofs::Kept::kept))]
pub fn write<W: Write>(to: &mut W, piece: &[u8]) -> Result<usize, Failed>
    ensures within { WritesAtMost result piece.now }
    ensures bytes { IfOk result (λ count. Appends (W.contents to.old) (W.contents to.new)
        (take count piece.now)) }
    ensures some { IfOk result (λ count. 0 < count) }
{
    for _ in 0..TRIES {
        match to.write(piece) {
            Ok(0) => return Err(Failed),
            Ok(count) => return if flush(to) { Ok(count) } else { Err(Failed) },
            Err(e) if e.kind() == ErrorKind::Interrupted => {}
            Err(_) => return Err(Failed),
        }
    }
    Err(Failed)
}

/// The answer, after a failure was counted.
pub fn counted<T>(faults: &mut u64, answer: Result<T, Failed>) -> Result<T, Failed>
    ensures answer { result ≡ answer }
    ensures faults { faults.new ≡ faults_after faults.old answer }
    ensures cause { HasCause faults.old faults.new answer }
{
    if answer.is_err() {
        *faults = faults.saturating_add(1);
    }
    answer
}

/// Whether what was written was sent on.
#[tactic(auto, using(crate::proofs::Kept::kept))]
fn flush<W: Write>(to: &mut W) -> bool
    ensures { Keeps (W.contents to.old) (W.contents to.new) }
{
    for _ in 0..TRIES {
        match to.flush() {
            Ok(()) => return true,
            Err(e) if e.kind() == ErrorKind::Interrupted => {}
            Err(_) => return false,
        }
    }
    false
}
