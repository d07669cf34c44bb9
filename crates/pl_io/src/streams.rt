//! Sinks over the standard streams of the process.

use crate::error::Failed;
use crate::sink::Sink;
use crate::tries::{counted, write};
use std::io::{Stderr, Stdout};

/// Standard output. It tells nothing of what was written.
///
/// Each write is sent on at once. A call that is interrupted is made up to 1,000 times before it counts as a
/// fault.
#[derive(Drop)]
pub struct OutSink {
    stream: Stdout,
    faults: u64,
}

impl OutSink {
    ghost use Rattle.std.specs.Prelude.{◌≡◌};
    ghost use Rattle.pl_io.specs.Streams.{out_faults};

    /// The standard output of `runtime`, which is the one that `main` is given.
    pub fn new(runtime: &HostRuntime) -> OutSink
        ensures { out_faults result ≡ 0 }
    {
        OutSink {
            stream: runtime.stdout(),
            faults: 0,
        }
    }
}

impl Sink for OutSink {
    ghost use Rattle.std.specs.Prelude.{◌≡◌, ◌<◌, length, Ok, OnOk};
    ghost use Rattle.std.specs.Result.{result_unwrap_or};
    ghost use Rattle.std.specs.Io.{WritesAtMost};
    ghost use Rattle.pl_io.specs.Outside.{HasCause, faults_after};
    ghost use Rattle.pl_io.specs.Streams.{out_seen, out_faults};

    ghost seen = { out_seen };

    /// It counts a fault exactly where it fails.
    fn write(&mut self, piece: &[u8]) -> Result<usize, Failed>
        ensures within { WritesAtMost result piece.now }
        ensures empty { length piece.now ≡ 0 → (result ≡ Ok 0) × (self.new ≡ self.old) }
        ensures some { 0 < length piece.now → OnOk result (0 < result_unwrap_or result 0) }
        ensures cause { HasCause (out_faults self.old) (out_faults self.new) result }
        ensures counts { out_faults self.new ≡ faults_after (out_faults self.old) result }
    {
        if piece.is_empty() {
            return Ok(0);
        }
        counted(&mut self.faults, write(&mut self.stream, piece))
    }
}

/// Standard error. It tells nothing of what was written.
///
/// Each write is sent on at once. A call that is interrupted is made up to 1,000 times before it counts as a
/// fault.
#[derive(Drop)]
pub struct ErrSink {
    stream: Stderr,
    faults: u64,
}

impl ErrSink {
    ghost use Rattle.std.specs.Prelude.{◌≡◌};
    ghost use Rattle.pl_io.specs.Streams.{err_faults};

    /// The standard error of `runtime`, which is the one that `main` is given.
    pub fn new(runtime: &HostRuntime) -> ErrSink
        ensures { err_faults result ≡ 0 }
    {
        ErrSink {
            stream: runtime.stderr(),
            faults: 0,
        }
    }
}

impl Sink for ErrSink {
    ghost use Rattle.std.specs.Prelude.{◌≡◌, ◌<◌, length, Ok, OnOk};
    ghost use Rattle.std.specs.Result.{result_unwrap_or};
    ghost use Rattle.std.specs.Io.{WritesAtMost};
    ghost use Rattle.pl_io.specs.Outside.{HasCause, faults_after};
    ghost use Rattle.pl_io.specs.Streams.{err_seen, err_faults};

    ghost seen = { err_seen };

    /// It counts a fault exactly where it fails.
    fn write(&mut self, piece: &[u8]) -> Result<usize, Failed>
        ensures within { WritesAtMost result piece.now }
        ensures empty { length piece.now ≡ 0 → (result ≡ Ok 0) × (self.new ≡ self.old) }
        ensures some { 0 < length piece.now → OnOk result (0 < result_unwrap_or result 0) }
        ensures cause { HasCause (err_faults self.old) (err_faults self.new) result }
        ensures counts { err_faults self.new ≡ faults_after (err_faults self.old) result }
    {
        if piece.is_empty() {
            return Ok(0);
        }
        counted(&mut self.faults, write(&mut self.stream, piece))
    }
}
