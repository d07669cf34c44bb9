//! A sink that takes everything.

use crate::error::Failed;
use crate::sink::Sink;

/// A sink that takes each piece whole and keeps none of it. It tells nothing, and no call fails.
#[derive(Clone, Copy, Debug)]
pub struct SureSink;

impl SureSink {
    ghost use Rattle.std.specs.Prelude.{◌≡◌};
    ghost use Rattle.pl_io.specs.SureSink.{sure_seen, seen_of};

    /// The sink.
    pub fn new() -> SureSink
        ensures { seen_of result ≡ sure_seen }
    {
        SureSink
    }
}

impl Sink for SureSink {
    ghost use Rattle.std.specs.Prelude.{◌≡◌, ◌<◌, length, Ok, OnOk, None};
    ghost use Rattle.std.specs.Result.{result_unwrap_or};
    ghost use Rattle.std.specs.Io.{WritesAtMost};
    ghost use Rattle.std.specs.Io.KnownBytes.{WriteAppends};
    ghost use Rattle.pl_io.specs.Outside.{HasCause, SameTelling};
    ghost use Rattle.pl_io.specs.SureSink.{seen_of};

    ghost seen = { seen_of };

    /// Takes the whole piece.
    fn write(&mut self, piece: &[u8]) -> Result<usize, Failed>
        ensures within { WritesAtMost result piece.now }
        ensures empty { length piece.now ≡ 0 → (result ≡ Ok 0) × (self.new ≡ self.old) }
        ensures some { 0 < length piece.now → OnOk result (0 < result_unwrap_or result 0) }
        ensures cause { HasCause 0 0 result }

        ensures whole { result ≡ Ok (length piece.now) }
    {
        Ok(piece.len())
    }
}
