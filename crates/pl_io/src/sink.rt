//! A place that bytes are written to.

ghost use Rattle.std.specs.Prelude.{◌≡◌, ◌<◌, length, Ok, OnOk};
ghost use Rattle.std.specs.Result.{result_unwrap_or};
ghost use Rattle.std.specs.Io.{WritesAtMost};
ghost use Rattle.std.specs.Io.KnownBytes.{WriteAppends};
ghost use Rattle.pl_io.specs.Outside.{SinkSeen, HasCause, SameTelling};

use crate::error::Failed;

/// A place that bytes are written to, each after all that were written before.
pub trait Sink {
    /// What the sink tells of itself: the bytes that were written, and how many calls failed.
    ghost seen: { Self → SinkSeen };

    /// Takes bytes from the front of `piece`, and says how many: at least one, where there is one.
    ///
    /// An empty piece is answered by 0, and the sink stays as it was. After a failure nothing was written.
    fn write(&mut self, piece: &[u8]) -> Result<usize, Failed>
        ensures within { WritesAtMost result piece.now }
        ensures empty { length piece.now ≡ 0 → (result ≡ Ok 0) × (self.new ≡ self.old) }
        ensures some { 0 < length piece.now → OnOk result (0 < result_unwrap_or result 0) }
        ensures bytes { WriteAppends (seen self.old).written (seen self.new).written result piece.now }
        ensures told { SameTelling (seen self.old).written (seen self.new).written }
        ensures cause { HasCause (seen self.old).faults (seen self.new).faults result };
}
