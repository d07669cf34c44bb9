//! What a search has counted.

ghost use Rattle.std.specs.Prelude.{OnOk, OnErr};
ghost use Rattle.std.specs.Io.KnownBytes.{Appends};
ghost use Rattle.pl_io.specs.Outside.{AppendsFront, HasCause};
ghost use Rattle.pl_print.specs.Texts.{stats_text};

use itoa::Buffer;
use pl_io::{Failed, Sink, put_pieces};
use pl_registry::Stats;

/// Writes `; states S`, `; expanded E` and `; generated G`, each on a line of its own.
///
/// # Errors
///
/// `Failed` where the sink failed. Then a front of the text was written, and maybe nothing.
pub fn put_stats<O: Sink>(sink: &mut O, stats: &Stats) -> Result<(), Failed>
    ensures all { OnOk result
        (Appends (O.seen sink.old).written (O.seen sink.new).written (stats_text stats.now)) }
    ensures front { OnErr result
        (AppendsFront (O.seen sink.old).written (O.seen sink.new).written (stats_text stats.now)) }
    ensures cause { HasCause (O.seen sink.old).faults (O.seen sink.new).faults result }
{
    let mut states = Buffer::new();
    let mut expanded = Buffer::new();
    let mut generated = Buffer::new();
    put_pieces(
        sink,
        &[
            b"; states ",
            states.format(stats.states).as_bytes(),
            b"\n; expanded ",
            expanded.format(stats.expanded).as_bytes(),
            b"\n; generated ",
            generated.format(stats.generated).as_bytes(),
            b"\n",
        ],
    )
}
