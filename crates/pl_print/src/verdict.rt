//! Verdicts.

ghost use Rattle.std.specs.Prelude.{◌≡◌, OnOk, OnErr};
ghost use Rattle.std.specs.Io.KnownBytes.{Appends};
ghost use Rattle.pl_io.specs.Outside.{AppendsFront, HasCause};
ghost use Rattle.pl_print.specs.Texts.{reason_text, verdict_text};

use itoa::Buffer;
use pl_io::{Failed, Sink, put_pieces};
use pl_valid::{Reason, Verdict};

/// Writes a verdict: `valid N`, `invalid K REASON` or `goal missed`, and a line's end.
///
/// # Errors
///
/// `Failed` where the sink failed. Then a front of the text was written, and maybe nothing.
pub fn put_verdict<O: Sink>(sink: &mut O, verdict: &Verdict) -> Result<(), Failed>
    ensures all { OnOk result
        (Appends (O.seen sink.old).written (O.seen sink.new).written (verdict_text verdict.now)) }
    ensures front { OnErr result
        (AppendsFront (O.seen sink.old).written (O.seen sink.new).written (verdict_text verdict.now)) }
    ensures cause { HasCause (O.seen sink.old).faults (O.seen sink.new).faults result }
{
    let mut digits = Buffer::new();
    match verdict {
        Verdict::Valid(steps) => {
            put_pieces(sink, &[b"valid ", digits.format(*steps).as_bytes(), b"\n"])
        }
        Verdict::Invalid { line, reason } => put_pieces(
            sink,
            &[
                b"invalid ",
                digits.format(*line).as_bytes(),
                b" ",
                reason_bytes(*reason),
                b"\n",
            ],
        ),
        Verdict::GoalMissed => put_pieces(sink, &[b"goal missed\n"]),
    }
}

/// How a reason is printed.
fn reason_bytes(reason: Reason) -> &'static [u8]
    ensures { result.now ≡ reason_text reason }
{
    match reason {
        Reason::UnknownAction => b"unknown-action",
        Reason::Arguments => b"arguments",
        Reason::UnknownObject => b"unknown-object",
        Reason::Inapplicable => b"inapplicable",
    }
}
