//! Writes bytes to a sink to their end.

ghost use Rattle.std.specs.Prelude.{◌≡◌, Ok, OnOk, OnErr, length};
ghost use Rattle.std.specs.Io.KnownBytes.{Appends};
ghost use Rattle.pl_io.specs.Outside.{AppendsFront, HasCause, SameTelling, joined};

use crate::error::Failed;
use crate::sink::Sink;

/// Writes all the bytes, in as many calls as the sink wants.
///
/// # Errors
///
/// `Failed` where the sink failed. Then a front of the bytes was written, and maybe nothing.
pub fn put_all<O: Sink>(sink: &mut O, bytes: &[u8]) -> Result<(), Failed>
    ensures all { OnOk result (Appends (O.seen sink.old).written (O.seen sink.new).written bytes.now) }
    ensures front { OnErr result (AppendsFront (O.seen sink.old).written
        (O.seen sink.new).written bytes.now) }
    ensures empty { length bytes.now ≡ 0 → (result ≡ Ok tt) × (sink.new ≡ sink.old) }
    ensures told { SameTelling (O.seen sink.old).written (O.seen sink.new).written }
    ensures cause { HasCause (O.seen sink.old).faults (O.seen sink.new).faults result }
{
    let mut done = 0;
    while done < bytes.len() {
        done += sink.write(&bytes[done..])?;
    }
    Ok(())
}

/// Writes all the bytes of the pieces, in turn.
///
/// # Errors
///
/// `Failed` where the sink failed. Then a front of the joined bytes was written, and maybe nothing.
pub fn put_pieces<O: Sink>(sink: &mut O, pieces: &[&[u8]]) -> Result<(), Failed>
    ensures all { OnOk result (Appends (O.seen sink.old).written
        (O.seen sink.new).written (joined pieces.now)) }
    ensures front { OnErr result (AppendsFront (O.seen sink.old).written
        (O.seen sink.new).written (joined pieces.now)) }
    ensures empty { length (joined pieces.now) ≡ 0 → (result ≡ Ok tt) × (sink.new ≡ sink.old) }
    ensures told { SameTelling (O.seen sink.old).written (O.seen sink.new).written }
    ensures cause { HasCause (O.seen sink.old).faults (O.seen sink.new).faults result }
{
    for piece in pieces {
        put_all(sink, piece)?;
    }
    Ok(())
}
