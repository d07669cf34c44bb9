//! Output that is gathered into blocks, so that a short text costs no call of the sink.

ghost use Rattle.std.specs.Prelude.{◌≤◌, vec_len, vec_capacity};

use crate::error::Failed;
use crate::putting::put_all;
use crate::sink::Sink;
use std::alloc::{AllocError, Global};

/// How many bytes a block has.
const BLOCK_BYTES: usize = 65_536;

/// Bytes on their way to a sink, held back until they fill a block of 65,536.
///
/// `new` takes all the memory. Each call is given the sink, which is to be the same one each time. What is
/// still held back at the end is written by `finish`.
#[derive(Drop)]
pub struct Blocks {
    held: Vec<u8>,
    ghost within: { vec_len held ≤ 65536 },
    ghost reserved: { 65536 ≤ vec_capacity held },
}

impl Blocks {
    ghost use Rattle.std.specs.Prelude.{◌≡◌, ◌+◌, ◌++◌, [], length, Ok, IfOk, OnOk, OnErr};
    ghost use Rattle.std.specs.Io.KnownBytes.{Appends};
    ghost use Rattle.pl_io.specs.Outside.{AppendsFront, HasCause, joined};
    ghost use Rattle.pl_io.specs.Blocks.{SendsOn, block_bytes, held_of};

    /// With memory for a block, and nothing held back.
    pub fn new(alloc: Global) -> Result<Blocks, AllocError>
        ensures { IfOk result (λ blocks. held_of blocks ≡ []) }
    {
        let held = Vec::with_capacity(alloc, BLOCK_BYTES)?;
        Ok(Blocks { held })
    }

    /// Takes the piece: holds it back where it fits, and else first fills the block and writes that.
    ///
    /// # Errors
    ///
    /// `Failed` where the sink failed. Then a front of what was held back and the piece was written, the rest
    /// is lost, and nothing is held back.
    pub fn put<O: Sink>(&mut self, sink: &mut O, piece: &[u8]) -> Result<(), Failed>
        ensures all { OnOk result (SendsOn (O.seen sink.old).written (O.seen sink.new).written
            (held_of self.old) piece.now (held_of self.new)) }
        ensures front { OnErr result (AppendsFront (O.seen sink.old).written (O.seen sink.new).written
            (held_of self.old ++ piece.now)) }
        ensures lost { OnErr result (held_of self.new ≡ []) }
        // A piece that fits into the block costs no call of the sink.
        ensures waits { length (held_of self.old) + length piece.now ≤ block_bytes →
            (result ≡ Ok tt) × (sink.new ≡ sink.old) }
        ensures cause { HasCause (O.seen sink.old).faults (O.seen sink.new).faults result }
    {
        let room = BLOCK_BYTES - self.held.len();
        if piece.len() <= room {
            self.hold(piece);
            return Ok(());
        }
        let (front, rest) = piece.split_at(room);
        self.hold(front);
        self.finish(sink)?;
        if rest.len() < BLOCK_BYTES {
            self.hold(rest);
            return Ok(());
        }
        put_all(sink, rest)?;
        Ok(())
    }

    /// Takes the pieces, in turn.
    ///
    /// # Errors
    ///
    /// As `put`, of the joined pieces.
    pub fn put_pieces<O: Sink>(&mut self, sink: &mut O, pieces: &[&[u8]]) -> Result<(), Failed>
        ensures all { OnOk result (SendsOn (O.seen sink.old).written (O.seen sink.new).written
            (held_of self.old) (joined pieces.now) (held_of self.new)) }
        ensures front { OnErr result (AppendsFront (O.seen sink.old).written (O.seen sink.new).written
            (held_of self.old ++ joined pieces.now)) }
        ensures lost { OnErr result (held_of self.new ≡ []) }
        ensures cause { HasCause (O.seen sink.old).faults (O.seen sink.new).faults result }
    {
        for piece in pieces {
            self.put(sink, piece)?;
        }
        Ok(())
    }

    /// Writes what is held back. Afterwards nothing is.
    ///
    /// # Errors
    ///
    /// `Failed` where the sink failed. Then a front of what was held back was written, and the rest is lost.
    pub fn finish<O: Sink>(&mut self, sink: &mut O) -> Result<(), Failed>
        ensures all { OnOk result
            (Appends (O.seen sink.old).written (O.seen sink.new).written (held_of self.old)) }
        ensures front { OnErr result
            (AppendsFront (O.seen sink.old).written (O.seen sink.new).written (held_of self.old)) }
        ensures none { held_of self.new ≡ [] }
        ensures cause { HasCause (O.seen sink.old).faults (O.seen sink.new).faults result }
    {
        let sent = put_all(sink, self.held.as_slice());
        self.held.clear();
        sent
    }

    /// Holds the bytes back.
    fn hold(&mut self, bytes: &[u8])
        requires fits { vec_len self.old.held + length bytes.now ≤ 65536 }
        ensures { held_of self.new ≡ held_of self.old ++ bytes.now }
    {
        // There is room: it was taken when the value was made.
        self.held.extend_from_slice(bytes).unwrap();
    }
}
