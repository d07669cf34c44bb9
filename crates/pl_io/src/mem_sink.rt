//! A sink in memory, for tests: what was written is told, and its failures are chosen.

ghost use Rattle.std.specs.Prelude.{◌≤◌, vec_len, vec_capacity};

use crate::error::Failed;
use crate::numbered::Numbered;
use crate::sink::Sink;
use std::alloc::{AllocError, Global};

/// A sink that keeps what is written to it, up to its room, and fails at the calls that it is told to fail
/// at.
///
/// Calls of `write` are numbered from 1; one with an empty piece is not.
#[derive(Drop)]
pub struct MemSink {
    bytes: Vec<u8>,
    room: usize,
    numbered: Numbered,
    piece: usize,
    faults: u64,
    ghost some: { 1 ≤ piece },
    ghost within: { vec_len bytes ≤ room },
    ghost reserved: { room ≤ vec_capacity bytes },
}

impl MemSink {
    ghost use Rattle.std.specs.Prelude.{◌≡◌, [], IfOk};
    ghost use Rattle.pl_io.specs.MemSink.{written_of, faults_of, calls_of, failing_of, piece_of, room_of};

    /// A sink with memory for `room` bytes: a later write takes none.
    ///
    /// The calls whose numbers are in `failing` fail, and a call takes at most `piece` bytes.
    pub fn new(
        alloc: Global,
        room: usize,
        failing: Vec<u64>,
        piece: usize,
    ) -> Result<MemSink, AllocError>
        requires { 1 ≤ piece }
        ensures written { IfOk result (λ sink. written_of sink ≡ []) }
        ensures room { IfOk result (λ sink. room_of sink ≡ room) }
        ensures failing { IfOk result (λ sink. failing_of sink ≡ failing.items) }
        ensures piece { IfOk result (λ sink. piece_of sink ≡ piece) }
        ensures calls { IfOk result (λ sink. calls_of sink ≡ 0) }
        ensures faults { IfOk result (λ sink. faults_of sink ≡ 0) }
    {
        let bytes = Vec::with_capacity(alloc, room)?;
        Ok(MemSink {
            bytes,
            room,
            numbered: Numbered::new(failing),
            piece,
            faults: 0,
        })
    }

    /// What was written so far.
    pub fn written(&self) -> &[u8]
        ensures { result.now ≡ written_of self.now }
    {
        self.bytes.as_slice()
    }
}

impl Sink for MemSink {
    ghost use Rattle.std.specs.Prelude.{◌≡◌, ◌-◌, ◌<◌, ◌↔◌, ◌⊎◌, length, min, Contains, Some, Ok, IsErr};
    ghost use Rattle.std.specs.Prelude.{IfOk, OnOk};
    ghost use Rattle.std.specs.Result.{result_unwrap_or};
    ghost use Rattle.std.specs.Io.{WritesAtMost};
    ghost use Rattle.std.specs.Io.KnownBytes.{WriteAppends};
    ghost use Rattle.pl_io.specs.Outside.{HasCause, SameTelling, faults_after};
    ghost use Rattle.pl_io.specs.Numbered.{next_number};
    ghost use Rattle.pl_io.specs.MemSink.{seen_of, written_of, faults_of, calls_of, failing_of, piece_of};
    ghost use Rattle.pl_io.specs.MemSink.{room_of, SameScript};

    ghost seen = { seen_of };

    /// Of a piece with a byte it fails exactly where the call's number is among those that fail or the room
    /// is full, and else takes as many bytes as the piece has, a call takes at most and there is room left
    /// for.
    fn write(&mut self, piece: &[u8]) -> Result<usize, Failed>
        ensures within { WritesAtMost result piece.now }
        ensures empty { length piece.now ≡ 0 → (result ≡ Ok 0) × (self.new ≡ self.old) }
        ensures some { 0 < length piece.now → OnOk result (0 < result_unwrap_or result 0) }
        ensures bytes { WriteAppends (Some (written_of self.old)) (Some (written_of self.new)) result
            piece.now }
        ensures cause { HasCause (faults_of self.old) (faults_of self.new) result }

        ensures fails { 0 < length piece.now → IsErr result
            ↔ (Contains (failing_of self.old) (next_number (calls_of self.old))
            ⊎ (length (written_of self.old) ≡ room_of self.old)) }
        ensures amount { 0 < length piece.now → IfOk result (λ count. count
            ≡ min (piece_of self.old) (min (length piece.now)
            (room_of self.old - length (written_of self.old)))) }
        ensures counts { faults_of self.new ≡ faults_after (faults_of self.old) result }
        ensures calls { 0 < length piece.now → calls_of self.new ≡ next_number (calls_of self.old) }
        ensures script { SameScript self.old self.new }
    {
        if piece.is_empty() {
            return Ok(0);
        }
        if self.numbered.next_fails() || self.bytes.len() == self.room {
            self.faults = self.faults.saturating_add(1);
            return Err(Failed);
        }
        let left = self.room - self.bytes.len();
        let count = self.piece.min(piece.len().min(left));
        // There is room: it was taken when the sink was made.
        self.bytes.extend_from_slice(&piece[..count]).unwrap();
        Ok(count)
    }
}
