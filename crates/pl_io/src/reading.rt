//! Reads a file from a shelf to its end.

ghost use Rattle.std.specs.Prelude.{◌≡◌, ◌+◌, ◌<◌, ◌≤◌, ◌↔◌, [], ◌∷◌, length, take, drop, IfOk, IfSome};
ghost use Rattle.std.specs.Prelude.{IsErrOf, IsSome, vec_len};
ghost use Rattle.std.specs.Result.{result_unwrap_or};
ghost use Rattle.std.specs.Io.KnownBytes.{Consumes, IsAtEnd};
ghost use Rattle.pl_io.specs.Outside.{IsMissing, IsAtHand, IsWholeFile, IsLongerThan, IsAnswerToAbsence};
ghost use Rattle.pl_io.specs.Outside.{LeavesCurrent, BegunThen, Rose, left_in, most_file_bytes};

use crate::error::ReadEnd;
use crate::shelf::Shelf;
use std::alloc::Global;

/// The most bytes that are read of a file: 16 MiB.
pub const MAX_FILE_BYTES: usize = 16_777_216;

/// How many bytes are asked of the shelf at a time.
const PIECE_BYTES: usize = 65_536;

/// The bytes of the file of that name, which becomes the shelf's file at hand.
///
/// The bytes are read straight into the answer, at most 65,536 at a time. It has room for 65,537 bytes at
/// first, and doubles its room where it must.
///
/// # Errors
///
/// `Missing` where the shelf knows that it has no such file; then no file is at hand. `ReadFault` where the
/// shelf failed; then this file is at hand, or none. `TooLong` once more than `MAX_FILE_BYTES` bytes were
/// given, and `Memory` at any time after the file was found; then this file is at hand.
pub fn read_whole<S: Shelf>(alloc: Global, shelf: &mut S, name: &str) -> Result<Vec<u8>, ReadEnd>
    ensures whole { IfOk result (λ bytes. IsWholeFile (S.seen shelf.old).files name.now bytes.items) }
    ensures within { IfOk result (λ bytes. vec_len bytes ≤ most_file_bytes) }
    ensures given { IfOk result (λ bytes. (S.seen shelf.new).place ≡ vec_len bytes) }

    ensures missing { IsErrOf result ReadEnd.Missing → IsMissing (S.seen shelf.old).files name.now }
    ensures absent { IsMissing (S.seen shelf.old).files name.now → IsAnswerToAbsence result }
    ensures fault { IsErrOf result ReadEnd.ReadFault →
        Rose (S.seen shelf.old).faults (S.seen shelf.new).faults }
    ensures too_long { IsErrOf result ReadEnd.TooLong ↔ ((S.seen shelf.new).place ≡ most_file_bytes + 1) }
    ensures longer { IsErrOf result ReadEnd.TooLong →
        IsLongerThan most_file_bytes (S.seen shelf.old).files name.now }

    ensures files { (S.seen shelf.new).files ≡ (S.seen shelf.old).files }
    ensures begun { BegunThen (S.seen shelf.old).begun (name.now ∷ []) (S.seen shelf.new).begun }
    ensures current { LeavesCurrent (S.seen shelf.old).files name.now (S.seen shelf.new).current result }
    ensures later { (S.seen shelf.old).faults ≤ (S.seen shelf.new).faults }
{
    match shelf.begin(name) {
        Ok(true) => {}
        Ok(false) => return Err(ReadEnd::Missing),
        Err(_) => return Err(ReadEnd::ReadFault),
    }
    // Doubled eight times, this has room for the longest file and the byte that shows its end.
    let mut bytes = Vec::with_capacity(alloc, PIECE_BYTES + 1).map_err(ReadEnd::Memory)?;
    let mut filled = 0;
    loop {
        let count = read_piece(shelf, &mut bytes, filled)?;
        if count == 0 {
            bytes.truncate(filled);
            return Ok(bytes);
        }
        filled += count;
    }
}

/// Reads into `bytes` past the first `filled` of them, and says how many bytes were given.
fn read_piece<S: Shelf>(shelf: &mut S, bytes: &mut Vec<u8>, filled: usize) -> Result<usize, ReadEnd>
    requires at_hand { IsSome (S.seen shelf.old).current }
    requires place { (S.seen shelf.old).place ≡ filled }
    requires held { filled ≤ vec_len bytes.old }
    requires within { filled ≤ most_file_bytes }
    ensures kept { take filled bytes.new.items ≡ take filled bytes.old.items }
    ensures held { filled + result_unwrap_or result 0 ≤ vec_len bytes.new }

    ensures given { IfOk result (λ n. Consumes
        (left_in (S.seen shelf.old))
        (left_in (S.seen shelf.new))
        (take n (drop filled bytes.new.items))) }
    ensures end { IfOk result (λ n. n ≡ 0 →
        IsAtEnd (left_in (S.seen shelf.new))) }
    ensures within { IfOk result (λ n. filled + n ≤ most_file_bytes) }
    ensures place { IfOk result (λ n. (S.seen shelf.new).place ≡ filled + n) }

    ensures found { IsErrOf result ReadEnd.Missing → ⊥ }
    ensures fault { IsErrOf result ReadEnd.ReadFault →
        Rose (S.seen shelf.old).faults (S.seen shelf.new).faults }
    ensures too_long { IsErrOf result ReadEnd.TooLong ↔ ((S.seen shelf.new).place ≡ most_file_bytes + 1) }
    ensures longer { IsErrOf result ReadEnd.TooLong → IfSome
        (left_in (S.seen shelf.old))
        (λ left. most_file_bytes < filled + length left) }

    ensures files { (S.seen shelf.new).files ≡ (S.seen shelf.old).files }
    ensures begun { (S.seen shelf.new).begun ≡ (S.seen shelf.old).begun }
    ensures current { (S.seen shelf.new).current ≡ (S.seen shelf.old).current }
    ensures later { (S.seen shelf.old).faults ≤ (S.seen shelf.new).faults }
{
    let end = (filled + PIECE_BYTES).min(MAX_FILE_BYTES + 1);
    bytes.resize(end, 0).map_err(ReadEnd::Memory)?;
    let count = shelf
        .read(&mut bytes[filled..])
        .map_err(|_| ReadEnd::ReadFault)?;
    if filled + count > MAX_FILE_BYTES {
        return Err(ReadEnd::TooLong);
    }
    Ok(count)
}
