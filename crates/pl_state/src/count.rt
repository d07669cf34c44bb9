//! How many atoms of one predicate a state may have.

ghost use Rattle.std.specs.Prelude.{◌≡◌, ◌<◌, ◌≤◌, ◌^◌, IfOk, OnOk, OnErr};

use std::alloc::AllocError;

/// The number of rows of a part, as a word.
///
/// A set with more atoms of one predicate than a word counts has no layout, so it can't be kept: want of
/// memory.
pub fn as_word(count: usize) -> Result<u32, AllocError>
    ensures value { IfOk result (λ word. word ≡ count) }
    ensures fits { OnOk result (count < 2 ^ 32) }
    ensures err { OnErr result (2 ^ 32 ≤ count) }
{
    if count > u32::MAX as usize {
        return Err(AllocError);
    }
    Ok(count as u32)
}
