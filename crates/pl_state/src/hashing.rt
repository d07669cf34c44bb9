//! Feeding the words of a state to a hasher.

ghost use Rattle.std.specs.Prelude.{◌≡◌, ◌≤◌, length, drop};
ghost use Rattle.std.specs.List.{fold};
ghost use Rattle.pl_state.specs.Feeding.{four_words as four_words_of, fed_fours, fed_words};

use std::hash::{Hash, Hasher};

/// Feeds the number of the words, then the words, four in one write: a hasher takes 16 bytes in about the
/// time of one word.
#[inline]
pub fn feed<H: Hasher>(words: &[u32], state: &mut H)
    ensures { state.new ≡ fold H.write state.old (fed_words words.now) }
{
    state.write_usize(words.len());
    feed_fours(words, state);
}

/// Feeds four words at a time, then those that are left.
#[inline]
fn feed_fours<H: Hasher>(words: &[u32], state: &mut H)
    ensures { state.new ≡ fold H.write state.old (fed_fours words.now) }
{
    let mut left = words;
    while left.len() >= 4 {
        state.write_u128(four_words(left[0], left[1], left[2], left[3]));
        left = behind_four(left);
    }
    u32::hash_slice(left, state);
}

/// The words behind the first four.
#[inline]
fn behind_four(words: &[u32]) -> &[u32]
    requires { 4 ≤ length words.now }
    ensures { result.now ≡ drop 4 words.now }
{
    &words[4..]
}

/// Four words as one number, the first the lowest.
#[inline]
fn four_words(a: u32, b: u32, c: u32, d: u32) -> u128
    ensures { result ≡ four_words_of a b c d }
{
    let low = a as u128 + b as u128 * 0x1_0000_0000;
    let high = c as u128 + d as u128 * 0x1_0000_0000;
    low + high * 0x1_0000_0000_0000_0000
}
