//! The request of the words after `make`.

ghost use Rattle.std.specs.Prelude.{◌≡◌, ◌<◌, Option, Some, length, drop};
ghost use Rattle.std.specs.Option.{option_map};
ghost use Rattle.pl_top.specs.Request as spec;
ghost use Rattle.pl_top.specs.Asked.{named};

use crate::request::{Request, count};
use crate::words::Words;
use itoa::Buffer;
use pl_make::Kind;

/// The request of the words after `make`.
pub fn make_of(words: &Words) -> Option<Request<'_>>
    requires { 0 < length words.now }
    ensures { option_map named result ≡ spec.make_of (drop 1 words.now) }
{
    if words.len() != 4 {
        return None;
    }
    made_of(words.word(1), words.word(2), words.word(3))
}

/// The request for a kind, a size and a start, where each word is one.
fn made_of<'w>(kind: &str, size: &str, start: &str) -> Option<Request<'w>>
    ensures { option_map named result ≡ spec.made_of (spec.kind_of kind.now) size.now start.now }
{
    let kind = kind_of(kind)?;
    let n = size_within(kind, count(size))?;
    let start = start_of(start)?;
    Some(Request::Make { kind, n, start })
}

/// The kind that a word names.
fn kind_of(word: &str) -> Option<Kind>
    ensures { result ≡ spec.kind_of word.now }
{
    if word == "hop" {
        return Some(Kind::Hop);
    }
    if word == "wide" {
        return Some(Kind::Wide);
    }
    None
}

/// The number, where a task of the kind is made in this size.
fn size_within(kind: Kind, number: Option<u32>) -> Option<u32>
    ensures { result ≡ spec.size_within kind number }
{
    let n = number?;
    if is_size(kind, n) {
        return Some(n);
    }
    None
}

/// Whether a task of the kind is made in this size.
fn is_size(kind: Kind, n: u32) -> bool
    ensures { result ≡ spec.is_size kind n }
{
    match kind {
        Kind::Hop => 1 <= n && n <= 1000,
        Kind::Wide => 1 <= n && n <= 100,
    }
}

/// The number of 64 bits of which the word is the decimal text, without leading zeros.
fn start_of(word: &str) -> Option<u64>
    ensures { result ≡ spec.start_of word.now }
{
    let Ok(number) = word.parse::<u64>() else {
        return None;
    };
    let mut digits = Buffer::new();
    if digits.format(number) != word {
        return None;
    }
    Some(number)
}
