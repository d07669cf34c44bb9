//! Words: the bytes of a span, and how they are compared.

ghost use Rattle.std.specs.Prelude.{◌≡◌, ◌≤◌, ◌↔◌, IsTrue, IfOk, MatchOption, length, slice_range};
ghost use Rattle.std.specs.List.{list_any};
ghost use Rattle.pl_text.specs.Words.{folded, is_capital};

use crate::Span;
use std::alloc::{AllocError, Global};

/// The bytes of a span of a file.
pub fn word(bytes: &[u8], span: Span) -> &[u8]
    requires order { span.from ≤ span.to }
    requires within { span.to ≤ length bytes.now }
    ensures { result.now ≡ slice_range bytes.now span.from span.to }
{
    &bytes[span.from as usize..span.to as usize]
}

/// Whether two words are the same but for the case of ASCII letters.
pub fn same_word(a: &[u8], b: &[u8]) -> bool
    ensures { IsTrue result ↔ (folded a.now ≡ folded b.now) }
{
    a.eq_ignore_ascii_case(b)
}

/// The word with its ASCII letters small, which is how names are kept and printed.
pub fn folded_word(alloc: Global, word: &[u8]) -> Result<Vec<u8>, AllocError>
    ensures { IfOk result (λ small. small.items ≡ folded word.now) }
{
    word.iter().map(|b| b.to_ascii_lowercase()).collect(alloc)
}

/// A copy of the word with its ASCII letters small, and none where they are all small already.
pub fn small_copy(alloc: Global, word: &[u8]) -> Result<Option<Vec<u8>>, AllocError>
    ensures { IfOk result (λ copy. MatchOption copy (folded word.now ≡ word.now)
        (λ small. small.items ≡ folded word.now)) }
{
    if !has_capital(word) {
        return Ok(None);
    }
    Ok(Some(folded_word(alloc, word)?))
}

/// The word with its ASCII letters small: the copy, or the word itself where none was made.
pub fn small_word<'a>(word: &'a [u8], copy: &'a Option<Vec<u8>>) -> &'a [u8]
    requires { MatchOption copy.now (folded word.now ≡ word.now) (λ small. small.items ≡ folded word.now) }
    ensures { result.now ≡ folded word.now }
{
    match copy {
        Some(small) => small.as_slice(),
        None => word,
    }
}

/// Whether the word has a capital letter.
fn has_capital(word: &[u8]) -> bool
    ensures { result ≡ list_any is_capital word.now }
{
    let mut found = false;
    for b in word {
        found |= b.is_ascii_uppercase();
    }
    found
}
