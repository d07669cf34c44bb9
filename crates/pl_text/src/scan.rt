//! What a byte begins, and where a word or a comment ends.

ghost use Rattle.std.specs.Prelude.{◌≡◌, ◌+◌, ◌≤◌, drop, length};
ghost use Rattle.pl_text.specs.Bytes.{is_word_byte};
ghost use Rattle.pl_text.specs.Tokens.{run_length};
ghost use Rattle.pl_text.specs.Scan.{line_length, IsOfKind};

/// What a byte outside comments begins.
#[derive(Clone, Copy)]
pub(crate) enum Kind {
    Open,
    Close,
    Comment,
    Word,
    Blank,
    Bad,
}

/// The kind of a byte.
#[inline]
pub(crate) fn kind_of(b: u8) -> Kind
    ensures { IsOfKind b result }
{
    match b {
        b'(' => Kind::Open,
        b')' => Kind::Close,
        b';' => Kind::Comment,
        b'!'..=b'~' => Kind::Word,
        9..=13 | b' ' => Kind::Blank,
        _ => Kind::Bad,
    }
}

/// Whether the byte may stand in a word.
#[inline]
fn is_of_word(b: u8) -> bool
    ensures { result ≡ is_word_byte b }
{
    b >= b'!' && b <= b'~' && b != b'(' && b != b')' && b != b';'
}

/// One past the last word byte of the run that begins at `from`.
pub(crate) fn word_end(bytes: &[u8], from: usize) -> usize
    requires { from ≤ length bytes.now }
    ensures run { result ≡ from + run_length (drop from bytes.now) }
    ensures within { result ≤ length bytes.now }
{
    let mut end = from;
    while end < bytes.len() && is_of_word(bytes[end]) {
        end += 1;
    }
    end
}

/// The first end of line at or after `from`, or the end of the file.
pub(crate) fn line_end(bytes: &[u8], from: usize) -> usize
    requires { from ≤ length bytes.now }
    ensures line { result ≡ from + line_length (drop from bytes.now) }
    ensures within { result ≤ length bytes.now }
{
    let mut end = from;
    while end < bytes.len() && bytes[end] != b'\n' {
        end += 1;
    }
    end
}
