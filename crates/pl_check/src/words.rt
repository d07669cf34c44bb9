//! The kinds of words.

ghost use Rattle.std.specs.Prelude.{◌≡◌, bytes_eq};
ghost use Rattle.std.specs.List.{list_any};
ghost use Rattle.pl_names.specs.Names.{texts};
ghost use Rattle.pl_check.specs.Words as spec;

/// The words that no predicate has as its name: the words of conditions, effects and costs of PDDL.
const RESERVED: [&[u8]; 18] = [
    b"and",
    b"or",
    b"not",
    b"imply",
    b"forall",
    b"exists",
    b"when",
    b"preference",
    b"=",
    b"<",
    b">",
    b"<=",
    b">=",
    b"increase",
    b"decrease",
    b"assign",
    b"scale-up",
    b"scale-down",
];

/// Whether a word is a variable: `?` and at least one further byte.
#[tactic(auto, unfolding(crate::specs::Words::is_variable))]
pub fn is_variable(word: &[u8]) -> bool
    ensures { result ≡ spec.is_variable word.now }
{
    match word {
        [] | [_] => false,
        [first, _, ..] => *first == b'?',
    }
}

/// Whether a word is a key, which begins with `:`.
#[tactic(auto, unfolding(crate::specs::Words::is_key))]
pub fn is_key(word: &[u8]) -> bool
    ensures { result ≡ spec.is_key word.now }
{
    match word {
        [] => false,
        [first, ..] => *first == b':',
    }
}

/// Whether a word is a name: it begins with neither `?` nor `:`, and isn't `-`.
#[tactic(auto, unfolding(crate::specs::Words::is_name))]
pub fn is_name(word: &[u8]) -> bool
    ensures { result ≡ spec.is_name word.now }
{
    match word {
        [] => false,
        [first, ..] => *first != b'?' && *first != b':' && word != b"-".as_slice(),
    }
}

/// Whether a word is one that no predicate has as its name.
#[tactic(auto, unfolding(crate::specs::Words::is_reserved))]
pub fn is_reserved(word: &[u8]) -> bool
    ensures { result ≡ spec.is_reserved word.now }
{
    is_among(&RESERVED, word)
}

/// Whether a word is the name of a predicate.
#[tactic(auto, unfolding(crate::specs::Words::is_predicate_name))]
pub fn is_predicate_name(word: &[u8]) -> bool
    ensures { result ≡ spec.is_predicate_name word.now }
{
    is_name(word) && !is_reserved(word)
}

/// Whether a word is one of these.
#[tactic(auto, using(crate::proofs::WordLemmas::any_texts))]
pub fn is_among(words: &[&[u8]], word: &[u8]) -> bool
    ensures { result ≡ list_any (bytes_eq word.now) (texts words.now) }
{
    is_one_of(words, word)
}

/// The same, said of the borrowed words.
fn is_one_of(words: &[&[u8]], word: &[u8]) -> bool
    ensures { result ≡ list_any (λ w. bytes_eq word.now w.now) words.now }
{
    words.iter().any(|w| word == *w)
}
