//! What a list begins with.

ghost use Rattle.std.specs.Prelude.{◌≡◌};
ghost use Rattle.pl_check.specs.Conditions.{is_connective, is_basic};
ghost use Rattle.pl_check.specs.Elements.{trees};
ghost use Rattle.pl_check.specs.Terms.{head_of, head_by};

use crate::source::word;
use crate::words::{is_name, is_reserved};
use pl_text::Form;

/// The first element of a list, as conditions and effects tell it.
#[derive(Clone, Copy, Debug, PartialEq, Eq)]
pub enum Head {
    /// There is none.
    Nothing,
    /// A form that isn't a name.
    NoName,
    /// The word `and`.
    And,
    /// The word `not`.
    Not,
    /// The word `=`.
    Equals,
    /// Another reserved word.
    Reserved,
    /// Any other name.
    Name,
}

impl Head {
    /// Whether conditions stand after this head, or one negated condition.
    #[tactic(auto, unfolding(crate::specs::Conditions::is_connective))]
    pub fn is_connective(self) -> bool
        ensures { result ≡ is_connective self }
    {
        match self {
            Head::Nothing => false,
            Head::NoName => false,
            Head::And => true,
            Head::Not => true,
            Head::Equals => false,
            Head::Reserved => false,
            Head::Name => false,
        }
    }

    /// Whether this is the head of an atom or an equality.
    #[tactic(auto, unfolding(crate::specs::Conditions::is_basic))]
    pub fn is_basic(self) -> bool
        ensures { result ≡ is_basic self }
    {
        match self {
            Head::Nothing => false,
            Head::NoName => false,
            Head::And => false,
            Head::Not => false,
            Head::Equals => true,
            Head::Reserved => false,
            Head::Name => true,
        }
    }
}

/// What a list of these elements begins with.
#[tactic(auto, unfolding(crate::specs::Terms::head_of))]
pub fn kind_of_head(text: &[u8], elements: &[Form]) -> Head
    ensures { result ≡ head_of text.now (trees elements.now) }
{
    match elements {
        [] => Head::Nothing,
        [first, ..] => kind_of_word(word(text, first)),
    }
}

/// What a list is that begins with this word.
#[tactic(auto, unfolding(crate::specs::Terms::head_by))]
fn kind_of_word(word: &[u8]) -> Head
    ensures { result ≡ head_by word.now }
{
    if word == b"and".as_slice() {
        return Head::And;
    }
    if word == b"not".as_slice() {
        return Head::Not;
    }
    if word == b"=".as_slice() {
        return Head::Equals;
    }
    if !is_name(word) {
        return Head::NoName;
    }
    if is_reserved(word) {
        return Head::Reserved;
    }
    Head::Name
}
