//! The words and the lists of a file. Words are read from its copy in small letters, so that none is folded
//! twice.

ghost use Rattle.std.specs.Prelude.{◌≡◌, slice_range, drop};
ghost use Rattle.pl_text.specs.Trees.{tree_of};
ghost use Rattle.pl_check.specs.Elements.{trees, place as place_of, word_of, head_word, elements};
ghost use Rattle.pl_check.specs.Elements.{is_list as has_elements};

use pl_text::Form;
use std::alloc::Global;

/// The word of a form, and the empty word for a list.
#[tactic(auto, unfolding(crate::specs::Elements::word_of))]
pub fn word<'a>(text: &'a [u8], form: &Form) -> &'a [u8]
    ensures { result.now ≡ word_of text.now (tree_of form.now) }
{
    match form {
        Form::Word(span) => part(text, span.from as usize, span.to as usize),
        Form::List(_, _) => &[],
    }
}

/// The word that a list of these forms begins with, and the empty word where there is none.
#[tactic(auto, unfolding(crate::specs::Elements::head_word))]
pub fn head<'a>(text: &'a [u8], forms: &[Form]) -> &'a [u8]
    ensures { result.now ≡ head_word text.now (trees forms.now) }
{
    match forms {
        [] => &[],
        [form, ..] => word(text, form),
    }
}

/// The bytes from one place to another, as far as the text has them.
fn part(text: &[u8], from: usize, to: usize) -> &[u8]
    ensures { result.now ≡ slice_range text.now from to }
{
    let end = to.min(text.len());
    &text[from.min(end)..end]
}

/// The elements of a list, and none of a word.
pub fn parts(form: &Form) -> &[Form]
    ensures { trees result.now ≡ elements (tree_of form.now) }
{
    match form {
        Form::Word(_) => &[],
        Form::List(_, elements) => elements.as_slice(),
    }
}

/// Whether a form is a list.
#[tactic(auto, unfolding(crate::specs::Elements::is_list))]
pub fn is_list(form: &Form) -> bool
    ensures { result ≡ has_elements (tree_of form.now) }
{
    matches!(form, Form::List(_, _))
}

/// Where a form begins.
pub fn place(form: &Form) -> u32
    ensures { result ≡ place_of (tree_of form.now) }
{
    match form {
        Form::Word(span) => span.from,
        Form::List(span, _) => span.from,
    }
}

/// The forms after the first few.
pub fn rest(forms: &[Form], count: usize) -> &[Form]
    ensures { result.now ≡ drop count forms.now }
{
    &forms[count.min(forms.len())..]
}

/// The elements of a list that is taken apart, and none of a word.
pub fn into_parts(alloc: Global, form: Form) -> Vec<Form>
    ensures { trees result.items ≡ elements (tree_of form) }
{
    match form {
        Form::Word(_) => Vec::new(alloc),
        Form::List(_, inner) => inner,
    }
}

/// The forms after the first one.
pub fn without_first(forms: Vec<Form>) -> Vec<Form>
    ensures { result.items ≡ drop 1 forms.items }
{
    let mut left = forms;
    if left.len() > 0 {
        let _ = left.remove(0);
    }
    left
}
