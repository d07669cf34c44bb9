//! A form of a file.

ghost use Rattle.std.specs.Prelude.{◌≡◌};

use std::marker::Model;

/// A part of a file, by the offsets of bytes.
#[derive(Clone, Copy, Debug, PartialEq, Eq)]
pub struct Span {
    /// The first byte.
    pub from: u32,
    /// One past the last byte.
    pub to: u32,
}

/// A word or a list, each with the part of the file that it was read from.
///
/// A list's span runs from its open bracket to one past its close bracket. Contracts see a form as its tree,
/// which is defined in `specs/Trees`.
#[derive(Debug, Drop)]
pub enum Form {
    /// A word.
    Word(Span),
    /// A list with its elements, in the order of the file.
    List(Span, Vec<Form>),
}

impl Form {
    ghost use Rattle.pl_text.specs.Trees.{span_of, tree_of};

    /// The part of the file that the form was read from.
    pub fn span(&self) -> Span
        ensures { result ≡ span_of (tree_of self.now) }
    {
        match self {
            Form::Word(span) => *span,
            Form::List(span, _) => *span,
        }
    }
}

/// The forms of a file, in their order.
#[derive(Drop)]
pub struct FormList {
    forms: Vec<Form>,
}

impl Model for FormList {
    ghost use Rattle.std.specs.Prelude.{List as ListOf};
    ghost use Rattle.std.specs.Coded.{codes};
    ghost use Rattle.pl_text.specs.declared.form.Form.{Form as FormSeen};
    ghost use Rattle.pl_text.specs.contracts.form.Form as e;

    ghost Value = { ListOf FormSeen };

    ghost coded = { Prim.hlevel (codes, e.the_row.coded) };

    ghost view = { λ list. list.forms.items };
}

impl FormList {
    /// The list of these forms, with no more memory than they take.
    pub(crate) fn of(forms: Vec<Form>) -> FormList
        ensures { result ≡ forms.items }
    {
        let mut kept = forms;
        kept.shrink_to_fit();
        FormList { forms: kept }
    }

    /// The forms, to be taken apart.
    pub fn into_forms(self) -> Vec<Form>
        ensures { result.items ≡ self }
    {
        self.forms
    }

    /// The forms, as a slice.
    pub fn as_slice(&self) -> &[Form]
        ensures { result.now ≡ self.now }
    {
        self.forms.as_slice()
    }
}
