//! The declarations of predicates.

ghost use Rattle.std.specs.Prelude.{◌≡◌, ◌≤◌, [], ⊤, IsTrue, IfOk, OnOk, All, length, map, take};
ghost use Rattle.pl_names.specs.Names.{first_appearances};
ghost use Rattle.pl_text.specs.Trees.{tree_of};
ghost use Rattle.pl_check.specs.Elements.{trees};
ghost use Rattle.pl_check.specs.Predicates as spec;
ghost use Rattle.pl_check.specs.Reading.{Reads, HasFew};

use crate::earlier::stands_before;
use crate::fault::FaultKind;
use crate::known::count_variables;
use crate::reading::{ReadEnd, refusal};
use crate::source::{head, parts, place, rest};
use crate::typed::{TypedRole, check_typed};
use crate::words::is_predicate_name;
use pl_names::{Appearances, Names};
use pl_text::Form;
use std::alloc::{AllocError, Global};

/// How many arguments a predicate may have.
const MAX_ARGUMENTS: usize = 64;

/// Checks the elements of `:predicates` after its key.
pub fn check_predicates<'a>(
    alloc: Global,
    text: &'a [u8],
    types: &Appearances<'a>,
    forms: &[Form],
) -> Result<(), ReadEnd>
    requires few { length forms.now ≤ 16777216 }
    requires inside { All HasFew (trees forms.now) }
    ensures { Reads (spec.predicates_faults text.now (first_appearances types.now) [] (trees forms.now))
        (λ _. ⊤) result }
{
    match declared_names(alloc, text, forms) {
        Ok(names) => check_declarations(alloc, text, types, &names, forms),
        Err(error) => Err(ReadEnd::Memory(error)),
    }
}

/// Checks declarations, of which these are the names.
fn check_declarations<'a>(
    alloc: Global,
    text: &'a [u8],
    types: &Appearances<'a>,
    names: &Names<'a>,
    forms: &[Form],
) -> Result<(), ReadEnd>
    requires { names.now ≡ map (spec.declared_name text.now) (spec.declarations text.now (trees forms.now)) }
    ensures { Reads (spec.predicates_faults text.now (first_appearances types.now) [] (trees forms.now))
        (λ _. ⊤) result }
{
    for (i, form) in forms.iter().enumerate() {
        match check_declaration(alloc, text, types, names, i, form) {
            Ok(()) => {}
            Err(end) => return Err(end),
        }
    }
    Ok(())
}

/// The names of the declarations among these forms.
fn declared_names<'a>(
    alloc: Global,
    text: &'a [u8],
    forms: &[Form],
) -> Result<Names<'a>, AllocError>
    requires { length forms.now ≤ 16777216 }
    ensures { IfOk result (λ names. names ≡
        map (spec.declared_name text.now) (spec.declarations text.now (trees forms.now))) }
{
    let mut names = Vec::new(alloc);
    for form in forms {
        if is_declaration(text, form) {
            names.push(head(text, parts(form)))?;
        }
    }
    Names::of(alloc, names)
}

/// Whether a form is a list that begins with a predicate name.
#[tactic(auto, unfolding(crate::specs::Predicates::is_declaration))]
fn is_declaration(text: &[u8], form: &Form) -> bool
    ensures { result ≡ spec.is_declaration text.now (tree_of form.now) }
{
    is_predicate_name(head(text, parts(form)))
}

/// Checks a declaration, the one of this number among these names.
#[tactic(auto, unfolding(crate::specs::Predicates::declaration_faults))]
fn check_declaration<'a>(
    alloc: Global,
    text: &'a [u8],
    types: &Appearances<'a>,
    names: &Names<'a>,
    number: usize,
    form: &Form,
) -> Result<(), ReadEnd>
    ensures reads { Reads (spec.declaration_faults text.now (first_appearances types.now)
        (take number names.now) (tree_of form.now)) (λ _. ⊤) result }
    ensures declared { OnOk result (IsTrue (spec.is_declaration text.now (tree_of form.now))) }
{
    check_declared_name(text, names, number, form)?;
    check_typed(
        alloc,
        text,
        types,
        TypedRole::Variables,
        rest(parts(form), 1),
    )
}

/// Checks a declaration itself.
#[tactic(auto, unfolding(crate::specs::Predicates::declaration_own, crate::specs::Predicates::declared_arity))]
fn check_declared_name<'a>(
    text: &'a [u8],
    names: &Names<'a>,
    number: usize,
    form: &Form,
) -> Result<(), ReadEnd>
    ensures { Reads (spec.declaration_own text.now (take number names.now) (tree_of form.now))
        (λ _. IsTrue (spec.is_declaration text.now (tree_of form.now))) result }
{
    if !is_declaration(text, form) {
        return Err(refusal(place(form), FaultKind::BadForm));
    }
    if stands_before(names, head(text, parts(form)), number) {
        return Err(refusal(place(form), FaultKind::Duplicate));
    }
    if count_variables(text, parts(form)) > MAX_ARGUMENTS {
        return Err(refusal(place(form), FaultKind::TooMany));
    }
    Ok(())
}
