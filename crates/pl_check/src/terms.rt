//! Terms, and atoms and equalities over them.

ghost use Rattle.std.specs.Prelude.{◌≡◌, ◌||◌, ◌∷◌, [], Some, drop, length};
ghost use Rattle.pl_text.specs.Trees.{tree_of};
ghost use Rattle.pl_names.specs.Names.{number_among};
ghost use Rattle.pl_check.specs.Elements.{trees, head_word};
ghost use Rattle.pl_check.specs.FaultLists.{or_inside};
ghost use Rattle.pl_check.specs.Literals as lit;
ghost use Rattle.pl_check.specs.Reading.{Reads, IsFound, scope_in};
ghost use Rattle.pl_check.specs.Terms as spec;
ghost use Rattle.pl_check.specs.Words as kinds;

use crate::fault::FaultKind;
use crate::head::Head;
use crate::known::Known;
use crate::reading::{ReadEnd, push, refusal};
use crate::scope::Scope;
use crate::source::{head, place, rest, word};
use crate::words::{is_name, is_variable};
use pl_task::{Lifted, List, Literal, Term};
use pl_text::Form;
use std::alloc::Global;

/// The term that a form is.
#[tactic(auto, unfolding(crate::specs::Terms::term_faults))]
pub fn read_term(scope: &Scope<'_, '_>, form: &Form) -> Result<Term, ReadEnd>
    ensures { Reads (spec.term_faults (scope_in scope.now) (tree_of form.now))
        (λ t. spec.term_of (scope_in scope.now) (tree_of form.now) ≡ Some t) result }
{
    let name = word(scope.text, form);
    if !is_term(name) {
        return Err(refusal(place(form), FaultKind::BadForm));
    }
    match find_term(scope, name) {
        Some(term) => Ok(term),
        None => Err(refusal(place(form), FaultKind::UnknownName)),
    }
}

/// Whether a word can be a term.
fn is_term(name: &[u8]) -> bool
    ensures { result ≡ (kinds.is_variable name.now || kinds.is_name name.now) }
{
    is_variable(name) || is_name(name)
}

/// A variable as the parameter that it is, a name as the object, where there is one.
#[tactic(auto, unfolding(crate::specs::Terms::term_named))]
fn find_term(scope: &Scope<'_, '_>, name: &[u8]) -> Option<Term>
    ensures { result ≡ spec.term_named (scope_in scope.now) name.now }
{
    if is_variable(name) {
        return match scope.parameters.find(name) {
            Some(number) => Some(Term::Parameter(number)),
            None => None,
        };
    }
    match scope.known.objects().find(name) {
        Some(number) => Some(Term::Object(number)),
        None => None,
    }
}

/// The terms that forms are.
pub fn read_terms(
    alloc: Global,
    scope: &Scope<'_, '_>,
    forms: &[Form],
) -> Result<Vec<Term>, ReadEnd>
    ensures { Reads (spec.terms_faults (scope_in scope.now) (trees forms.now))
        (λ terms. terms.items ≡ lit.terms_of (scope_in scope.now) (trees forms.now)) result }
{
    let mut terms = Vec::new(alloc);
    for form in forms {
        push(&mut terms, read_term(scope, form)?)?;
    }
    Ok(terms)
}

/// A predicate, by its number and its number of arguments.
#[derive(Clone, Copy)]
pub struct Declared {
    pub number: u32,
    pub arity: u32,
}

/// The predicate of a name, if there is one.
fn find_predicate(known: &Known<'_>, name: &[u8]) -> Option<Declared>
    ensures { IsFound known.now name.now result }
{
    let Some(number) = known.predicates().find(name) else {
        return None;
    };
    let arity = known.arities()[number as usize];
    Some(Declared { number, arity })
}

/// The number of the predicate of an atom of these elements, which begins at this place.
pub fn read_predicate(scope: &Scope<'_, '_>, at: u32, elements: &[Form]) -> Result<u32, ReadEnd>
    ensures { Reads (spec.atom_faults (scope_in scope.now) at (trees elements.now))
        (λ number. number_among (scope_in scope.now).known.predicates
        (head_word (scope_in scope.now).text (trees elements.now)) ≡ Some number) result }
{
    let Some(found) = find_predicate(scope.known, head(scope.text, elements)) else {
        return Err(refusal(at, FaultKind::UnknownPredicate));
    };
    if rest(elements, 1).len() != found.arity as usize {
        return Err(refusal(at, FaultKind::WrongArity));
    }
    Ok(found.number)
}

/// The atom that a list of these elements is, which begins at this place with a name.
#[tactic(auto, using(crate::proofs::WalkLemmas::walks))]
pub fn read_atom(
    alloc: Global,
    scope: &Scope<'_, '_>,
    at: u32,
    elements: &[Form],
) -> Result<Lifted, ReadEnd>
    ensures { Reads (or_inside (spec.atom_faults (scope_in scope.now) at (trees elements.now))
        (spec.terms_faults (scope_in scope.now) (drop 1 (trees elements.now))))
        (λ atom. atom ≡ lit.lifted_of (scope_in scope.now) (trees elements.now)) result }
{
    let predicate = read_predicate(scope, at, elements)?;
    let terms = read_terms(alloc, scope, rest(elements, 1))?;
    Ok(Lifted {
        predicate,
        terms: List::of(terms),
    })
}

/// The equality of these terms, which begins at this place, where equalities are allowed.
pub fn read_equality(
    scope: &Scope<'_, '_>,
    allowed: bool,
    at: u32,
    terms: &[Form],
) -> Result<Literal, ReadEnd>
    ensures { Reads (or_inside (spec.equality_own allowed (length terms.now) at)
        (spec.terms_faults (scope_in scope.now) (trees terms.now)))
        (λ l. lit.equality_of (lit.terms_of (scope_in scope.now) (trees terms.now)) ≡ l ∷ []) result }
{
    if !allowed {
        return Err(refusal(at, FaultKind::Unsupported));
    }
    match terms {
        [left, right] => {
            let left = read_term(scope, left)?;
            let right = read_term(scope, right)?;
            Ok(Literal::Equal(left, right))
        }
        _ => Err(refusal(at, FaultKind::WrongArity)),
    }
}

/// The atom or the equality that a list of these elements is, which begins at this place with this head.
pub fn read_basic(
    alloc: Global,
    scope: &Scope<'_, '_>,
    equality: bool,
    head: Head,
    at: u32,
    elements: &[Form],
) -> Result<Literal, ReadEnd>
    ensures { Reads (or_inside (spec.basic_by head (scope_in scope.now) equality at (trees elements.now))
        (spec.terms_faults (scope_in scope.now) (drop 1 (trees elements.now))))
        (λ l. lit.basic_literal_by head (scope_in scope.now) (trees elements.now) ≡ l ∷ []) result }
{
    match head {
        Head::Nothing => Err(refusal(at, FaultKind::BadForm)),
        Head::NoName => Err(refusal(at, FaultKind::BadForm)),
        Head::And => Err(refusal(at, FaultKind::Unsupported)),
        Head::Not => Err(refusal(at, FaultKind::Unsupported)),
        Head::Reserved => Err(refusal(at, FaultKind::Unsupported)),
        Head::Equals => read_equality(scope, equality, at, rest(elements, 1)),
        Head::Name => match read_atom(alloc, scope, at, elements) {
            Ok(atom) => Ok(Literal::Atom(atom)),
            Err(end) => Err(end),
        },
    }
}
