//! Conditions and effects: conjunctions of literals, nested as one likes.

ghost use Rattle.std.specs.Prelude.{◌≡◌, ◌++◌, ◌∷◌, [], ◌==◌, not, true, cond, drop, length, map, ⊤};
ghost use Rattle.std.specs.List.{flat_map};
ghost use Rattle.pl_text.specs.Trees.{tree_of};
ghost use Rattle.pl_check.specs.declared.fault.FaultKind.TheVariants as kind;
ghost use Rattle.pl_check.specs.Conditions.{counted, left_of, condition_by, condition_own, condition_faults};
ghost use Rattle.pl_check.specs.Conditions.{precondition_faults};
ghost use Rattle.pl_check.specs.Elements.{trees};
ghost use Rattle.pl_check.specs.FaultLists.{fault_if, or_inside};
ghost use Rattle.pl_check.specs.Literals as lit;
ghost use Rattle.pl_check.specs.Reading.{Reads, scope_in};
ghost use Rattle.pl_check.specs.Terms.{basic_by, basic_faults, head_of, terms_faults};

use crate::fault::FaultKind;
use crate::head::{Head, kind_of_head};
use crate::reading::{ReadEnd, push, refusal};
use crate::scope::Scope;
use crate::source::{is_list, parts, place, rest};
use crate::terms::{read_basic, read_predicate};
use pl_task::Literal;
use pl_text::Form;
use std::alloc::Global;

/// How many atoms and equalities a precondition may have.
const MAX_LITERALS: usize = 1024;

/// Adds the literals of a condition, or of an effect, where equalities aren't allowed.
#[tactic(auto, unfolding(crate::specs::Conditions::condition_own, crate::specs::Elements::is_list))]
pub fn read_condition(
    alloc: Global,
    scope: &Scope<'_, '_>,
    equality: bool,
    form: &Form,
    literals: &mut Vec<Literal>,
) -> Result<(), ReadEnd>
    ensures { Reads (condition_faults (scope_in scope.now) equality (tree_of form.now))
        (λ _. literals.new.items ≡ literals.old.items ++
        lit.literals_of (scope_in scope.now) (tree_of form.now)) result }
{
    match form {
        Form::Word(span) => Err(refusal(span.from, FaultKind::BadForm)),
        Form::List(span, elements) => {
            let elements = elements.as_slice();
            let inner = rest(elements, 1);
            match kind_of_head(scope.text, elements) {
                Head::Nothing => Ok(()),
                Head::And => {
                    for conjunct in inner {
                        if let Err(end) = read_condition(
                            alloc, scope, equality, conjunct, literals,
                        ) {
                            return Err(end);
                        }
                    }
                    Ok(())
                }
                Head::Not => read_negated(alloc, scope, equality, span.from, inner, literals),
                Head::NoName => add_basic(
                    alloc,
                    scope,
                    equality,
                    Head::NoName,
                    span.from,
                    elements,
                    literals,
                ),
                Head::Equals => add_basic(
                    alloc,
                    scope,
                    equality,
                    Head::Equals,
                    span.from,
                    elements,
                    literals,
                ),
                Head::Reserved => add_basic(
                    alloc,
                    scope,
                    equality,
                    Head::Reserved,
                    span.from,
                    elements,
                    literals,
                ),
                Head::Name => add_basic(
                    alloc,
                    scope,
                    equality,
                    Head::Name,
                    span.from,
                    elements,
                    literals,
                ),
            }
        }
    }
}

/// Adds the atom or the equality that a list of these elements is.
fn add_basic(
    alloc: Global,
    scope: &Scope<'_, '_>,
    equality: bool,
    head: Head,
    at: u32,
    elements: &[Form],
    literals: &mut Vec<Literal>,
) -> Result<(), ReadEnd>
    ensures { Reads (or_inside (basic_by head (scope_in scope.now) equality at (trees elements.now))
        (terms_faults (scope_in scope.now) (drop 1 (trees elements.now))))
        (λ _. literals.new.items ≡ literals.old.items ++
        lit.basic_literal_by head (scope_in scope.now) (trees elements.now)) result }
{
    let literal = read_basic(alloc, scope, equality, head, at, elements)?;
    push(literals, literal)
}

/// Adds the literal of `(not B)`, which begins at this place, where these are the elements after the word.
fn read_negated(
    alloc: Global,
    scope: &Scope<'_, '_>,
    equality: bool,
    at: u32,
    forms: &[Form],
    literals: &mut Vec<Literal>,
) -> Result<(), ReadEnd>
    ensures { Reads (or_inside (fault_if (not (length forms.now == 1)) at kind.BadForm)
        (flat_map (basic_faults (scope_in scope.now) equality) (trees forms.now)))
        (λ _. literals.new.items ≡ literals.old.items ++
        map lit.negated (flat_map (lit.basic_literal (scope_in scope.now)) (trees forms.now))) result }
{
    if forms.len() != 1 {
        return Err(refusal(at, FaultKind::BadForm));
    }
    for form in forms {
        let literal = read_form(alloc, scope, equality, form)?;
        push(literals, negated(literal))?;
    }
    Ok(())
}

/// The atom or the equality that a form is.
#[tactic(auto, unfolding(crate::specs::Terms::basic_faults, crate::specs::Terms::basic_own, crate::specs::Literals::basic_literal))]
pub fn read_form(
    alloc: Global,
    scope: &Scope<'_, '_>,
    equality: bool,
    form: &Form,
) -> Result<Literal, ReadEnd>
    ensures { Reads (basic_faults (scope_in scope.now) equality (tree_of form.now))
        (λ l. lit.basic_literal (scope_in scope.now) (tree_of form.now) ≡ l ∷ []) result }
{
    let elements = parts(form);
    let head = kind_of_head(scope.text, elements);
    read_basic(alloc, scope, equality, head, place(form), elements)
}

/// The literal that is true where this one is false.
fn negated(literal: Literal) -> Literal
    ensures { result ≡ lit.negated literal }
{
    match literal {
        Literal::Atom(atom) => Literal::NotAtom(atom),
        Literal::NotAtom(atom) => Literal::Atom(atom),
        Literal::Equal(a, b) => Literal::NotEqual(a, b),
        Literal::NotEqual(a, b) => Literal::Equal(a, b),
    }
}

/// Adds the literals of a precondition.
pub fn read_precondition(
    alloc: Global,
    scope: &Scope<'_, '_>,
    form: &Form,
    literals: &mut Vec<Literal>,
) -> Result<(), ReadEnd>
    ensures { Reads (precondition_faults (scope_in scope.now) (tree_of form.now))
        (λ _. literals.new.items ≡ literals.old.items ++
        lit.literals_of (scope_in scope.now) (tree_of form.now)) result }
{
    if budget_left(scope.text, form, MAX_LITERALS).is_some() {
        return read_condition(alloc, scope, true, form, literals);
    }
    match check_own(scope, form) {
        Ok(()) => Err(refusal(place(form), FaultKind::TooMany)),
        Err(end) => Err(end),
    }
}

/// Checks a condition itself.
#[tactic(auto, unfolding(crate::specs::Conditions::condition_own, crate::specs::Elements::is_list))]
fn check_own(scope: &Scope<'_, '_>, form: &Form) -> Result<(), ReadEnd>
    ensures { Reads (condition_own (scope_in scope.now) true (tree_of form.now)) (λ _. ⊤) result }
{
    let at = place(form);
    if !is_list(form) {
        return Err(refusal(at, FaultKind::BadForm));
    }
    check_list(scope, at, parts(form))
}

/// Checks a list of these elements itself, which begins at this place and should be a condition.
fn check_list(scope: &Scope<'_, '_>, at: u32, elements: &[Form]) -> Result<(), ReadEnd>
    ensures { Reads (condition_by (head_of (scope_in scope.now).text (trees elements.now))
        (scope_in scope.now) true at (trees elements.now)) (λ _. ⊤) result }
{
    let inner = rest(elements, 1);
    match kind_of_head(scope.text, elements) {
        Head::Nothing => Ok(()),
        Head::And => Ok(()),
        Head::Not => check_count(at, inner, 1, FaultKind::BadForm),
        Head::Equals => check_count(at, inner, 2, FaultKind::WrongArity),
        Head::NoName => Err(refusal(at, FaultKind::BadForm)),
        Head::Reserved => Err(refusal(at, FaultKind::Unsupported)),
        Head::Name => match read_predicate(scope, at, elements) {
            Ok(_) => Ok(()),
            Err(end) => Err(end),
        },
    }
}

/// Checks that there are so many forms.
fn check_count(at: u32, forms: &[Form], count: usize, kind: FaultKind) -> Result<(), ReadEnd>
    ensures { Reads (fault_if (not (length (trees forms.now) == count)) at kind) (λ _. ⊤) result }
{
    if forms.len() != count {
        return Err(refusal(at, kind));
    }
    Ok(())
}

/// How many atoms and equalities a condition may further have, if this one has no more than it may.
fn budget_left(text: &[u8], form: &Form, budget: usize) -> Option<usize>
    ensures { result ≡ left_of budget (counted text.now (tree_of form.now)) }
{
    match form {
        Form::Word(_) => Some(budget),
        Form::List(_, elements) => {
            let elements = elements.as_slice();
            let inner = rest(elements, 1);
            let head = kind_of_head(text, elements);
            if !head.is_connective() {
                return less(budget, head.is_basic());
            }
            let mut left = budget;
            for element in inner {
                match budget_left(text, element, left) {
                    Some(further) => left = further,
                    None => return None,
                }
            }
            Some(left)
        }
    }
}

/// The number without one, where one is counted.
fn less(budget: usize, counts: bool) -> Option<usize>
    ensures { result ≡ left_of budget (cond counts 1 0) }
{
    if !counts {
        return Some(budget);
    }
    if budget == 0 {
        return None;
    }
    Some(budget - 1)
}
