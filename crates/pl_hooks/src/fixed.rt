//! Goal literals whose atoms no effect could change.

ghost use Rattle.std.specs.Prelude.{◌≡◌, ◌↔◌, ◌<◌, IsTrue, length, All, cond};
ghost use Rattle.pl_task.specs.Goal.{CouldGive};
ghost use Rattle.pl_task.specs.declared.data.Term.TheVariants as one;
ghost use Rattle.pl_hooks.specs.Fixed.{FitsAt, HasObject, IsFixed};

use pl_task::{Atom, GoalLiteral, Lifted, Schema, Task, Term};

/// Whether no effect could change the literal's atom: no add where it is wanted, else no delete.
pub fn is_fixed(task: &Task, literal: &GoalLiteral) -> bool
    ensures { IsTrue result ↔ IsFixed task.now literal.now }
{
    for schema in task.schemas.as_slice() {
        if !none_gives(effects(schema, literal.wanted), &literal.atom) {
            return false;
        }
    }
    true
}

/// The effects that would meet a literal: adds if it is wanted, else deletes.
fn effects(schema: &Schema, wanted: bool) -> &[Lifted]
    ensures { result.now ≡ cond wanted schema.now.add schema.now.delete }
{
    if wanted {
        return schema.add.as_slice();
    }
    schema.delete.as_slice()
}

/// Whether none of the effects could give the atom.
fn none_gives(effects: &[Lifted], atom: &Atom) -> bool
    ensures { IsTrue result ↔ All (λ effect. CouldGive effect atom.now → ⊥) effects.now }
{
    for effect in effects {
        if could_give(effect, atom) {
            return false;
        }
    }
    true
}

/// Whether the effect could give the atom, whatever the types of its parameters.
fn could_give(effect: &Lifted, atom: &Atom) -> bool
    ensures { IsTrue result ↔ CouldGive effect.now atom.now }
{
    if effect.predicate != atom.predicate {
        return false;
    }
    let terms = effect.terms.as_slice();
    let objects = atom.objects.as_slice();
    if terms.len() != objects.len() {
        return false;
    }
    fit(terms, objects)
}

/// Whether the terms could stand for the objects, place by place.
fn fit(terms: &[Term], objects: &[u32]) -> bool
    requires { length terms.now ≡ length objects.now }
    ensures { IsTrue result ↔ ((i : _) → i < length terms.now → FitsAt terms.now objects.now i) }
{
    for i in 0..terms.len() {
        if !fits(terms, objects, i) {
            return false;
        }
    }
    true
}

/// Whether the term at the place could stand for the object there.
fn fits(terms: &[Term], objects: &[u32], i: usize) -> bool
    requires many { length terms.now ≡ length objects.now }
    requires within { i < length terms.now }
    ensures { IsTrue result ↔ FitsAt terms.now objects.now i }
{
    match terms[i] {
        Term::Object(n) => objects[i] == n,
        Term::Parameter(n) => has_object(terms, objects, n, objects[i]),
    }
}

/// Whether at each place with the parameter there is the object.
fn has_object(terms: &[Term], objects: &[u32], n: u32, object: u32) -> bool
    requires { length terms.now ≡ length objects.now }
    ensures { IsTrue result ↔ HasObject terms.now objects.now n object }
{
    for j in 0..terms.len() {
        if is_parameter(terms[j], n) {
            if objects[j] != object {
                return false;
            }
        }
    }
    true
}

fn is_parameter(term: Term, n: u32) -> bool
    ensures { IsTrue result ↔ (term ≡ one.Parameter n) }
{
    match term {
        Term::Parameter(m) => m == n,
        Term::Object(_) => false,
    }
}
