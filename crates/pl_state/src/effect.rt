//! The rows of one predicate that a step's effects name, one by one in ascending order.

ghost use Rattle.std.specs.Prelude.{◌≡◌, ◌∷◌, [], ◌++◌, List, false, true, not, length, map, All, IfSome};
ghost use Rattle.std.specs.Prelude.{IsTrue, ◌↔◌};
ghost use Rattle.std.specs.Ordering.{is_lt, is_le};
ghost use Rattle.pl_rows.specs.Layout.{comes_before};
ghost use Rattle.pl_task.specs.declared.data.Lifted.{Lifted as LiftedAtom};
ghost use Rattle.pl_task.specs.States.{value_of, atom_at, is_same};
ghost use Rattle.pl_state.specs.Layout.{atom_of};
ghost use Rattle.pl_state.specs.Changing.{HasValue, HasRow, row_under, is_named, is_done, IsNext};

use pl_task::{Lifted, Term};
use std::cmp::Ordering;

/// The object that a term stands for.
#[inline]
pub fn value(args: &[u32], term: Term) -> u32
    requires { HasValue (length args.now) term }
    ensures { result ≡ value_of args.now term }
{
    match term {
        Term::Parameter(n) => args[n as usize],
        Term::Object(n) => n,
    }
}

/// Writes the objects that the terms stand for.
#[inline]
pub fn write_row(row: &mut [u32], args: &[u32], terms: &[Term])
    requires len { length row.old ≡ length terms.now }
    requires values { All (HasValue (length args.now)) terms.now }
    ensures { row.new ≡ map (value_of args.now) terms.now }
{
    for (i, term) in terms.iter().enumerate() {
        row[i] = value(args, *term);
    }
}

/// Whether an effect names the atom of the predicate with this row.
#[inline]
pub fn names(args: &[u32], effects: &[Lifted], predicate: u32, row: &[u32]) -> bool
    requires { All (λ (e : LiftedAtom). e.predicate ≡ predicate → HasRow args.now (length row.now) e)
        effects.now }
    ensures { result ≡ is_named args.now predicate effects.now row.now }
{
    for effect in effects {
        if names_row(args, effect, predicate, row) {
            return true;
        }
    }
    false
}

/// Whether the effect names the atom of the predicate with this row.
#[inline]
fn names_row(args: &[u32], effect: &Lifted, predicate: u32, row: &[u32]) -> bool
    requires { effect.now.predicate ≡ predicate → HasRow args.now (length row.now) effect.now }
    ensures { result ≡ is_same (atom_of predicate row.now) (atom_at args.now effect.now) }
{
    if effect.predicate != predicate {
        return false;
    }
    has_objects(args, effect.terms.as_slice(), row)
}

/// Whether the terms stand for these objects.
#[inline]
fn has_objects(args: &[u32], terms: &[Term], row: &[u32]) -> bool
    requires len { length terms.now ≡ length row.now }
    requires values { All (HasValue (length args.now)) terms.now }
    ensures { IsTrue result ↔ (row.now ≡ map (value_of args.now) terms.now) }
{
    for (i, term) in terms.iter().enumerate() {
        if row[i] != value(args, *term) {
            return false;
        }
    }
    true
}

/// Of the rows that the effects on a predicate name and that are above that of `last`, the least; none if
/// there is none.
pub fn next_effect<'e>(
    args: &[u32],
    deletes: &'e [Lifted],
    adds: &'e [Lifted],
    predicate: u32,
    _arity: u32,
    last: Option<&Lifted>,
) -> Option<&'e Lifted>
    requires deletes { All (λ (e : LiftedAtom). e.predicate ≡ predicate → HasRow args.now _arity e)
        deletes.now }
    requires adds { All (λ (e : LiftedAtom). e.predicate ≡ predicate → HasRow args.now _arity e) adds.now }
    requires last { IfSome last (λ l. HasRow args.now _arity l.now) }
    ensures next { IsNext args.now predicate (is_done args.now last.entry) (deletes.now ++ adds.now) result }
    ensures row { IfSome result (λ e. HasRow args.now _arity e.now) }
{
    let first = least(args, deletes, predicate, _arity, last, None);
    least(args, adds, predicate, _arity, last, first)
}

/// The same among further effects, where `best` is the least among those before them.
///
/// It is called for each row of a step, and its many parameters cost as much as its work.
#[inline(always)]
fn least<'e>(
    args: &[u32],
    effects: &'e [Lifted],
    predicate: u32,
    _arity: u32,
    last: Option<&Lifted>,
    mut best: Option<&'e Lifted>,
) -> Option<&'e Lifted>
    requires effects { All (λ (e : LiftedAtom). e.predicate ≡ predicate → HasRow args.now _arity e)
        effects.now }
    requires last { IfSome last (λ l. HasRow args.now _arity l.now) }
    requires best { IfSome best (λ b. HasRow args.now _arity b.now) }
    ensures next { (before : List LiftedAtom) →
        IsNext args.now predicate (is_done args.now last.entry) before best.entry
        → IsNext args.now predicate (is_done args.now last.entry) (before ++ effects.now) result }
    ensures row { IfSome result (λ b. HasRow args.now _arity b.now) }
{
    for effect in effects {
        best = lesser(args, effect, predicate, _arity, last, best);
    }
    best
}

/// The same with one further effect.
#[inline]
fn lesser<'e>(
    args: &[u32],
    effect: &'e Lifted,
    predicate: u32,
    _arity: u32,
    last: Option<&Lifted>,
    best: Option<&'e Lifted>,
) -> Option<&'e Lifted>
    requires effect { effect.now.predicate ≡ predicate → HasRow args.now _arity effect.now }
    requires last { IfSome last (λ l. HasRow args.now _arity l.now) }
    requires best { IfSome best (λ b. HasRow args.now _arity b.now) }
    ensures next { (before : List LiftedAtom) →
        IsNext args.now predicate (is_done args.now last.entry) before best.entry
        → IsNext args.now predicate (is_done args.now last.entry) (before ++ effect.now ∷ []) result }
    ensures row { IfSome result (λ b. HasRow args.now _arity b.now) }
{
    if effect.predicate != predicate {
        return best;
    }
    if !is_past(args, effect, last) {
        return best;
    }
    match best {
        None => Some(effect),
        Some(known) => {
            if is_below(args, effect, known) {
                return Some(effect);
            }
            Some(known)
        }
    }
}

/// Whether the effect's row is above that of `last`.
#[inline]
fn is_past(args: &[u32], effect: &Lifted, last: Option<&Lifted>) -> bool
    requires effect { All (HasValue (length args.now)) effect.now.terms }
    requires last { IfSome last (λ l. HasRow args.now (length effect.now.terms) l.now) }
    ensures { result ≡ not (is_done args.now last.entry (row_under args.now effect.now)) }
{
    match last {
        None => true,
        Some(done) => !is_at_most(args, effect, done),
    }
}

/// Whether the first effect's row is below the second's.
#[inline]
fn is_below(args: &[u32], first: &Lifted, second: &Lifted) -> bool
    requires first { HasRow args.now (length second.now.terms) first.now }
    requires second { All (HasValue (length args.now)) second.now.terms }
    ensures { result ≡ comes_before false (row_under args.now second.now) (row_under args.now first.now) }
{
    order(args, first, second).is_lt()
}

/// Whether the first effect's row is the second's or below it.
#[inline]
fn is_at_most(args: &[u32], first: &Lifted, second: &Lifted) -> bool
    requires first { HasRow args.now (length second.now.terms) first.now }
    requires second { All (HasValue (length args.now)) second.now.terms }
    ensures { result ≡ comes_before true (row_under args.now second.now) (row_under args.now first.now) }
{
    order(args, first, second).is_le()
}

/// The order of the effects' rows: that of the first values that differ.
#[inline]
fn order(args: &[u32], first: &Lifted, second: &Lifted) -> Ordering
    requires first { HasRow args.now (length second.now.terms) first.now }
    requires second { All (HasValue (length args.now)) second.now.terms }
    ensures below { is_lt result
        ≡ comes_before false (row_under args.now second.now) (row_under args.now first.now) }
    ensures at_most { is_le result
        ≡ comes_before true (row_under args.now second.now) (row_under args.now first.now) }
{
    let first = first.terms.as_slice();
    let second = second.terms.as_slice();
    for i in 0..second.len() {
        let value_of_first = value(args, first[i]);
        let value_of_second = value(args, second[i]);
        if value_of_first != value_of_second {
            return value_of_first.cmp(&value_of_second);
        }
    }
    Ordering::Equal
}
