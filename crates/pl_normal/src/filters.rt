//! The filters of a schema.

ghost use Rattle.std.specs.Prelude.{◌≡◌, ◌<◌, ◌^◌, ◌++◌, List, length, All, IfOk, OnOk};
ghost use Rattle.std.specs.List.{flat_map, position_from};
ghost use Rattle.std.specs.Option.{option_to_list};
ghost use Rattle.pl_join.specs.Relation.{IsSlotBelow};
ghost use Rattle.pl_normal.specs.Filters.{literal_sieve, absent_over, unequal_over, sieves_of, sieve_classes};
ghost use Rattle.pl_normal.specs.Filters.{has_all, home, local_at, late_at, local_among, late_among};
ghost use Rattle.pl_normal.specs.declared.form.Edge.{Edge as EdgeOf};
ghost use Rattle.pl_normal.specs.Edges.{sets_of};
ghost use Rattle.pl_normal.specs.Slots.{slots_of};
ghost use Rattle.pl_normal.specs.Scope.{IsTermBelow, IsLiteralBelow, IsSieveBelow};

use crate::edges::sets_of;
use crate::form::{Edge, Placed, Sieve};
use crate::slots::{are_fixed, class_set, is_fixed, slot_of, slots_of};
use pl_hyper::EdgeFinder;
use pl_join::Slot;
use pl_task::{Lifted, List, Literal};
use std::alloc::{AllocError, Global};

/// The filters that belong to an edge, and the others.
#[derive(Drop)]
pub struct FilterLists {
    pub local: Vec<Placed>,
    pub late: Vec<Sieve>,
}

/// The filters of a schema, in reading order. `slots` are those of the parameters.
pub fn filters(
    alloc: Global,
    edges: &[Edge],
    slots: &[Slot],
    condition: &[Literal],
) -> Result<FilterLists, AllocError>
    requires few { length edges.now < 2 ^ 32 }
    requires slots { All (IsSlotBelow 64) slots.now }
    requires literals { All (IsLiteralBelow (length slots.now)) condition.now }
    ensures local { IfOk result (λ f. f.local.items ≡ local_among edges.now
        (sieves_of slots.now condition.now)) }
    ensures late { IfOk result
        (λ f. f.late.items ≡ late_among edges.now (sieves_of slots.now condition.now)) }
{
    let sets = sets_of(alloc, edges)?;
    let finder = EdgeFinder::new(alloc, sets.as_slice())?;
    let mut filters = FilterLists {
        local: Vec::new(alloc),
        late: Vec::new(alloc),
    };
    for literal in condition {
        add_filter(alloc, &mut filters, &finder, slots, literal)?;
    }
    Ok(filters)
}

/// Appends the filter that the literal is, if it is one.
fn add_filter(
    alloc: Global,
    filters: &mut FilterLists,
    finder: &EdgeFinder,
    slots: &[Slot],
    literal: &Literal,
) -> Result<(), AllocError>
    requires slots { All (IsSlotBelow 64) slots.now }
    requires literal { IsLiteralBelow (length slots.now) literal.now }
    ensures local { (edges : List EdgeOf) → finder.now ≡ sets_of edges → OnOk result
        (filters.new.local.items ≡ filters.old.local.items ++ flat_map (λ s. local_at (home edges s) s)
        (literal_sieve slots.now literal.now)) }
    ensures late { (edges : List EdgeOf) → finder.now ≡ sets_of edges → OnOk result
        (filters.new.late.items ≡ filters.old.late.items ++ flat_map (λ s. late_at (home edges s) s)
        (literal_sieve slots.now literal.now)) }
{
    match sieve_of(alloc, slots, literal)? {
        None => Ok(()),
        Some(sieve) => place(filters, finder, sieve),
    }
}

/// The filter that the literal is: an inequality or a negated atom with a class.
fn sieve_of(alloc: Global, slots: &[Slot], literal: &Literal) -> Result<Option<Sieve>, AllocError>
    requires slots { All (IsSlotBelow 64) slots.now }
    requires literal { IsLiteralBelow (length slots.now) literal.now }
    ensures sieve { IfOk result (λ found. literal_sieve slots.now literal.now ≡ option_to_list found) }
    ensures within { IfOk result (λ found. All IsSieveBelow (option_to_list found)) }
{
    match literal {
        Literal::Atom(_) => Ok(None),
        Literal::NotAtom(atom) => absent_sieve(alloc, slots, atom),
        Literal::Equal(_, _) => Ok(None),
        Literal::NotEqual(a, b) => Ok(unequal_sieve(slot_of(slots, *a), slot_of(slots, *b))),
    }
}

/// The filter of a negated atom that has a class.
fn absent_sieve(alloc: Global, slots: &[Slot], atom: &Lifted) -> Result<Option<Sieve>, AllocError>
    requires slots { All (IsSlotBelow 64) slots.now }
    requires terms { All (IsTermBelow (length slots.now)) atom.now.terms }
    ensures sieve { IfOk result
        (λ found. absent_over atom.now.predicate (slots_of slots.now atom.now.terms) ≡ option_to_list found) }
    ensures within { IfOk result (λ found. All IsSieveBelow (option_to_list found)) }
{
    let row = slots_of(alloc, slots, atom.terms.as_slice())?;
    if are_fixed(&row) {
        return Ok(None);
    }
    Ok(Some(Sieve::Absent(atom.predicate, List::of(row))))
}

/// The filter of an inequality that has a class.
fn unequal_sieve(a: Slot, b: Slot) -> Option<Sieve>
    requires a { IsSlotBelow 64 a }
    requires b { IsSlotBelow 64 b }
    ensures sieve { unequal_over a b ≡ option_to_list result }
    ensures within { All IsSieveBelow (option_to_list result) }
{
    if is_fixed(a) && is_fixed(b) {
        return None;
    }
    Some(Sieve::NotEqual(a, b))
}

/// Appends a filter to those of its edge or to the late ones.
#[tactic(auto, unfolding(crate::specs::Filters::home))]
fn place(filters: &mut FilterLists, finder: &EdgeFinder, sieve: Sieve) -> Result<(), AllocError>
    requires { IsSieveBelow sieve }
    ensures local { (edges : List EdgeOf) → finder.now ≡ sets_of edges → OnOk result
        (filters.new.local.items ≡ filters.old.local.items ++ local_at (home edges sieve) sieve) }
    ensures late { (edges : List EdgeOf) → finder.now ≡ sets_of edges → OnOk result
        (filters.new.late.items ≡ filters.old.late.items ++ late_at (home edges sieve) sieve) }
{
    match home(finder, sieve_classes(&sieve)) {
        None => {
            filters.late.push(sieve)?;
            Ok(())
        }
        Some(edge) => {
            filters.local.push(Placed { edge, sieve })?;
            Ok(())
        }
    }
}

/// The classes of a filter.
fn sieve_classes(sieve: &Sieve) -> u64
    requires { IsSieveBelow sieve.now }
    ensures { result ≡ sieve_classes sieve.now }
{
    match sieve {
        Sieve::NotEqual(a, b) => class_set(&[*a, *b]),
        Sieve::Absent(_, slots) => class_set(slots.as_slice()),
    }
}

/// The first edge that has all the classes.
fn home(finder: &EdgeFinder, classes: u64) -> Option<u32>
    ensures { (edges : List EdgeOf) → finder.now ≡ sets_of edges
        → result ≡ position_from (has_all classes) 0 edges }
{
    finder.first(classes)
}
