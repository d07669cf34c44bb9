//! The edges of a schema.

ghost use Rattle.std.specs.Prelude.{◌≡◌, ◌≤◌, ◌++◌, length, All, IfOk, OnOk};
ghost use Rattle.pl_join.specs.Relation.{IsSlotBelow};
ghost use Rattle.pl_normal.specs.Edges.{type_edge, type_edges, edge_over, literal_edge, atom_edges, sets_of};
ghost use Rattle.pl_normal.specs.Slots.{slots_of};
ghost use Rattle.pl_normal.specs.Scope.{IsTermBelow, IsLiteralBelow};

use crate::form::{Edge, Source};
use crate::slots::{are_fixed, class_set, slots_of};
use pl_join::Slot;
use pl_task::{Lifted, List, Literal};
use std::alloc::{AllocError, Global};

/// The edges of a schema: one for each parameter that is not fixed, then one for each positive atom with a
/// class.
///
/// `slots` are those of the parameters.
pub fn edges(alloc: Global, slots: &[Slot], condition: &[Literal]) -> Result<Vec<Edge>, AllocError>
    requires few { length slots.now ≤ 64 }
    requires slots { All (IsSlotBelow 64) slots.now }
    requires literals { All (IsLiteralBelow (length slots.now)) condition.now }
    ensures { IfOk result (λ v. v.items ≡ type_edges slots.now ++ atom_edges slots.now condition.now) }
{
    let mut edges = type_edges(alloc, slots)?;
    for literal in condition {
        add_literal_edge(alloc, &mut edges, slots, literal)?;
    }
    Ok(edges)
}

/// The edges of the types of the parameters that are not fixed.
fn type_edges(alloc: Global, slots: &[Slot]) -> Result<Vec<Edge>, AllocError>
    requires few { length slots.now ≤ 64 }
    requires slots { All (IsSlotBelow 64) slots.now }
    ensures { IfOk result (λ v. v.items ≡ type_edges slots.now) }
{
    let mut edges = Vec::new(alloc);
    for p in 0..slots.len() {
        add_type_edge(alloc, &mut edges, p as u32, slots[p])?;
    }
    Ok(edges)
}

/// Appends the edge of a parameter's types, unless it is fixed.
fn add_type_edge(
    alloc: Global,
    edges: &mut Vec<Edge>,
    parameter: u32,
    slot: Slot,
) -> Result<(), AllocError>
    requires { IsSlotBelow 64 slot }
    ensures { OnOk result (edges.new.items ≡ edges.old.items ++ type_edge parameter slot) }
{
    match slot {
        Slot::Fixed(_) => Ok(()),
        Slot::Class(_) => {
            let slots = vec![in alloc; slot]?;
            let classes = class_set(&slots);
            edges.push(Edge {
                source: Source::Kind(parameter),
                slots: List::of(slots),
                classes,
            })?;
            Ok(())
        }
    }
}

/// Appends the edge of a positive atom that has a class.
fn add_literal_edge(
    alloc: Global,
    edges: &mut Vec<Edge>,
    slots: &[Slot],
    literal: &Literal,
) -> Result<(), AllocError>
    requires slots { All (IsSlotBelow 64) slots.now }
    requires literal { IsLiteralBelow (length slots.now) literal.now }
    ensures { OnOk result (edges.new.items ≡ edges.old.items ++ literal_edge slots.now literal.now) }
{
    match literal {
        Literal::Atom(atom) => add_atom_edge(alloc, edges, slots, atom),
        Literal::NotAtom(_) => Ok(()),
        Literal::Equal(_, _) => Ok(()),
        Literal::NotEqual(_, _) => Ok(()),
    }
}

/// Appends the edge of an atom that has a class.
fn add_atom_edge(
    alloc: Global,
    edges: &mut Vec<Edge>,
    slots: &[Slot],
    atom: &Lifted,
) -> Result<(), AllocError>
    requires slots { All (IsSlotBelow 64) slots.now }
    requires terms { All (IsTermBelow (length slots.now)) atom.now.terms }
    ensures { OnOk result (edges.new.items
        ≡ edges.old.items ++ edge_over atom.now.predicate (slots_of slots.now atom.now.terms)) }
{
    let row = slots_of(alloc, slots, atom.terms.as_slice())?;
    if are_fixed(&row) {
        return Ok(());
    }
    let classes = class_set(&row);
    edges.push(Edge {
        source: Source::Predicate(atom.predicate),
        slots: List::of(row),
        classes,
    })?;
    Ok(())
}

/// The sets of classes of the edges.
pub fn sets_of(alloc: Global, edges: &[Edge]) -> Result<Vec<u64>, AllocError>
    ensures { IfOk result (λ v. v.items ≡ sets_of edges.now) }
{
    let mut sets = Vec::with_capacity(alloc, edges.len())?;
    for edge in edges {
        sets.push(edge.classes)?;
    }
    Ok(sets)
}
