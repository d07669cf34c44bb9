//! The semijoins between a node and its parent, each of which is the join's own relation or a lent one.

ghost use Rattle.std.specs.Prelude.{◌≡◌, ◌+◌, ◌*◌, ◌<◌, ◌≤◌, None, Some, length, IfOk, IfSome, IfNone};
ghost use Rattle.pl_join.specs.Keyed.{KeyedRows};
ghost use Rattle.pl_reduce.specs.Recipes.{option_at};
ghost use Rattle.pl_reduce.specs.Lent.{keyed_at, node_with, AreThere, IsTurned, IsLentPair, IsReductionBy};

use pl_join::{
    Keyed, Ranges, Relation, project, reduction, reduction_by_keyed, reduction_of_keyed,
};
use pl_steps::Steps;
use std::alloc::{AllocError, Global};
use std::sync::ledger::Ledger;

/// The semijoin of a parent by a node; None where no row is lost. Two lent relations are reduced by each
/// other already.
pub fn parent_reduction<L: Ledger>(
    alloc: Global,
    lent: &[Option<Keyed>],
    turned: &[Option<Keyed>],
    own: &[Option<Relation>],
    parent: usize,
    node: usize,
    ranges: &mut Ranges,
    steps: &mut Steps<L>,
) -> Result<Option<Relation>, AllocError>
    requires parent { parent < length own.now }
    requires node { node < length own.now }
    requires there { AreThere lent.now own.now }
    requires pair { IsLentPair lent.now turned.now parent node }
    ensures reduction { IfOk result
        (IsReductionBy (node_with lent.now own.now parent) (node_with lent.now own.now node)) }
    ensures cost { steps.new ≤ steps.old + 2 * length (node_with lent.now own.now parent).rows
        + length (node_with lent.now own.now node).rows }
    ensures rise { steps.old ≤ steps.new }
{
    match own_at(own, parent) {
        Some(keep) => match own_at(own, node) {
            Some(by) => by_own(alloc, keep, by, steps),
            None => by_lent(alloc, keep, lent_at(lent, node), steps),
        },
        None => match own_at(own, node) {
            Some(by) => of_parent(
                alloc,
                lent_at(lent, parent),
                turned_at(turned, node),
                by,
                ranges,
                steps,
            ),
            None => Ok(None),
        },
    }
}

/// The semijoin of a node by its parent; None where no row is lost.
pub fn node_reduction<L: Ledger>(
    alloc: Global,
    lent: &[Option<Keyed>],
    turned: &[Option<Keyed>],
    own: &[Option<Relation>],
    parent: usize,
    node: usize,
    ranges: &mut Ranges,
    steps: &mut Steps<L>,
) -> Result<Option<Relation>, AllocError>
    requires parent { parent < length own.now }
    requires node { node < length own.now }
    requires there { AreThere lent.now own.now }
    requires pair { IsLentPair lent.now turned.now parent node }
    ensures reduction { IfOk result
        (IsReductionBy (node_with lent.now own.now node) (node_with lent.now own.now parent)) }
    ensures cost { steps.new ≤ steps.old + 2 * length (node_with lent.now own.now node).rows
        + length (node_with lent.now own.now parent).rows }
    ensures rise { steps.old ≤ steps.new }
{
    match own_at(own, node) {
        Some(keep) => match own_at(own, parent) {
            Some(by) => by_own(alloc, keep, by, steps),
            None => by_parent(
                alloc,
                keep,
                lent_at(lent, parent),
                turned_at(turned, node),
                steps,
            ),
        },
        None => match own_at(own, parent) {
            Some(by) => of_lent(alloc, lent_at(lent, node), by, ranges, steps),
            None => Ok(None),
        },
    }
}

/// The join's own relation of a node, if it has one.
pub fn own_at(own: &[Option<Relation>], node: usize) -> Option<&Relation>
    requires { node < length own.now }
    ensures some { IfSome result (λ r. option_at own.now node ≡ Some r.now) }
    ensures none { IfNone result (option_at own.now node ≡ None) }
{
    match &own[node] {
        Some(relation) => Some(relation),
        None => None,
    }
}

/// The lent relation of a node that has one.
pub fn lent_at(lent: &[Option<Keyed>], node: usize) -> &Keyed
    requires { (q : KeyedRows) × (keyed_at lent.now node ≡ Some q) }
    ensures { keyed_at lent.now node ≡ Some result.now }
{
    match &lent[node] {
        Some(keyed) => keyed,
        None => unreachable!(),
    }
}

/// The parent's relation for look-ups by a node, if there is one.
fn turned_at(turned: &[Option<Keyed>], node: usize) -> Option<&Keyed>
    ensures { IfSome result (λ t. keyed_at turned.now node ≡ Some t.now) }
{
    if node >= turned.len() {
        return None;
    }
    match &turned[node] {
        Some(keyed) => Some(keyed),
        None => None,
    }
}

/// The semijoin of two own relations.
fn by_own<L: Ledger>(
    alloc: Global,
    keep: &Relation,
    by: &Relation,
    steps: &mut Steps<L>,
) -> Result<Option<Relation>, AllocError>
    ensures reduction { IfOk result (IsReductionBy keep.now by.now) }
    ensures cost { steps.new ≤ steps.old + 2 * length keep.now.rows + length by.now.rows }
    ensures rise { steps.old ≤ steps.new }
{
    reduction(alloc, keep, by, steps)
}

/// The semijoin of an own relation by a lent one. Where the key is what the two share, it is one look-up for
/// each row.
fn by_lent<L: Ledger>(
    alloc: Global,
    keep: &Relation,
    by: &Keyed,
    steps: &mut Steps<L>,
) -> Result<Option<Relation>, AllocError>
    ensures reduction { IfOk result (IsReductionBy keep.now by.now.relation) }
    ensures cost { steps.new ≤ steps.old + 2 * length keep.now.rows + length by.now.relation.rows }
    ensures rise { steps.old ≤ steps.new }
{
    if by.shares_key(keep.classes()) {
        return reduction_by_keyed(alloc, keep, by, steps);
    }
    let whole = by.copied(alloc)?;
    reduction(alloc, keep, &whole, steps)
}

/// The semijoin of an own relation by its lent parent.
fn by_parent<L: Ledger>(
    alloc: Global,
    keep: &Relation,
    parent: &Keyed,
    turned: Option<&Keyed>,
    steps: &mut Steps<L>,
) -> Result<Option<Relation>, AllocError>
    requires { IfSome turned (λ t. IsTurned parent.now t.now) }
    ensures reduction { IfOk result (IsReductionBy keep.now parent.now.relation) }
    ensures cost { steps.new ≤ steps.old + 2 * length keep.now.rows + length parent.now.relation.rows }
    ensures rise { steps.old ≤ steps.new }
{
    match turned {
        Some(turned) => by_lent(alloc, keep, turned, steps),
        None => by_lent(alloc, keep, parent, steps),
    }
}

/// The semijoin of a lent relation by an own one. Where the key is what the two share, the keys of the own
/// rows are looked up.
fn of_lent<L: Ledger>(
    alloc: Global,
    keep: &Keyed,
    by: &Relation,
    ranges: &mut Ranges,
    steps: &mut Steps<L>,
) -> Result<Option<Relation>, AllocError>
    ensures reduction { IfOk result (IsReductionBy keep.now.relation by.now) }
    ensures cost { steps.new ≤ steps.old + 2 * length keep.now.relation.rows + length by.now.rows }
    ensures rise { steps.old ≤ steps.new }
{
    if keep.shares_key(by.classes()) {
        return reduction_of_keyed(alloc, keep, by, ranges, steps);
    }
    let whole = keep.copied(alloc)?;
    reduction(alloc, &whole, by, steps)
}

/// The semijoin of a lent parent by an own relation. Where that has few rows, they are looked up, and
/// otherwise the parent's rows are gone through.
fn of_parent<L: Ledger>(
    alloc: Global,
    parent: &Keyed,
    turned: Option<&Keyed>,
    by: &Relation,
    ranges: &mut Ranges,
    steps: &mut Steps<L>,
) -> Result<Option<Relation>, AllocError>
    requires { IfSome turned (λ t. IsTurned parent.now t.now) }
    ensures reduction { IfOk result (IsReductionBy parent.now.relation by.now) }
    ensures cost { steps.new ≤ steps.old + 2 * length parent.now.relation.rows + length by.now.rows }
    ensures rise { steps.old ≤ steps.new }
{
    let Some(turned) = turned else {
        return of_lent(alloc, parent, by, ranges, steps);
    };
    if by.table().len() > parent.table().len() / 2 {
        return of_lent(alloc, parent, by, ranges, steps);
    }
    if !turned.shares_key(by.classes()) {
        return of_lent(alloc, parent, by, ranges, steps);
    }
    let Some(kept) = reduction_of_keyed(alloc, turned, by, ranges, steps)? else {
        return Ok(None);
    };
    Ok(Some(project(alloc, &kept, parent.classes(), steps)?))
}
