//! The join of two relations.

ghost use Rattle.std.specs.Prelude.{◌≡◌, ◌+◌, ◌-◌, ◌*◌, ◌<◌, ◌≤◌, ◌++◌, ◌^◌, ℕ, length, map, All};
ghost use Rattle.std.specs.Prelude.{Contains, IfOk, OnOk, slice_range};
ghost use Rattle.std.specs.List.{flat_map, concat};
ghost use Rattle.pl_rows.specs.Rows.{AreRows, SameRows};
ghost use Rattle.pl_join.specs.Relation.{AreDistinct, IsJoinOf, IsProjectionOf, without};
ghost use Rattle.pl_join.specs.Source.{glued, joined_with};

use crate::laws::relation_is_one;
use crate::projection::project;
use crate::relation::Relation;
use crate::semijoins::{other_classes, restricted, shared_classes};
use crate::short_list::ShortList;
use crate::source::{append, columns_of, pick, zeros};
use pl_rows::{Indexed, Range, Table};
use pl_steps::Steps;
use std::alloc::{AllocError, Global};
use std::sync::ledger::Ledger;

/// The join: over the classes of `left`, then the other classes of `right` in their order, the rows whose
/// parts are in both relations.
///
/// The rows of `right` are indexed by the shared classes, and looked up for each row of `left`. So the rows
/// come out in order, and are not sorted.
pub fn hash_join<L: Ledger>(
    alloc: Global,
    left: &Relation,
    right: &Relation,
    steps: &mut Steps<L>,
) -> Result<Relation, AllocError>
    ensures classes { IfOk result (λ r. r.classes ≡ left.now.classes ++
        without right.now.classes left.now.classes) }
    ensures rows { IfOk result (IsJoinOf left.now right.now) }
    ensures rise { steps.old ≤ steps.new }
{
    let classes = left.classes();
    let others = right.classes();
    let rest = other_classes(alloc, others, classes)?;
    let rest = rest.as_slice();
    if rest.is_empty() {
        return restricted(alloc, left, right, steps);
    }
    let shared = shared_classes(alloc, others, classes)?;
    let shared = shared.as_slice();
    let columns = columns_of(alloc, classes, shared)?;
    let index = indexed(alloc, right, shared, rest, steps)?;
    let table = joined_rows(alloc, left.table(), &index, columns.as_slice(), steps)?;
    Ok(Relation::new(appended(alloc, classes, rest)?, table))
}

/// The rows of the relation with the shared classes first, then the rest, indexed by the shared classes.
fn indexed<L: Ledger>(
    alloc: Global,
    relation: &Relation,
    shared: &[u32],
    rest: &[u32],
    steps: &mut Steps<L>,
) -> Result<Indexed, AllocError>
    requires held { All (Contains relation.now.classes) (shared.now ++ rest.now) }
    requires distinct { AreDistinct (shared.now ++ rest.now) }
    ensures arity { IfOk result (λ x. x.table.arity ≡ length shared.now + length rest.now) }
    ensures width { IfOk result (λ x. x.width ≡ length shared.now) }
    ensures are_rows { IfOk result (λ x. AreRows (length shared.now + length rest.now) x.table.rows) }
    ensures rows { IfOk result (λ x. IsProjectionOf relation.now
        (record { classes = shared.now ++ rest.now; rows = x.table.rows })) }
    ensures rise { steps.old ≤ steps.new }
{
    let order = appended(alloc, shared, rest)?;
    let arranged = project(alloc, relation, order.as_slice(), steps)?;
    relation_is_one(&arranged);
    Indexed::build(alloc, arranged.into_table(), shared.len() as u32, steps)
}

/// The one list, and behind it the other.
pub fn appended(
    alloc: Global,
    classes: &[u32],
    others: &[u32],
) -> Result<ShortList<u32>, AllocError>
    ensures { IfOk result (λ all. all.items ≡ classes.now ++ others.now) }
{
    let mut all = ShortList::from_slice(alloc, classes)?;
    all.extend_from_slice(others)?;
    Ok(all)
}

/// Behind each row of the left table, each row of the index whose key is the row's values in the columns.
fn joined_rows<L: Ledger>(
    alloc: Global,
    left: &Table,
    index: &Indexed,
    columns: &[usize],
    steps: &mut Steps<L>,
) -> Result<Table, AllocError>
    requires within { All (λ column. column < left.now.arity) columns.now }
    requires width { length columns.now ≡ index.now.width }
    requires some { index.now.width < index.now.table.arity }
    requires few { left.now.arity + index.now.table.arity < 2 ^ 32 }
    requires rows { AreRows index.now.table.arity index.now.table.rows }
    ensures arity { IfOk result (λ t. t.arity ≡ left.now.arity + (index.now.table.arity - index.now.width)) }
    ensures rows { IfOk result
        (λ t. AreRows (left.now.arity + (index.now.table.arity - index.now.width)) t.rows) }
    ensures same { IfOk result (λ t. SameRows t.rows
        (flat_map (joined_with index.now.table.rows columns.now) left.now.rows)) }
    ensures rise { steps.old ≤ steps.new }
{
    let table = index.table();
    let arity = left.arity() + (table.arity() - index.width());
    let mut flat = Vec::new(alloc);
    let mut key = zeros(alloc, columns.len())?;
    let key = key.as_mut_slice();
    for i in 0..left.len() {
        let row = left.row(i, steps);
        pick(key, row, columns);
        let range = index.find(key, steps);
        append_matches(&mut flat, row, table, range, key.len(), steps)?;
    }
    let count = flat.len() / arity as usize;
    Table::from_rows(alloc, arity, count, flat)
}

/// Appends the row once for each row of the range, and behind it that row without its first `width` values.
fn append_matches<L: Ledger>(
    flat: &mut Vec<u32>,
    row: &[u32],
    table: &Table,
    range: Range,
    width: usize,
    steps: &mut Steps<L>,
) -> Result<(), AllocError>
    requires in_order { range.from ≤ range.to }
    requires within { range.to ≤ length table.now.rows }
    requires width { width ≤ table.now.arity }
    ensures matches { OnOk result (flat.new.items
        ≡ flat.old.items
        ++ concat (map (glued width row.now) (slice_range table.now.rows range.from range.to))) }
    ensures rise { steps.old ≤ steps.new }
{
    for place in range.from..range.to {
        append(flat, row)?;
        let other = table.row(place, steps);
        append(flat, &other[width..])?;
    }
    Ok(())
}
