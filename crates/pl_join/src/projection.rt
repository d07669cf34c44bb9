//! The projection of a relation onto some of its classes.

ghost use Rattle.std.specs.Prelude.{◌≡◌, ◌↔◌, ◌+◌, ◌-◌, ◌*◌, ◌<◌, ◌≤◌, ◌^◌, ◌++◌, ◌∷◌, [], ℕ};
ghost use Rattle.std.specs.Prelude.{length, drop, map, All, Contains, IsTrue, IfOk, OnOk};
ghost use Rattle.pl_rows.specs.Rows.{AreRows, SameRows, rows_of};
ghost use Rattle.pl_join.specs.Relation.{AreDistinct, IsProjectionOf};
ghost use Rattle.pl_join.specs.Source.{picked};

use crate::relation::Relation;
use crate::short_list::ShortList;
use crate::source::{append_picked, columns_of, room_for};
use pl_rows::Table;
use pl_steps::Steps;
use std::alloc::{AllocError, Global};
use std::sync::ledger::Ledger;

/// The projection onto distinct classes of the relation, over these classes in the given order.
///
/// It takes at most one probe per row. A row that repeats the one before is left out at once, so that the
/// rows of the first classes come out in order; other rows are sorted unless they do so too. Onto all classes
/// in their order it is a copy.
pub fn project<L: Ledger>(
    alloc: Global,
    relation: &Relation,
    classes: &[u32],
    steps: &mut Steps<L>,
) -> Result<Relation, AllocError>
    requires held { All (Contains relation.now.classes) classes.now }
    requires distinct { AreDistinct classes.now }
    ensures classes { IfOk result (λ r. r.classes ≡ classes.now) }
    ensures rows { IfOk result (IsProjectionOf relation.now) }
    ensures most { IfOk result (λ r. length r.rows ≤ length relation.now.rows) }
    ensures cost { steps.new ≤ steps.old + length relation.now.rows }
    ensures rise { steps.old ≤ steps.new }
{
    let held = relation.classes();
    if held == classes {
        return relation.copied(alloc);
    }
    let columns = columns_of(alloc, held, classes)?;
    let table = picked_rows(alloc, relation.table(), columns.as_slice(), steps)?;
    Ok(Relation::new(ShortList::from_slice(alloc, classes)?, table))
}

/// The rows of some columns, each once.
pub fn picked_rows<L: Ledger>(
    alloc: Global,
    table: &Table,
    columns: &[usize],
    steps: &mut Steps<L>,
) -> Result<Table, AllocError>
    requires within { All (λ column. column < table.now.arity) columns.now }
    requires few { length columns.now < 2 ^ 32 }
    ensures arity { IfOk result (λ t. t.arity ≡ length columns.now) }
    ensures rows { IfOk result (λ t. AreRows (length columns.now) t.rows) }
    ensures same { IfOk result (λ t. SameRows t.rows (map (picked columns.now) table.now.rows)) }
    ensures most { IfOk result (λ t. length t.rows ≤ length table.now.rows) }
    ensures cost { steps.new ≤ steps.old + length table.now.rows }
    ensures rise { steps.old ≤ steps.new }
{
    let len = table.len();
    let mut flat = room_for(alloc, len, columns.len())?;
    let mut count = 0;
    for i in 0..len {
        let row = table.row(i, steps);
        count = append_new(&mut flat, count, row, columns)?;
    }
    Table::from_rows(alloc, columns.len() as u32, count, flat)
}

/// Appends the row's values in the columns to `count` such rows, unless they are the last of these: how many
/// rows there are then.
#[inline]
fn append_new(
    flat: &mut Vec<u32>,
    count: usize,
    row: &[u32],
    columns: &[usize],
) -> Result<usize, AllocError>
    requires within { All (λ column. column < length row.now) columns.now }
    requires whole { length flat.old.items ≡ length columns.now * count }
    requires few { count < usize.MAX }
    ensures whole { IfOk result (λ n. length flat.new.items ≡ length columns.now * n) }
    ensures most { IfOk result (λ n. n ≤ count + 1) }
    ensures rows { IfOk result (λ n. SameRows (rows_of (length columns.now) n flat.new.items)
        (rows_of (length columns.now) count flat.old.items ++ picked columns.now row.now ∷ [])) }
{
    if 0 < count && ends_with(flat, row, columns) {
        return Ok(count);
    }
    append_picked(flat, row, columns)?;
    Ok(count + 1)
}

/// Whether the last values are those of the row in the columns.
#[inline]
fn ends_with(flat: &[u32], row: &[u32], columns: &[usize]) -> bool
    requires long { length columns.now ≤ length flat.now }
    requires within { All (λ column. column < length row.now) columns.now }
    ensures { IsTrue result
        ↔ (drop (length flat.now - length columns.now) flat.now ≡ picked columns.now row.now) }
{
    are_picked(&flat[flat.len() - columns.len()..], row, columns)
}

/// Whether the values are those of the row in the columns.
#[inline]
fn are_picked(values: &[u32], row: &[u32], columns: &[usize]) -> bool
    requires len { length values.now ≡ length columns.now }
    requires within { All (λ column. column < length row.now) columns.now }
    ensures { IsTrue result ↔ (values.now ≡ picked columns.now row.now) }
{
    for (i, column) in columns.iter().enumerate() {
        if values[i] != row[*column] {
            return false;
        }
    }
    true
}
