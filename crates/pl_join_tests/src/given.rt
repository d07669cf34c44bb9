//! Tables and relations as cases give them.

use crate::classes::{are_below, are_distinct, are_held};
use pl_join::{Relation, Slot, project, select};
use pl_rows::Table;
use pl_steps::Steps;
use std::alloc::{AllocError, Global};
use std::sync::ledger::Ledger;

/// The rows of a table: how many values each has, how many rows there are, and their values one after another.
#[derive(Clone, Copy)]
pub struct Rows<'a>(pub u32, pub usize, pub &'a [u32]);

/// The empty row.
pub const ONE: Rows<'static> = Rows(0, 1, &[]);

/// No row, of no column.
pub const NONE: Rows<'static> = Rows(0, 0, &[]);

/// The objects a, b and c, which are 0, 1 and 2.
pub const OBJECTS: Rows<'static> = Rows(1, 3, &[0, 1, 2]);

/// The edge of a and b, both ways.
pub const PAIR: Rows<'static> = Rows(2, 2, &[0, 1, 1, 0]);

/// The edges of the path a - b - c, both ways: a b, c b, b a and b c.
pub const PATH: Rows<'static> = Rows(2, 4, &[0, 1, 2, 1, 1, 0, 1, 2]);

/// The edges of a circle, one way: a b, b c and c a.
pub const CIRCLE: Rows<'static> = Rows(2, 3, &[0, 1, 1, 2, 2, 0]);

/// The table of the rows; None where they are not as many as they say.
pub fn table_of(alloc: Global, rows: Rows<'_>) -> Result<Option<Table>, AllocError> {
    let Rows(arity, count, flat) = rows;
    if (arity as usize).checked_mul(count) != Some(flat.len()) {
        return Ok(None);
    }
    let flat = Vec::from_slice(alloc, flat)?;
    Ok(Some(Table::from_rows(alloc, arity, count, flat)?))
}

/// Whether these are the table's rows, in its order.
pub fn reads<L: Ledger>(table: &Table, rows: &[&[u32]], steps: &mut Steps<L>) -> bool {
    if table.len() != rows.len() || table.is_empty() != rows.is_empty() {
        return false;
    }
    for (i, row) in rows.iter().enumerate() {
        if table.row(i, steps) != *row {
            return false;
        }
    }
    true
}

/// The relation that the slots select from the table of the rows; None where there is not one slot a column,
/// or a class is no class.
pub fn relation_of<L: Ledger>(
    alloc: Global,
    rows: Rows<'_>,
    slots: &[Slot],
    steps: &mut Steps<L>,
) -> Result<Option<Relation>, AllocError> {
    let Some(table) = table_of(alloc, rows)? else {
        return Ok(None);
    };
    if slots.len() != table.arity() as usize || !are_below(slots) {
        return Ok(None);
    }
    Ok(Some(select(alloc, &table, slots, steps)?))
}

/// The projection to the classes; None where one is not held, or stands twice.
pub fn projected<L: Ledger>(
    alloc: Global,
    relation: &Relation,
    classes: &[u32],
    steps: &mut Steps<L>,
) -> Result<Option<Relation>, AllocError> {
    let held = relation.classes();
    if !are_held(held, classes) || !are_distinct(classes) {
        return Ok(None);
    }
    Ok(Some(project(alloc, relation, classes, steps)?))
}
