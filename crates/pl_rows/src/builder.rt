//! A table that is being made of rows of other tables.

ghost use Rattle.std.specs.Prelude.{◌≡◌, ◌+◌, ◌*◌, ◌^◌, ◌-◌, ◌<◌, ◌≤◌, ◌++◌, ◌∷◌, [], length, take};
ghost use Rattle.std.specs.Prelude.{IfOk, OnOk, slice_range};
ghost use Rattle.pl_rows.specs.Rows.{rows_of, AreRows, IsAscending, SameRows};

use crate::range::Range;
use crate::table::Table;
use std::alloc::{AllocError, Global};
use std::marker::Model;

/// A table that is being made: rows of one width, one behind another, in any order.
///
/// It takes over rows of a table without a probe, and lets none be read: they are read in the table that it
/// becomes.
#[derive(Drop)]
pub struct TableBuilder {
    arity: u32,
    count: usize,
    flat: Vec<u32>,
}

impl Model for TableBuilder {
    ghost use Rattle.std.specs.Prelude.{◌≡◌, ◌*◌, length};
    ghost use Rattle.pl_rows.specs.Rows.{Rows, rows_of};

    ghost Value = { Rows };

    ghost view = { λ b. record { arity = b.arity; rows = rows_of b.arity b.count b.flat.items } };

    ghost invariant = { λ b. length b.flat.items ≡ b.arity * b.count };
}

impl TableBuilder {
    /// No row yet. It takes no memory.
    pub fn new(alloc: Global, arity: u32) -> TableBuilder
        ensures { result ≡ record { arity = arity; rows = [] } }
    {
        TableBuilder {
            arity,
            count: 0,
            flat: Vec::new(alloc),
        }
    }

    /// The first `count` rows of a table. It takes no probe. The only error is want of memory.
    pub fn front_of(alloc: Global, table: &Table, count: usize) -> Result<TableBuilder, AllocError>
        requires { count ≤ length table.now.rows }
        ensures { IfOk result (λ b. b ≡ record {
          arity = table.now.arity;
          rows = take count table.now.rows;
        }) }
    {
        let arity = table.arity();
        let flat = Vec::from_slice(alloc, table.part(Range { from: 0, to: count }))?;
        Ok(TableBuilder { arity, count, flat })
    }

    /// A row more. The only error is want of memory.
    pub fn push(&mut self, row: &[u32]) -> Result<(), AllocError>
        requires width { length row.now ≡ self.old.arity }
        requires few { length self.old.rows < usize.MAX }
        ensures arity { self.new.arity ≡ self.old.arity }
        ensures rows { OnOk result (self.new.rows ≡ self.old.rows ++ row.now ∷ []) }
    {
        let len = self.flat.len();
        if let Err(error) = append(&mut self.flat, row) {
            self.flat.truncate(len);
            return Err(error);
        }
        self.count += 1;
        Ok(())
    }

    /// The rows of a table in a range of places. It takes no probe. The only error is want of memory.
    pub fn push_range(&mut self, table: &Table, range: Range) -> Result<(), AllocError>
        requires arity { table.now.arity ≡ self.old.arity }
        requires few { length self.old.rows + (range.to - range.from) < 2 ^ 64 }
        requires in_order { range.from ≤ range.to }
        requires within { range.to ≤ length table.now.rows }
        ensures arity { self.new.arity ≡ self.old.arity }
        ensures rows { OnOk result (self.new.rows
            ≡ self.old.rows ++ slice_range table.now.rows range.from range.to) }
    {
        self.flat.extend_from_slice(table.part(range))?;
        self.count += range.to - range.from;
        Ok(())
    }

    /// The table of the rows, where they are known to ascend: they are neither compared nor copied.
    pub fn into_ascending(self) -> Table
        requires { IsAscending self.rows }
        ensures { result ≡ self }
    {
        Table::from_ascending(self.arity, self.count, self.flat)
    }

    /// The table of the rows, as `Table::from_rows` makes it. The only error is want of memory.
    pub fn into_table(self, alloc: Global) -> Result<Table, AllocError>
        ensures arity { IfOk result (λ t. t.arity ≡ self.arity) }
        ensures rows { IfOk result (λ t. AreRows self.arity t.rows) }
        ensures same { IfOk result (λ t. SameRows t.rows self.rows) }
        ensures most { IfOk result (λ t. length t.rows ≤ length self.rows) }
    {
        Table::from_rows(alloc, self.arity, self.count, self.flat)
    }
}

/// Appends the values. For the few values of a row it is faster than `extend_from_slice`.
#[inline]
fn append(flat: &mut Vec<u32>, values: &[u32]) -> Result<(), AllocError>
    ensures items { OnOk result (flat.new.items ≡ flat.old.items ++ values.now) }
    ensures longer { length flat.old.items ≤ length flat.new.items }
{
    for value in values {
        flat.push(*value)?;
    }
    Ok(())
}
