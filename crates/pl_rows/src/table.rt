//! A table: what callers make, ask and read.

ghost use Rattle.std.specs.Prelude.{◌≡◌, ◌↔◌, ◌+◌, ◌*◌, ◌-◌, ◌<◌, ◌≤◌, ◌^◌, List, ℕ, length};
ghost use Rattle.std.specs.Prelude.{count_by, IfOk, IsTrue, Contains, All, slice_get, slice_range};
ghost use Rattle.std.specs.Prelude.{vec_len};
ghost use Rattle.pl_rows.specs.Rows.{rows_of, AreRows, IsAscending, SameRows, is_below, AreFirst};
ghost use Rattle.pl_rows.specs.Layout.{IsNarrowed, comes_before, takes_equal};

use crate::bisect::{Bound, bisect, has_row, row_at, rows_between};
use crate::nearby::has_row_near;
use crate::range::Range;
use crate::sort::{are_ascending, sorted_rows};
use pl_steps::Steps;
use std::alloc::{AllocError, Global};
use std::marker::Model;
use std::sync::ledger::Ledger;

/// A relation of numbers: a set of rows with as many values each as the table's arity.
///
/// The rows stand in ascending lexicographic order, each once, so two tables with the same set of rows are
/// the same. They lie one after another in one block of memory. A table of arity 0 has no row, or the one
/// empty row.
#[derive(Drop)]
pub struct Table {
    arity: u32,
    count: usize,
    flat: Vec<u32>,
}

impl Model for Table {
    ghost use Rattle.pl_rows.specs.Rows.{Rows, rows_of};
    ghost use Rattle.pl_rows.specs.Layout.{IsLaidOut};

    ghost Value = { Rows };

    ghost view = { λ t. record { arity = t.arity; rows = rows_of t.arity t.count t.flat.items } };

    ghost invariant = { λ t. IsLaidOut t.arity t.count t.flat.items };
}

impl Table {
    /// The table of the rows that lie one after another in `flat`, `rows` of them with `arity` values each.
    ///
    /// They may come in any order and repeat. Rows that ascend already are recognised in one pass, and `flat`
    /// is kept as it is. Other rows are sorted by `n log n` comparisons. The only error is want of memory.
    pub fn from_rows(
        alloc: Global,
        arity: u32,
        rows: usize,
        flat: Vec<u32>,
    ) -> Result<Table, AllocError>
        requires { vec_len flat ≡ arity * rows }
        ensures arity { IfOk result (λ t. t.arity ≡ arity) }
        ensures rows { IfOk result (λ t. AreRows arity t.rows) }
        ensures same { IfOk result (λ t. SameRows t.rows (rows_of arity rows flat.items)) }
        ensures most { IfOk result (λ t. length t.rows ≤ rows) }
    {
        if are_ascending(&flat, arity as usize, rows) {
            return Ok(Table {
                arity,
                count: rows,
                flat,
            });
        }
        let (count, flat) = sorted_rows(alloc, &flat, arity as usize, rows)?;
        Ok(Table { arity, count, flat })
    }

    /// The table of rows that are known to ascend: they are neither compared nor copied.
    pub fn from_ascending(arity: u32, rows: usize, flat: Vec<u32>) -> Table
        requires whole { vec_len flat ≡ arity * rows }
        requires ascending { IsAscending (rows_of arity rows flat.items) }
        ensures { result ≡ record { arity = arity; rows = rows_of arity rows flat.items } }
    {
        Table {
            arity,
            count: rows,
            flat,
        }
    }

    /// A copy of the table. It takes no probe. The only error is want of memory.
    pub fn copied(&self, alloc: Global) -> Result<Table, AllocError>
        ensures same { IfOk result (λ t. t ≡ self.now) }
        ensures rows { AreRows self.now.arity self.now.rows }
    {
        let flat = Vec::from_slice(alloc, &self.flat)?;
        Ok(Table {
            arity: self.arity,
            count: self.count,
            flat,
        })
    }

    /// How many values each row has.
    pub fn arity(&self) -> u32
        ensures { result ≡ self.now.arity }
    {
        self.arity
    }

    /// How many rows the table has. It takes no probe.
    pub fn len(&self) -> usize
        ensures len { result ≡ length self.now.rows }
        ensures rows { AreRows self.now.arity self.now.rows }
        ensures values { All (λ row. All (λ value. value < 2 ^ 32) row) self.now.rows }
    {
        self.count
    }

    /// Whether the table has no row. It takes no probe.
    pub fn is_empty(&self) -> bool
        ensures { IsTrue result ↔ (length self.now.rows ≡ 0) }
    {
        self.count == 0
    }

    /// Row `i`, counted from 0, in one probe.
    pub fn row<L: Ledger>(&self, i: usize, steps: &mut Steps<L>) -> &[u32]
        requires { i < length self.now.rows }
        ensures row { slice_get self.now.rows i ≡ Some result.now }
        ensures width { length result.now ≡ self.now.arity }
        ensures cost { steps.new ≡ steps.old + 1 }
    {
        steps.tick();
        row_at(&self.flat, self.arity as usize, self.count, i)
    }

    /// The number of rows whose first values are below the prefix, in one probe: the place of the first row
    /// whose aren't.
    ///
    /// A prefix has any number of values up to the arity. No row is below the empty prefix. It takes `log n`
    /// comparisons.
    pub fn first_from<L: Ledger>(&self, prefix: &[u32], steps: &mut Steps<L>) -> usize
        requires { length prefix.now ≤ self.now.arity }
        ensures count { result ≡ count_by (is_below prefix.now) self.now.rows }
        ensures first { AreFirst (is_below prefix.now) self.now.rows result }
        ensures cost { steps.new ≡ steps.old + 1 }
    {
        steps.tick();
        self.bisected(prefix, Bound::Below, 0, self.count)
    }

    /// Whether the table has the row, in one probe. It takes `log n` comparisons.
    pub fn has<L: Ledger>(&self, row: &[u32], steps: &mut Steps<L>) -> bool
        requires { length row.now ≡ self.now.arity }
        ensures has { IsTrue result ↔ Contains self.now.rows row.now }
        ensures cost { steps.new ≡ steps.old + 1 }
    {
        steps.tick();
        has_row(&self.flat, self.arity as usize, self.count, row)
    }

    /// Whether the table has the row, in one probe. The row is looked for from the place `near` on, which may
    /// be any, and which is then where it stands or would stand.
    ///
    /// It takes about as many comparisons as the logarithm of how far that place is from `near`. So rows that
    /// come in order are looked for in few comparisons each, and so are the values of one column that has no
    /// gaps.
    pub fn has_near<L: Ledger>(&self, row: &[u32], near: &mut usize, steps: &mut Steps<L>) -> bool
        requires { length row.now ≡ self.now.arity }
        ensures has { IsTrue result ↔ Contains self.now.rows row.now }
        ensures cost { steps.new ≡ steps.old + 1 }
    {
        steps.tick();
        has_row_near(&self.flat, self.arity as usize, self.count, row, near)
    }

    /// The values of the rows in a range of places, one row after another. It takes no probe.
    pub fn part(&self, range: Range) -> &[u32]
        requires in_order { range.from ≤ range.to }
        requires within { range.to ≤ length self.now.rows }
        ensures whole { length result.now ≡ self.now.arity * (range.to - range.from) }
        ensures rows { rows_of self.now.arity (range.to - range.from) result.now
            ≡ slice_range self.now.rows range.from range.to }
    {
        rows_between(&self.flat, self.arity as usize, self.count, range)
    }

    /// Row `i`, counted from 0. It takes no probe.
    pub(crate) fn row_unprobed(&self, i: usize) -> &[u32]
        requires { i < length self.now.rows }
        ensures row { slice_get self.now.rows i ≡ Some result.now }
        ensures width { length result.now ≡ self.now.arity }
    {
        row_at(&self.flat, self.arity as usize, self.count, i)
    }

    /// How many rows the bound takes: those whose first values are below the prefix, or at most the prefix.
    ///
    /// That the rows before `low` are among them, and those from `high` on are not, is known. It takes no
    /// probe.
    pub(crate) fn bisected(&self, prefix: &[u32], bound: Bound, low: usize, high: usize) -> usize
        requires short { length prefix.now ≤ self.now.arity }
        requires in_order { low ≤ high }
        requires within { high ≤ length self.now.rows }
        requires narrowed { IsNarrowed (comes_before (takes_equal bound) prefix.now) self.now.rows low high }
        ensures from { low ≤ result }
        ensures to { result ≤ high }
        ensures narrowed { IsNarrowed (comes_before (takes_equal bound) prefix.now)
            self.now.rows result result }
    {
        bisect(
            &self.flat,
            self.arity as usize,
            self.count,
            prefix,
            bound,
            low,
            high,
        )
    }
}
