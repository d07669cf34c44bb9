//! The rows of an index whose keys are the rows of a table.

ghost use Rattle.std.specs.Prelude.{◌≡◌, ◌↔◌, ◌+◌, ◌*◌, ◌<◌, ◌≤◌, ◌^◌, length, filter, IsTrue, IfOk, IfSome};
ghost use Rattle.std.specs.Prelude.{IfNone, OnOk};
ghost use Rattle.pl_rows.specs.Rows.{AreRows, SameRows};
ghost use Rattle.pl_join.specs.Found.{has_key, rows_in, AreRanges, AreFound};

use pl_rows::{Indexed, Range, Table, TableBuilder};
use pl_steps::Steps;
use std::alloc::{AllocError, Global};
use std::sync::ledger::Ledger;

/// A buffer in which a reduction of a keyed relation notes where the rows stand that it finds.
///
/// What it holds between calls means nothing. Many reductions that share one take memory for it only where
/// one of them finds more than all before.
#[derive(Drop)]
pub struct Ranges {
    found: Vec<Range>,
}

impl Ranges {
    /// A buffer that takes no memory until it is first used.
    pub fn new(alloc: Global) -> Ranges {
        Ranges {
            found: Vec::new(alloc),
        }
    }
}

/// The rows of the index whose keys are rows of the table, where some are not; None where all are, and then
/// nothing is copied.
///
/// It takes two probes per row of the table, one of them a look-up.
pub fn rows_found<L: Ledger>(
    alloc: Global,
    indexed: &Indexed,
    keys: &Table,
    ranges: &mut Ranges,
    steps: &mut Steps<L>,
) -> Result<Option<Table>, AllocError>
    requires width { keys.now.arity ≡ indexed.now.width }
    ensures all { IfOk result (λ r. IfNone r
        (filter (has_key keys.now.rows indexed.now.width) indexed.now.table.rows ≡ indexed.now.table.rows)) }
    ensures arity { IfOk result (λ r. IfSome r (λ t. t.arity ≡ indexed.now.table.arity)) }
    ensures rows { IfOk result (λ r. IfSome r (λ t. AreRows indexed.now.table.arity t.rows)) }
    ensures same { IfOk result (λ r. IfSome r (λ t. SameRows t.rows
        (filter (has_key keys.now.rows indexed.now.width) indexed.now.table.rows))) }
    ensures fewer { IfOk result (λ r. IfSome r (λ t. length t.rows < length indexed.now.table.rows)) }
    ensures cost { steps.new ≤ steps.old + 2 * length keys.now.rows }
    ensures rise { steps.old ≤ steps.new }
{
    find_ranges(&mut ranges.found, indexed, keys, steps)?;
    let ranges = ranges.found.as_slice();
    let table = indexed.table();
    if cover_all(ranges, table) {
        return Ok(None);
    }
    Ok(Some(gathered(alloc, ranges, table)?))
}

/// Makes `ranges` the list of where the rows of the index stand whose keys are the rows of the table, one for
/// each row.
fn find_ranges<L: Ledger>(
    ranges: &mut Vec<Range>,
    indexed: &Indexed,
    keys: &Table,
    steps: &mut Steps<L>,
) -> Result<(), AllocError>
    requires { keys.now.arity ≡ indexed.now.width }
    ensures keys { AreRows keys.now.arity keys.now.rows }
    ensures found { OnOk result (AreFound indexed.now.table.rows keys.now.rows ranges.new.items) }
    ensures cost { steps.new ≤ steps.old + 2 * length keys.now.rows }
    ensures rise { steps.old ≤ steps.new }
{
    let len = keys.len();
    ranges.clear();
    ranges.reserve(len)?;
    for i in 0..len {
        let key = keys.row(i, steps);
        ranges.push(indexed.find(key, steps))?;
    }
    Ok(())
}

/// Whether the ranges have as many rows as the table. They have each of its rows at most once.
fn cover_all(ranges: &[Range], table: &Table) -> bool
    requires most { length (rows_in table.now.rows ranges.now) ≤ length table.now.rows }
    requires within { AreRanges (length table.now.rows) ranges.now }
    ensures all { IsTrue result ↔ (length (rows_in table.now.rows ranges.now) ≡ length table.now.rows) }
    ensures few { length table.now.rows < 2 ^ 64 }
{
    let len = table.len();
    let mut count = 0;
    for range in ranges {
        count += range.to - range.from;
    }
    count == len
}

/// The table of the rows in the ranges. It takes no probe.
fn gathered(alloc: Global, ranges: &[Range], table: &Table) -> Result<Table, AllocError>
    requires most { length (rows_in table.now.rows ranges.now) ≤ length table.now.rows }
    requires within { AreRanges (length table.now.rows) ranges.now }
    requires few { length table.now.rows < 2 ^ 64 }
    ensures arity { IfOk result (λ t. t.arity ≡ table.now.arity) }
    ensures rows { IfOk result (λ t. AreRows table.now.arity t.rows) }
    ensures same { IfOk result (λ t. SameRows t.rows (rows_in table.now.rows ranges.now)) }
    ensures fewer { IfOk result (λ t. length t.rows ≤ length (rows_in table.now.rows ranges.now)) }
{
    let mut found = TableBuilder::new(alloc, table.arity());
    for range in ranges {
        found.push_range(table, *range)?;
    }
    found.into_table(alloc)
}
