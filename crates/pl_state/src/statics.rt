//! The atoms that no step changes, sorted once a task.

ghost use Rattle.std.specs.Prelude.{◌≡◌, ◌↔◌, length, true, false, Some, Contains, IfOk, IsTrue, slice_get};
ghost use Rattle.pl_task.specs.States.{initial};
ghost use Rattle.pl_task.specs.WellFormed.{IsAtomOf};
ghost use Rattle.pl_state.specs.Layout.{atom_of};
ghost use Rattle.pl_state.specs.StateOf.{is_fluent_in, state_in, IsStateOf};
ghost use Rattle.pl_state.specs.Statics.{IsAtomTable, AreStaticAtoms};

use crate::fluents::holds_fluent;
use crate::packed::Packed;
use crate::packing::atom_table;
use pl_rows::bisect::has_row;
use pl_rows::{Range, Table};
use pl_task::{PredicateDef, Task};
use std::alloc::{AllocError, Global};
use std::marker::Model;

/// The atoms over static predicates for a search, which asks for them often: sorted once a task, and found by
/// bisection.
///
/// Contracts see the list of its tables, one for each predicate. That of a fluent predicate says nothing.
#[derive(Drop)]
pub struct StaticAtoms {
    tables: Vec<Table>,
}

impl Model for StaticAtoms {
    ghost use Rattle.std.specs.Prelude.{List};
    ghost use Rattle.pl_rows.specs.Rows.{Rows};

    ghost Value = { List Rows };

    ghost view = { λ statics. statics.tables.items };
}

impl StaticAtoms {
    /// The static atoms of the task. The only error is want of memory.
    pub fn of(alloc: Global, task: &Task) -> Result<StaticAtoms, AllocError>
        ensures { IfOk result (AreStaticAtoms task.now) }
    {
        let tables = static_tables(alloc, task)?;
        Ok(StaticAtoms { tables })
    }

    /// Whether an atom over a static predicate is true, initially and so in each state.
    pub fn has(&self, _task: &Task, predicate: u32, args: &[u32]) -> bool
        requires statics { AreStaticAtoms _task.now self.now }
        requires atom { IsAtomOf _task.now.objects _task.now.predicates (atom_of predicate args.now) }
        requires unchanging { is_fluent_in _task.now predicate ≡ false }
        ensures { result ≡ initial _task.now (atom_of predicate args.now) }
    {
        table_has(&self.tables[predicate as usize], args)
    }

    /// Whether an atom of the task is true in the state, by bisection alone.
    pub fn holds(&self, task: &Task, state: &Packed, predicate: u32, args: &[u32]) -> bool
        requires statics { AreStaticAtoms task.now self.now }
        requires state { IsStateOf task.now state.now }
        requires atom { IsAtomOf task.now.objects task.now.predicates (atom_of predicate args.now) }
        ensures { result ≡ state_in task.now state.now (atom_of predicate args.now) }
    {
        if task.predicates.as_slice()[predicate as usize].is_static {
            return self.has(task, predicate, args);
        }
        holds_fluent(task, state, predicate, args)
    }
}

/// The tables of all predicates.
fn static_tables(alloc: Global, task: &Task) -> Result<Vec<Table>, AllocError>
    ensures { IfOk result (λ tables. AreStaticAtoms task.now tables.items) }
{
    let predicates = task.predicates.as_slice();
    let mut tables = Vec::with_capacity(alloc, predicates.len())?;
    for number in 0..predicates.len() {
        let table = static_table(alloc, task, number as u32, &predicates[number])?;
        tables.push(table)?;
    }
    Ok(tables)
}

/// The table of a predicate: its initial atoms if it is static, and no row if it is fluent.
fn static_table(
    alloc: Global,
    task: &Task,
    predicate: u32,
    definition: &PredicateDef,
) -> Result<Table, AllocError>
    requires { slice_get task.now.predicates predicate ≡ Some definition.now }
    ensures { IfOk result (λ table. definition.now.is_static ≡ true
        → IsAtomTable (initial task.now) predicate definition.now.arity table) }
{
    if !definition.is_static {
        return Ok(Table::from_ascending(definition.arity, 0, Vec::new(alloc)));
    }
    atom_table(alloc, task.init.as_slice(), predicate, definition.arity)
}

/// Whether the table has the row.
fn table_has(table: &Table, row: &[u32]) -> bool
    requires { length row.now ≡ table.now.arity }
    ensures { IsTrue result ↔ Contains table.now.rows row.now }
{
    let count = table.len();
    let flat = table.part(Range { from: 0, to: count });
    has_row(flat, table.arity() as usize, count, row)
}
