//! The true atoms of a state as tables.

ghost use Rattle.std.specs.Prelude.{◌≡◌, ◌<◌, Some, length, IfOk, slice_get};
ghost use Rattle.std.specs.Option.{option_copied};
ghost use Rattle.pl_state.specs.StateOf.{state_in, IsStateOf};
ghost use Rattle.pl_state.specs.Tables.{AreTablesOf};

use crate::packed::Packed;
use crate::parts::{part_end, part_in};
use pl_rows::Table;
use pl_task::Task;
use std::alloc::{AllocError, Global};
use std::marker::Model;

/// A table of the true atoms of a state for each fluent predicate.
///
/// Contracts see the list of them, with a place for each predicate.
#[derive(Drop)]
pub struct StateTables {
    tables: Vec<Option<Table>>,
}

impl Model for StateTables {
    ghost use Rattle.std.specs.Prelude.{List, Option};
    ghost use Rattle.pl_rows.specs.Rows.{Rows};

    ghost Value = { List (Option Rows) };

    ghost view = { λ tables. tables.tables.items };
}

impl StateTables {
    /// The table of a predicate: one row of objects for each of its true atoms. None exactly for a static
    /// predicate.
    pub fn of(&self, predicate: u32) -> Option<&Table>
        requires { predicate < length self.now }
        ensures { slice_get self.now predicate ≡ Some (option_copied result) }
    {
        self.tables[predicate as usize].as_ref()
    }

    /// The tables by the numbers of their predicates, with None for each static one.
    pub fn as_slice(&self) -> &[Option<Table>]
        ensures { result.now ≡ self.now }
    {
        self.tables.as_slice()
    }
}

/// The tables of a state. The words are copied as they are: they are neither sorted nor compared.
///
/// The only error is want of memory. `true_rows` lends the rows of one predicate without a copy.
pub fn tables(alloc: Global, task: &Task, state: &Packed) -> Result<StateTables, AllocError>
    requires { IsStateOf task.now state.now }
    ensures { IfOk result (AreTablesOf task.now (state_in task.now state.now)) }
{
    let made = tables_in(alloc, task, state.words())?;
    Ok(StateTables { tables: made })
}

fn tables_in(alloc: Global, task: &Task, words: &[u32]) -> Result<Vec<Option<Table>>, AllocError>
    requires { IsStateOf task.now words.now }
    ensures { IfOk result (λ tables. AreTablesOf task.now (state_in task.now words.now) tables.items) }
{
    let predicates = task.predicates.as_slice();
    let mut tables = Vec::with_capacity(alloc, predicates.len())?;
    let mut at = 0;
    for number in 0..predicates.len() {
        let definition = &predicates[number];
        if definition.is_static {
            tables.push(None)?;
            continue;
        }
        let arity = definition.arity;
        let part = part_in(words, at, arity);
        let flat = Vec::from_slice(alloc, part.flat)?;
        tables.push(Some(Table::from_ascending(arity, part.count, flat)))?;
        at = part_end(words, at, arity);
    }
    Ok(tables)
}
