//! What the query of a schema is asked of.

ghost use Rattle.std.specs.Prelude.{◌≡◌, ◌↔◌, ◌<◌, ℕ, List, Some, Contains, IsTrue, length, slice_get};
ghost use Rattle.pl_task.specs.declared.data.PredicateDef.{PredicateDef as PredicateOf};
ghost use Rattle.pl_normal.specs.Asked.{IsQuery, task_in, schema_in, state_asked};
ghost use Rattle.pl_normal.specs.Queries.{IsSourceOf, IsArityOf};
ghost use Rattle.pl_normal.specs.Query.{is_in_source};
ghost use Rattle.pl_normal.specs.StateTables.{AreTables, HasObjectRows, state_of_tables};
ghost use Rattle.pl_normal.specs.Tables.{AreStatics, row_atom};

use crate::form::Source;
use crate::kinds::{KindTables, type_table_at};
use pl_rows::Table;
use pl_task::{Schema, Task};

/// A schema of a task, and the tables that its query is asked of.
#[derive(Clone, Copy)]
pub struct Query<'a> {
    /// The task.
    pub task: &'a Task,
    /// The tables of the static predicates.
    pub statics: &'a [Option<Table>],
    /// The tables of the types of parameters.
    pub kinds: &'a KindTables,
    /// The tables of the fluent predicates in a state.
    pub tables: &'a [Option<Table>],
    /// The number of the schema.
    pub number: u32,
    /// The schema.
    pub schema: &'a Schema,
}

/// The table of a source: that of a parameter's types, of a static predicate, or of a fluent predicate in the
/// state.
pub fn source_table<'a>(query: &Query<'a>, source: Source) -> &'a Table
    requires query { IsQuery query.now }
    requires source { IsSourceOf (task_in query.now) (schema_in query.now) source }
    ensures arity { IsArityOf (task_in query.now) source result.now.arity }
    ensures rows { (row : List ℕ) → Contains result.now.rows row
        ↔ IsTrue (is_in_source (task_in query.now) (schema_in query.now) (state_asked query.now) source row) }
    ensures objects { HasObjectRows (length (task_in query.now).objects) result.now }
{
    match source {
        Source::Kind(parameter) => {
            type_table_at(query.task, query.kinds, query.number, parameter)
        }
        Source::Predicate(predicate) => {
            true_atoms(query.task, query.statics, query.tables, predicate)
        }
    }
}

/// The table of the true atoms of a predicate: its own, if it is static, or that of the state.
pub fn true_atoms<'a>(
    _task: &Task,
    statics: &'a [Option<Table>],
    tables: &'a [Option<Table>],
    predicate: u32,
) -> &'a Table
    requires statics { AreStatics _task.now statics.now }
    requires tables { AreTables _task.now tables.now }
    requires predicate { predicate < length _task.now.predicates }
    ensures arity { (d : PredicateOf) → slice_get _task.now.predicates predicate ≡ Some d
        → result.now.arity ≡ d.arity }
    ensures rows { (row : List ℕ) → Contains result.now.rows row
        ↔ IsTrue (state_of_tables _task.now tables.now (row_atom predicate row)) }
    ensures objects { HasObjectRows (length _task.now.objects) result.now }
{
    match tables[predicate as usize].as_ref() {
        Some(table) => table,
        None => match statics[predicate as usize].as_ref() {
            Some(table) => table,
            None => unreachable!(),
        },
    }
}
