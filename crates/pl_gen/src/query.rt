//! What the query of a schema is asked of.

ghost use Rattle.std.specs.Prelude.{◌≡◌, ◌↔◌, ◌<◌, ℕ, List, Some, Contains, IsTrue, length, slice_get};
ghost use Rattle.pl_task.specs.declared.data.PredicateDef.{PredicateDef as PredicateOf};
ghost use Rattle.pl_state.specs.Layout.{atom_of};
ghost use Rattle.pl_gen.specs.Queries.{IsQuery, state_asked};

use pl_normal::NormalTask;
use pl_rows::Table;
use pl_state::StateTables;
use pl_task::Schema;

/// A schema of a task, and the tables of a state.
#[derive(Clone, Copy)]
pub struct Query<'n, 'a> {
    /// The task in its normal form.
    pub normal: &'n NormalTask<'n>,
    /// The words of the packed state.
    pub words: &'a [u32],
    /// The tables of the state.
    pub tables: &'a StateTables,
    /// The number of the schema in the task.
    pub number: u32,
    /// The schema as the task has it.
    pub schema: &'a Schema,
}

/// The table of the true atoms of a predicate.
pub fn predicate_table<'a>(query: &'a Query<'_, '_>, predicate: u32) -> &'a Table
    requires query { IsQuery query.now }
    requires predicate { predicate < length query.now.normal.now.predicates }
    ensures arity { (d : PredicateOf) → slice_get query.now.normal.now.predicates predicate ≡ Some d
        → result.now.arity ≡ d.arity }
    ensures rows { (row : List ℕ) → Contains result.now.rows row
        ↔ IsTrue (state_asked query.now (atom_of predicate row)) }
{
    query
        .normal
        .predicate_table(predicate, query.tables.as_slice())
}
