//! What is kept of a schema in a prepared state.

ghost use Rattle.std.specs.Prelude.{◌≤◌, ◌<◌, ◌+◌, length, IfOk};
ghost use Rattle.pl_normal.specs.NormalForm.{IsNormalForm};
ghost use Rattle.pl_hyper.specs.JoinTree.{IsAcyclic};
ghost use Rattle.pl_normal.specs.Edges.{edges_of, sets_of};
ghost use Rattle.pl_normal.specs.Recipes.{IsRecipeFor};
ghost use Rattle.pl_gen.specs.Entries.{IsEntry, AreTablesFor};
ghost use Rattle.pl_gen.specs.Measures.{close_probes, close_entry_probes};
ghost use Rattle.pl_gen.specs.Queries.{IsQuery, state_asked};

use crate::guards::guards_hold;
use crate::query::Query;
use pl_normal::NormalSchema;
use pl_reduce::{Recipe, Reduced};
use pl_steps::Steps;
use std::alloc::{AllocError, Global};
use std::sync::ledger::Ledger;

/// What a schema's applicable steps are read from.
#[derive(Drop)]
pub enum Entry<'n> {
    /// A guard is false: there are none.
    Never,
    /// There is no edge, and all guards hold: there is one.
    Always,
    /// The reduced tables of the query.
    Tables(Reduced<'n>),
}

/// The entry of a schema. Of an acyclic one it takes a probe for each guard, and those of the tables.
pub fn entry_of<'n, L: Ledger>(
    alloc: Global,
    query: &Query<'n, '_>,
    form: &NormalSchema,
    steps: &mut Steps<L>,
) -> Result<Entry<'n>, AllocError>
    requires query { IsQuery query.now }
    requires form { IsNormalForm query.now.normal.now query.now.schema.now form.now }
    ensures entry { IfOk result (IsEntry query.now.normal.now query.now.schema.now (state_asked query.now)) }
    ensures cost { IfOk result (λ _. IsAcyclic (sets_of (edges_of query.now.schema.now))
        → steps.new ≤ steps.old
        + close_entry_probes query.now.normal.now (state_asked query.now) query.now.schema.now) }
    ensures rise { steps.old ≤ steps.new }
{
    if !guards_hold(query, form.guards.as_slice(), steps) {
        return Ok(Entry::Never);
    }
    match query.normal.recipe(query.number) {
        None => Ok(Entry::Always),
        Some(recipe) => Ok(Entry::Tables(reduced_tables(alloc, query, recipe, steps)?)),
    }
}

/// The reduced tables of a schema's query. The recipe has the relations of the nodes that no state changes,
/// and those of the others are made here.
///
/// Of an acyclic schema they take at most three probes for each row of the edges' sources with each edge, and
/// two with each local filter.
fn reduced_tables<'n, L: Ledger>(
    alloc: Global,
    query: &Query<'n, '_>,
    recipe: &'n Recipe,
    steps: &mut Steps<L>,
) -> Result<Reduced<'n>, AllocError>
    requires query { IsQuery query.now }
    requires recipe { IsRecipeFor query.now.normal.now query.now.schema.now recipe.now }
    requires some { 0 < length (edges_of query.now.schema.now) }
    ensures tables { IfOk result (AreTablesFor query.now.normal.now query.now.schema.now
        (state_asked query.now)) }
    ensures cost { IfOk result (λ _. IsAcyclic (sets_of (edges_of query.now.schema.now))
        → steps.new ≤ steps.old
        + close_probes query.now.normal.now (state_asked query.now) query.now.schema.now) }
    ensures rise { steps.old ≤ steps.new }
{
    let tables = query.tables.as_slice();
    let given = query
        .normal
        .given_relations(alloc, query.number, recipe, tables, steps)?;
    Reduced::reduce_with(alloc, recipe, given, steps)
}
