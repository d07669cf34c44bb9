//! Which edges no state changes: their sources, and the filters that are local to them.

ghost use Rattle.std.specs.Prelude.{◌≡◌, ◌<◌, not, length, All};
ghost use Rattle.std.specs.List.{list_all};
ghost use Rattle.pl_normal.specs.Asked.{IsQuery, task_in, schema_in};
ghost use Rattle.pl_normal.specs.NormalForm.{IsNormalForm};
ghost use Rattle.pl_normal.specs.Recipes.{has_no_table, is_fixed_among, is_fixed_edge, is_fixed_source};
ghost use Rattle.pl_normal.specs.Recipes.{is_fixed_for};

use crate::form::{Edge, NormalSchema, Placed, Sieve, Source};
use crate::query::Query;
use pl_rows::Table;

/// Whether no state changes one of the edges, nor the filters that are local to them.
pub fn are_fixed_edges(query: &Query<'_>, form: &NormalSchema, numbers: &[u32]) -> bool
    requires query { IsQuery query.now }
    requires form { IsNormalForm (task_in query.now) (schema_in query.now) form.now }
    requires numbers { All (λ e. e < length form.now.edges) numbers.now }
    ensures { result ≡ list_all (is_fixed_edge (task_in query.now) (schema_in query.now)) numbers.now }
{
    for number in numbers {
        if !is_fixed_edge(query, form, *number) {
            return false;
        }
    }
    true
}

/// Whether no state changes the edge, nor a filter that is local to it.
pub fn is_fixed_edge(query: &Query<'_>, form: &NormalSchema, number: u32) -> bool
    requires query { IsQuery query.now }
    requires form { IsNormalForm (task_in query.now) (schema_in query.now) form.now }
    requires number { number < length form.now.edges }
    ensures { result ≡ is_fixed_edge (task_in query.now) (schema_in query.now) number }
{
    is_fixed_among(
        query.statics,
        form.edges.as_slice(),
        form.local.as_slice(),
        number,
    )
}

/// Whether no state changes one of some edges, where these filters are local to them, and just those
/// predicates have a table here that no state changes.
pub fn is_fixed_among(
    statics: &[Option<Table>],
    edges: &[Edge],
    local: &[Placed],
    number: u32,
) -> bool
    requires { number < length edges.now }
    ensures { result ≡ is_fixed_among (has_no_table statics.now) edges.now local.now number }
{
    if !is_fixed_source(statics, edges[number as usize].source) {
        return false;
    }
    are_fixed_for(statics, number, local)
}

/// Whether each of the filters is local to another edge, or lets the same rows pass in all states.
fn are_fixed_for(statics: &[Option<Table>], number: u32, local: &[Placed]) -> bool
    ensures { result ≡ list_all (is_fixed_for (has_no_table statics.now) number) local.now }
{
    for placed in local {
        if !is_fixed_for(statics, number, placed) {
            return false;
        }
    }
    true
}

/// Whether the rows of the source are the same in all states.
fn is_fixed_source(statics: &[Option<Table>], source: Source) -> bool
    ensures { result ≡ is_fixed_source (has_no_table statics.now) source }
{
    match source {
        Source::Kind(_) => true,
        Source::Predicate(predicate) => is_static(statics, predicate),
    }
}

/// Whether the filter is local to another edge, or lets the same rows pass in all states.
fn is_fixed_for(statics: &[Option<Table>], number: u32, placed: &Placed) -> bool
    ensures { result ≡ is_fixed_for (has_no_table statics.now) number placed.now }
{
    if placed.edge != number {
        return true;
    }
    match &placed.sieve {
        Sieve::NotEqual(_, _) => true,
        Sieve::Absent(predicate, _) => is_static(statics, *predicate),
    }
}

/// Whether the predicate has a table.
fn is_static(statics: &[Option<Table>], predicate: u32) -> bool
    ensures { result ≡ not (has_no_table statics.now predicate) }
{
    match statics.get(predicate as usize) {
        Some(table) => table.is_some(),
        None => false,
    }
}
