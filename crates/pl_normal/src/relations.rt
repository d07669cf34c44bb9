//! The relations of the edges of a schema's query in a state.

ghost use Rattle.std.specs.Prelude.{◌≡◌, ◌≤◌, ◌<◌, ◌+◌, ◌*◌, ◌↔◌, ℕ, List, [], All, Contains, length};
ghost use Rattle.std.specs.Prelude.{IfOk, IsTrue};
ghost use Rattle.std.specs.List.{AllPairs, sum_by};
ghost use Rattle.pl_join.specs.Relation.{Assignment, Holds, IsRelation, IsSlotBelow, classes_in};
ghost use Rattle.pl_normal.specs.Asked.{IsQuery, task_in, schema_in, state_asked, source_rows};
ghost use Rattle.pl_normal.specs.Edges.{edges_of};
ghost use Rattle.pl_normal.specs.NormalForm.{IsNormalForm};
ghost use Rattle.pl_normal.specs.Queries.{IsRelationAt, AreRelationsAt, IsSieveOf, IsSieveOver, IsSieved};
ghost use Rattle.pl_normal.specs.Queries.{AreEdgeRows, edge_at, sieved_probes};
ghost use Rattle.pl_normal.specs.Query.{is_in_source, meets_sieve};

use crate::form::{Edge, NormalSchema, Sieve};
use crate::query::{Query, source_table, true_atoms};
use pl_join::laws::relation_is_one;
use pl_join::{Relation, Slot, filter_absent, filter_unequal, select, select_in_order};
use pl_rows::Table;
use pl_steps::Steps;
use std::alloc::{AllocError, Global};
use std::sync::ledger::Ledger;

/// The relations of some edges, in their order.
pub fn edge_relations<L: Ledger>(
    alloc: Global,
    query: &Query<'_>,
    form: &NormalSchema,
    numbers: &[u32],
    steps: &mut Steps<L>,
) -> Result<Vec<Relation>, AllocError>
    requires query { IsQuery query.now }
    requires form { IsNormalForm (task_in query.now) (schema_in query.now) form.now }
    requires numbers { All (λ e. e < length form.now.edges) numbers.now }
    ensures relations { IfOk result (λ v. AreRelationsAt (task_in query.now) (schema_in query.now)
        (state_asked query.now) numbers.now v.items) }
    ensures rise { steps.old ≤ steps.new }
{
    let mut relations = Vec::with_capacity(alloc, numbers.len())?;
    for number in numbers {
        relations.push(edge_relation(alloc, query, form, *number, steps)?)?;
    }
    Ok(relations)
}

/// The relation of an edge: over its classes, rising, the rows of its source that its slots and its local
/// filters let pass.
///
/// It takes a probe for each row of the source, and for each local filter of the schema at most two more.
pub fn edge_relation<L: Ledger>(
    alloc: Global,
    query: &Query<'_>,
    form: &NormalSchema,
    number: u32,
    steps: &mut Steps<L>,
) -> Result<Relation, AllocError>
    requires query { IsQuery query.now }
    requires form { IsNormalForm (task_in query.now) (schema_in query.now) form.now }
    requires number { number < length form.now.edges }
    ensures relation { IfOk result
        (IsRelationAt (task_in query.now) (schema_in query.now) (state_asked query.now) number) }
    ensures rising { IfOk result (λ r. AllPairs (λ a b. a < b) r.classes) }
    ensures cost { IfOk result
        (λ _. steps.new ≤ steps.old + sieved_probes form.now (source_rows query.now number)) }
    ensures rise { steps.old ≤ steps.new }
{
    let table = edge_table(query, form, number);
    let slots = edge_slots(query, form, number);
    let selected = select(alloc, table, slots, steps)?;
    passing_rows(alloc, query, form, number, selected, steps)
}

/// The relation of an edge that `edge_relation` gives, over its classes in the order of the schema's
/// parameters: so a reduction finds it in class order.
pub fn ordered_relation<L: Ledger>(
    alloc: Global,
    query: &Query<'_>,
    form: &NormalSchema,
    number: u32,
    steps: &mut Steps<L>,
) -> Result<Relation, AllocError>
    requires query { IsQuery query.now }
    requires form { IsNormalForm (task_in query.now) (schema_in query.now) form.now }
    requires number { number < length form.now.edges }
    ensures relation { IfOk result
        (IsRelationAt (task_in query.now) (schema_in query.now) (state_asked query.now) number) }
    ensures classes { IfOk result
        (λ r. r.classes ≡ classes_in form.now.order (edge_at form.now.edges number).slots) }
    ensures cost { IfOk result
        (λ _. steps.new ≤ steps.old + sieved_probes form.now (source_rows query.now number)) }
    ensures rise { steps.old ≤ steps.new }
{
    let table = edge_table(query, form, number);
    let slots = edge_slots(query, form, number);
    let order = form.order.as_slice();
    let selected = select_in_order(alloc, table, slots, order, steps)?;
    passing_rows(alloc, query, form, number, selected, steps)
}

/// The edge with a number.
fn edge_of(form: &NormalSchema, number: u32) -> &Edge
    requires { number < length form.now.edges }
    ensures { result.now ≡ edge_at form.now.edges number }
{
    &form.edges.as_slice()[number as usize]
}

/// The slots of an edge.
fn edge_slots<'f>(_query: &Query<'_>, form: &'f NormalSchema, number: u32) -> &'f [Slot]
    requires query { IsQuery _query.now }
    requires form { IsNormalForm (task_in _query.now) (schema_in _query.now) form.now }
    requires number { number < length form.now.edges }
    ensures slots { result.now ≡ (edge_at form.now.edges number).slots }
    ensures below { All (IsSlotBelow 64) result.now }
{
    edge_of(form, number).slots.as_slice()
}

/// The table of an edge's source: a value for each slot, and no more rows than are counted for the edge.
fn edge_table<'a>(query: &Query<'a>, form: &NormalSchema, number: u32) -> &'a Table
    requires query { IsQuery query.now }
    requires form { IsNormalForm (task_in query.now) (schema_in query.now) form.now }
    requires number { number < length form.now.edges }
    ensures width { length (edge_at form.now.edges number).slots ≡ result.now.arity }
    ensures rows { (row : List ℕ) → Contains result.now.rows row
        ↔ IsTrue (is_in_source (task_in query.now) (schema_in query.now) (state_asked query.now)
        (edge_at form.now.edges number).source row) }
    ensures objects { AreEdgeRows (task_in query.now) (schema_in query.now) (state_asked query.now)
        (edge_at (edges_of (schema_in query.now)) number) }
    ensures few { length result.now.rows ≤ source_rows query.now number }
{
    source_table(query, edge_of(form, number).source)
}

/// The rows of an edge's selection that its local filters let pass. It takes at most two probes a row for
/// each local filter of the schema.
fn passing_rows<L: Ledger>(
    alloc: Global,
    query: &Query<'_>,
    form: &NormalSchema,
    number: u32,
    selected: Relation,
    steps: &mut Steps<L>,
) -> Result<Relation, AllocError>
    requires query { IsQuery query.now }
    requires form { IsNormalForm (task_in query.now) (schema_in query.now) form.now }
    requires number { number < length form.now.edges }
    requires selected { IsSieved (task_in query.now) (schema_in query.now) (state_asked query.now)
        (edge_at form.now.edges number) number [] selected }
    requires objects { AreEdgeRows (task_in query.now) (schema_in query.now) (state_asked query.now)
        (edge_at (edges_of (schema_in query.now)) number) }
    ensures relation { IfOk result
        (IsRelationAt (task_in query.now) (schema_in query.now) (state_asked query.now) number) }
    ensures classes { IfOk result (λ r. r.classes ≡ selected.classes) }
    ensures cost { IfOk result
        (λ _. steps.new ≤ steps.old + length form.now.local * (2 * source_rows query.now number)) }
    ensures rise { steps.old ≤ steps.new }
{
    let mut relation = selected;
    let local = form.local.as_slice();
    for placed in local {
        if placed.edge == number {
            relation = sieved(alloc, query, &relation, &placed.sieve, steps)?;
        }
    }
    relation_is_one(&relation);
    Ok(relation)
}

/// The rows of a relation that a filter over its classes lets pass. It takes at most two probes for each row.
fn sieved<L: Ledger>(
    alloc: Global,
    query: &Query<'_>,
    relation: &Relation,
    sieve: &Sieve,
    steps: &mut Steps<L>,
) -> Result<Relation, AllocError>
    requires query { IsQuery query.now }
    requires sieve { IsSieveOf (task_in query.now) sieve.now }
    requires over { IsSieveOver relation.now.classes sieve.now }
    ensures classes { IfOk result (λ r. r.classes ≡ relation.now.classes) }
    ensures rows { IfOk result (λ r. (f : Assignment) → Holds r f
        ↔ (Holds relation.now f × IsTrue (meets_sieve (state_asked query.now) f sieve.now))) }
    ensures whole { IsRelation relation.now }
    ensures cost { steps.new ≤ steps.old + 2 * length relation.now.rows }
    ensures rise { steps.old ≤ steps.new }
{
    relation_is_one(relation);
    match sieve {
        Sieve::NotEqual(a, b) => filter_unequal(alloc, relation, *a, *b, steps),
        Sieve::Absent(predicate, slots) => {
            let table = true_atoms(query.task, query.statics, query.tables, *predicate);
            filter_absent(alloc, relation, table, slots.as_slice(), steps)
        }
    }
}
