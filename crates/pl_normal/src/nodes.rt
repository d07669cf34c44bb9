//! The relations of the nodes of a schema's join: that of the core, and those of the removed ears.

ghost use Rattle.std.specs.Prelude.{◌≡◌, ◌≤◌, ◌<◌, ◌+◌, [], ◌∷◌, suc, length, All, IfOk, IfSome};
ghost use Rattle.std.specs.List.{list_all, sum_by};
ghost use Rattle.pl_hyper.specs.JoinTree.{IsAcyclic};
ghost use Rattle.pl_normal.specs.Asked.{IsQuery, task_in, schema_in, state_asked, source_rows};
ghost use Rattle.pl_normal.specs.Edges.{edges_of, sets_of};
ghost use Rattle.pl_normal.specs.Measures.{relation_rows};
ghost use Rattle.pl_normal.specs.NormalForm.{IsNormalForm};
ghost use Rattle.pl_normal.specs.Queries.{IsRelationAt, sieved_probes};
ghost use Rattle.pl_normal.specs.Recipes.{AreOfShare, IsNodeRelation, IsRecipeFor, IsWanted, is_fixed_edge};
ghost use Rattle.pl_normal.specs.Recipes.{is_fixed_node, node_edges, plan_of, takes};

use crate::fixed::are_fixed_edges;
use crate::form::NormalSchema;
use crate::query::Query;
use crate::relations::{edge_relation, edge_relations, ordered_relation};
use pl_hyper::laws::{acyclic_plan_keeps_one_edge, plan_is_a_removal};
use pl_join::Relation;
use pl_join::laws::relation_is_one;
use pl_kernel::core_table;
use pl_kernel::laws::core_classes_are_in_class_order;
use pl_reduce::Recipe;
use pl_steps::Steps;
use std::alloc::{AllocError, Global};
use std::sync::ledger::Ledger;

/// Some nodes of a join.
#[derive(Clone, Copy, Debug, PartialEq, Eq)]
pub enum Share {
    /// Those that no state changes.
    Fixed,
    /// The others.
    Given,
}

/// The relations of the nodes that are of the share, and none for each other node. Which nodes no state
/// changes is read off the recipe, where there is one already.
///
/// Of an acyclic schema it takes a probe for each row of the edges' sources, and for each local filter two
/// more.
pub fn node_relations<L: Ledger>(
    alloc: Global,
    query: &Query<'_>,
    form: &NormalSchema,
    share: Share,
    recipe: Option<&Recipe>,
    steps: &mut Steps<L>,
) -> Result<Vec<Option<Relation>>, AllocError>
    requires query { IsQuery query.now }
    requires form { IsNormalForm (task_in query.now) (schema_in query.now) form.now }
    requires recipe { IfSome recipe (λ r. IsRecipeFor (task_in query.now) (schema_in query.now) r.now) }
    requires some { 0 < length form.now.edges }
    ensures nodes { IfOk result (λ v. AreOfShare (task_in query.now) (schema_in query.now)
        (state_asked query.now) share
        (suc (length (plan_of (schema_in query.now)).removed)) v.items) }
    ensures cost { IfOk result (λ _. IsAcyclic (sets_of (edges_of (schema_in query.now)))
        → steps.new ≤ steps.old + sieved_probes form.now
        (relation_rows (task_in query.now) (state_asked query.now) (schema_in query.now))) }
    ensures core { IfOk result (λ _. IsAcyclic (sets_of (edges_of (schema_in query.now)))
        → length (plan_of (schema_in query.now)).core ≤ 1) }
    ensures rise { steps.old ≤ steps.new }
{
    acyclic_plan_keeps_one_edge(&form.plan);
    let ears = form.plan.removed();
    let mut nodes = Vec::with_capacity(alloc, ears.len() + 1)?;
    nodes.push(root_relation(alloc, query, form, share, recipe, steps)?)?;
    for ear in ears {
        let node = nodes.len();
        nodes.push(ear_relation(alloc, query, form, node, ear.edge, share, recipe, steps)?)?;
    }
    Ok(nodes)
}

/// The relation of the core, if it is of the share. A core of one edge takes no more probes than the edge.
fn root_relation<L: Ledger>(
    alloc: Global,
    query: &Query<'_>,
    form: &NormalSchema,
    share: Share,
    recipe: Option<&Recipe>,
    steps: &mut Steps<L>,
) -> Result<Option<Relation>, AllocError>
    requires query { IsQuery query.now }
    requires form { IsNormalForm (task_in query.now) (schema_in query.now) form.now }
    requires recipe { IfSome recipe (λ r. IsRecipeFor (task_in query.now) (schema_in query.now) r.now) }
    requires some { 0 < length form.now.edges }
    ensures root { IfOk result
        (IsWanted (takes share (is_fixed_node (task_in query.now) (schema_in query.now) 0))
        (IsNodeRelation (task_in query.now) (schema_in query.now) (state_asked query.now) 0)) }
    ensures cost { IfOk result (λ _. length form.now.plan.core ≤ 1
        → steps.new ≤ steps.old + sieved_probes form.now
        (sum_by (source_rows query.now) form.now.plan.core)) }
    ensures rise { steps.old ≤ steps.new }
{
    let core = form.plan.core();
    if !is_taken(share, is_fixed_node(query, form, recipe, 0, core)) {
        return Ok(None);
    }
    Ok(Some(core_relation(alloc, query, form, core, steps)?))
}

/// The join of the relations of the core's edges.
fn core_relation<L: Ledger>(
    alloc: Global,
    query: &Query<'_>,
    form: &NormalSchema,
    core: &[u32],
    steps: &mut Steps<L>,
) -> Result<Relation, AllocError>
    requires query { IsQuery query.now }
    requires form { IsNormalForm (task_in query.now) (schema_in query.now) form.now }
    requires some { 0 < length form.now.edges }
    requires core { core.now ≡ form.now.plan.core }
    ensures relation { IfOk result (IsNodeRelation (task_in query.now) (schema_in query.now)
        (state_asked query.now) 0) }
    ensures cost { IfOk result (λ _. length core.now ≤ 1
        → steps.new ≤ steps.old + sieved_probes form.now (sum_by (source_rows query.now) core.now)) }
    ensures rise { steps.old ≤ steps.new }
{
    core_classes_are_in_class_order();
    plan_is_a_removal(&form.plan);
    if core.len() == 1 {
        return edge_relation(alloc, query, form, core[0], steps);
    }
    let relations = edge_relations(alloc, query, form, core, steps)?;
    let root = core_table(alloc, &relations, steps)?;
    relation_is_one(&root);
    Ok(root)
}

/// The relation of a removed edge, if it is of the share.
fn ear_relation<L: Ledger>(
    alloc: Global,
    query: &Query<'_>,
    form: &NormalSchema,
    node: usize,
    number: u32,
    share: Share,
    recipe: Option<&Recipe>,
    steps: &mut Steps<L>,
) -> Result<Option<Relation>, AllocError>
    requires query { IsQuery query.now }
    requires form { IsNormalForm (task_in query.now) (schema_in query.now) form.now }
    requires recipe { IfSome recipe (λ r. IsRecipeFor (task_in query.now) (schema_in query.now) r.now) }
    requires node { node < suc (length (plan_of (schema_in query.now)).removed) }
    requires edges { number ∷ [] ≡ node_edges (plan_of (schema_in query.now)) node }
    requires number { number < length form.now.edges }
    ensures ear { IfOk result
        (IsWanted (takes share (is_fixed_edge (task_in query.now) (schema_in query.now) number))
        (IsRelationAt (task_in query.now) (schema_in query.now) (state_asked query.now) number)) }
    ensures cost { IfOk result
        (λ _. steps.new ≤ steps.old + sieved_probes form.now (source_rows query.now number)) }
    ensures rise { steps.old ≤ steps.new }
{
    if !is_taken(share, is_fixed_node(query, form, recipe, node, &[number])) {
        return Ok(None);
    }
    Ok(Some(ordered_relation(alloc, query, form, number, steps)?))
}

/// Whether no state changes one of the node's edges: the recipe knows it, where there is one already.
fn is_fixed_node(
    query: &Query<'_>,
    form: &NormalSchema,
    recipe: Option<&Recipe>,
    node: usize,
    edges: &[u32],
) -> bool
    requires query { IsQuery query.now }
    requires form { IsNormalForm (task_in query.now) (schema_in query.now) form.now }
    requires recipe { IfSome recipe (λ r. IsRecipeFor (task_in query.now) (schema_in query.now) r.now) }
    requires node { node < suc (length (plan_of (schema_in query.now)).removed) }
    requires edges { edges.now ≡ node_edges (plan_of (schema_in query.now)) node }
    requires numbers { All (λ e. e < length form.now.edges) edges.now }
    ensures { result ≡ list_all (is_fixed_edge (task_in query.now) (schema_in query.now)) edges.now }
{
    match recipe {
        Some(recipe) => recipe.is_fixed(node),
        None => are_fixed_edges(query, form, edges),
    }
}

/// Whether a node is of the share.
fn is_taken(share: Share, is_fixed: bool) -> bool
    ensures { result ≡ takes share is_fixed }
{
    match share {
        Share::Fixed => is_fixed,
        Share::Given => !is_fixed,
    }
}
