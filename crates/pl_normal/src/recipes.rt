//! The recipes of the joins of all schemas, made once a task.

ghost use Rattle.std.specs.Prelude.{◌≡◌, ◌≤◌, ◌<◌, ◌+◌, ◌*◌, ℕ, Some, length, slice_get, IfOk};
ghost use Rattle.pl_hyper.specs.JoinTree.{IsAcyclic};
ghost use Rattle.pl_reduce.specs.Passes.{total_rows};
ghost use Rattle.pl_reduce.specs.Recipes.{AreGiven, relations_with};
ghost use Rattle.pl_normal.specs.Edges.{edges_of, sets_of};
ghost use Rattle.pl_normal.specs.Filters.{local_of};
ghost use Rattle.pl_normal.specs.Measures.{relation_rows};
ghost use Rattle.pl_normal.specs.Kinds.{AreKindTables};
ghost use Rattle.pl_normal.specs.NormalForm.{IsNormalForm};
ghost use Rattle.pl_normal.specs.NormalTasks.{AreNormalForms};
ghost use Rattle.pl_normal.specs.Asked.{IsQuery, task_in, schema_in, state_asked};
ghost use Rattle.pl_normal.specs.Recipes.{AreNodesAt, AreRecipes, HasRecipe, IsRecipeFor};
ghost use Rattle.pl_normal.specs.StateTables.{AreTables};
ghost use Rattle.pl_normal.specs.Tables.{AreStatics};

use crate::form::NormalSchema;
use crate::kinds::KindTables;
use crate::nodes::{Share, node_relations};
use crate::query::Query;
use crate::tables::empty_tables;
use pl_join::Relation;
use pl_reduce::Recipe;
use pl_rows::Table;
use pl_steps::Steps;
use pl_task::Task;
use std::alloc::{AllocError, Global};
use std::marker::Brand;
use std::sync::ledger::{Blank, Ledger};

/// The recipe of each schema that has an edge. What is made once a task is not counted.
pub fn recipes(
    alloc: Global,
    task: &Task,
    statics: &[Option<Table>],
    kinds: &KindTables,
    forms: &[NormalSchema],
) -> Result<Vec<Option<Recipe>>, AllocError>
    requires statics { AreStatics task.now statics.now }
    requires kinds { AreKindTables task.now kinds.now.starts.items kinds.now.numbers.items
        kinds.now.tables.items }
    requires forms { AreNormalForms task.now forms.now }
    ensures { IfOk result (λ v. AreRecipes task.now (length task.now.schemas) v.items) }
{
    counts_recipes::<Brand>(alloc, task, statics, kinds, forms, Blank::new(1))
}

/// The recipe of each schema that has an edge.
fn counts_recipes<L: Ledger>(
    alloc: Global,
    task: &Task,
    statics: &[Option<Table>],
    kinds: &KindTables,
    forms: &[NormalSchema],
    blank: Blank,
) -> Result<Vec<Option<Recipe>>, AllocError>
    requires statics { AreStatics task.now statics.now }
    requires kinds { AreKindTables task.now kinds.now.starts.items kinds.now.numbers.items
        kinds.now.tables.items }
    requires forms { AreNormalForms task.now forms.now }
    requires name { blank.name ≡ L.name }
    requires parts { blank.parts ≡ L.parts }
    requires some { 0 < blank.parts }
    ensures { IfOk result (λ v. AreRecipes task.now (length task.now.schemas) v.items) }
{
    let mut steps: Steps<L> = Steps::new(blank);
    let empty = empty_tables(alloc, task)?;
    let tables = empty.as_slice();
    let schemas = task.schemas.as_slice();
    let mut recipes = Vec::with_capacity(alloc, schemas.len())?;
    for i in 0..schemas.len() {
        let query = Query {
            task,
            statics,
            kinds,
            tables,
            number: i as u32,
            schema: &schemas[i],
        };
        recipes.push(recipe_of(alloc, &query, &forms[i], &mut steps)?)?;
    }
    Ok(recipes)
}

/// The recipe of a schema, which has the relations of the nodes that no state changes; none where there is no
/// edge.
fn recipe_of<L: Ledger>(
    alloc: Global,
    query: &Query<'_>,
    form: &NormalSchema,
    steps: &mut Steps<L>,
) -> Result<Option<Recipe>, AllocError>
    requires query { IsQuery query.now }
    requires form { IsNormalForm (task_in query.now) (schema_in query.now) form.now }
    ensures { IfOk result (HasRecipe (task_in query.now) (schema_in query.now)) }
{
    if form.edges.as_slice().is_empty() {
        return Ok(None);
    }
    let fixed = node_relations(alloc, query, form, Share::Fixed, None, steps)?;
    Ok(Some(Recipe::of(alloc, &form.plan, fixed, steps)?))
}

/// The relations of the nodes that the recipe leaves open.
///
/// Of an acyclic schema it takes a probe for each row of the edges' sources, and for each local filter two
/// more.
pub fn given_for<L: Ledger>(
    alloc: Global,
    query: &Query<'_>,
    form: &NormalSchema,
    recipe: &Recipe,
    steps: &mut Steps<L>,
) -> Result<Vec<Option<Relation>>, AllocError>
    requires query { IsQuery query.now }
    requires form { IsNormalForm (task_in query.now) (schema_in query.now) form.now }
    requires recipe { IsRecipeFor (task_in query.now) (schema_in query.now) recipe.now }
    requires some { 0 < length (edges_of (schema_in query.now)) }
    ensures given { IfOk result (λ v. AreGiven recipe.now v.items) }
    ensures nodes { IfOk result (λ v. AreNodesAt (task_in query.now)
        (schema_in query.now) (state_asked query.now)
        (relations_with recipe.now.fixed v.items)) }
    ensures few { IfOk result (λ v. IsAcyclic (sets_of (edges_of (schema_in query.now)))
        → total_rows (relations_with recipe.now.fixed v.items)
        ≤ relation_rows (task_in query.now) (state_asked query.now) (schema_in query.now)) }
    ensures cost { IfOk result (λ _. IsAcyclic (sets_of (edges_of (schema_in query.now)))
        → steps.new ≤ steps.old + (1 + 2 * length (local_of (schema_in query.now)))
        * relation_rows (task_in query.now) (state_asked query.now) (schema_in query.now)) }
    ensures rise { steps.old ≤ steps.new }
{
    Ok(node_relations(alloc, query, form, Share::Given, Some(recipe), steps)?)
}
