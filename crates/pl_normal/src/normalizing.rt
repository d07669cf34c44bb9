//! The normal forms of all schemas of a task, with what no state changes.

ghost use Rattle.std.specs.Prelude.{◌≡◌, ◌≤◌, ◌<◌, ◌+◌, ◌*◌, ◌^◌, ◌↔◌, ℕ, List, [], length, map, slice_index};
ghost use Rattle.std.specs.Prelude.{slice_get};
ghost use Rattle.std.specs.Prelude.{Some, All, Contains, IsTrue, IfOk, IfSome, IfNone, true, false};
ghost use Rattle.pl_rows.specs.Rows.{row_cmp};
ghost use Rattle.pl_task.specs.declared.data.Schema.{Schema as SchemaOf};
ghost use Rattle.pl_task.specs.States.{IsStep};
ghost use Rattle.pl_task.specs.WellFormed.{IsSchemaOf, is_fluent};
ghost use Rattle.pl_task.specs.declared.data.PredicateDef.{PredicateDef as PredicateOf};
ghost use Rattle.pl_hyper.specs.JoinTree.{IsAcyclic};
ghost use Rattle.pl_reduce.specs.Passes.{total_rows};
ghost use Rattle.pl_reduce.specs.Recipes.{AreGiven, relations_with};
ghost use Rattle.pl_normal.specs.Classes.{parameter_classes};
ghost use Rattle.pl_normal.specs.Edges.{edges_of, sets_of};
ghost use Rattle.pl_normal.specs.Filters.{local_of};
ghost use Rattle.pl_normal.specs.Measures.{relation_rows};
ghost use Rattle.pl_normal.specs.Recipes.{AreNodesAt, IsRecipeFor};
ghost use Rattle.pl_normal.specs.StateTables.{AreTables, HasObjectRows, state_of_tables};
ghost use Rattle.pl_normal.specs.EarRemoval.{ear_removal};
ghost use Rattle.pl_normal.specs.NormalForm.{IsNormalForm};
ghost use Rattle.pl_normal.specs.Slots.{parameter_slots};
ghost use Rattle.pl_normal.specs.StepOrder.{step_cmp, read_in};
ghost use Rattle.pl_normal.specs.Guards.{types_at};
ghost use Rattle.pl_normal.specs.Tables.{AreStatics, IsAtomTable, IsTypeTable, row_atom};
ghost use Rattle.pl_normal.specs.NormalTasks.{AreNormalForms};

use crate::classes::{class_slots, fixings, parameter_classes, slot_objects};
use crate::edges::{edges, sets_of};
use crate::filters::filters;
use crate::form::{Edge, NormalSchema};
use crate::guards::guards;
use crate::kinds::{KindTables, kind_tables, type_table_at};
use crate::order::parameter_order;
use crate::query::{Query, true_atoms};
use crate::recipes::{given_for, recipes};
use crate::tables::static_tables;
use pl_hyper::{EarPlan, ears};
use pl_join::{Relation, Slot};
use pl_reduce::Recipe;
use pl_rows::Table;
use pl_steps::Steps;
use pl_task::{List, Schema, StepRef, Task};
use std::alloc::{AllocError, Global};
use std::cmp::Ordering;
use std::marker::Model;
use std::sync::ledger::Ledger;

/// A task with the normal form of each schema, the table of each static predicate, and those of the types of
/// parameters.
///
/// Contracts see it as the task: it has nothing that the task leaves open.
#[derive(Drop)]
pub struct NormalTask<'t> {
    task: &'t Task,
    schemas: Vec<NormalSchema>,
    statics: Vec<Option<Table>>,
    kinds: KindTables,
    recipes: Vec<Option<Recipe>>,
}

impl<'t> Model for NormalTask<'t> {
    ghost use Rattle.pl_task.specs.declared.task.Task.{Task as TaskOf};
    ghost use Rattle.pl_normal.specs.NormalTasks.{IsNormalTask};

    ghost Value = { TaskOf };

    ghost view = { λ n. n.task.now };

    ghost invariant = { λ n. IsNormalTask n.task.now n.schemas.items n.statics.items
        n.kinds.starts.items n.kinds.numbers.items n.kinds.tables.items n.recipes.items };
}

/// The normal forms of all schemas of a task. The only error is want of memory.
pub fn normal<'t>(alloc: Global, task: &'t Task) -> Result<NormalTask<'t>, AllocError>
    ensures { IfOk result (λ n. n ≡ task.now) }
{
    let statics = static_tables(alloc, task)?;
    let kinds = kind_tables(alloc, task)?;
    let schemas = normal_schemas(alloc, task, &statics)?;
    let recipes = recipes(alloc, task, &statics, &kinds, &schemas)?;
    Ok(NormalTask {
        task,
        schemas,
        statics,
        kinds,
        recipes,
    })
}

/// The normal form of each schema.
fn normal_schemas(
    alloc: Global,
    task: &Task,
    statics: &[Option<Table>],
) -> Result<Vec<NormalSchema>, AllocError>
    requires { AreStatics task.now statics.now }
    ensures { IfOk result (λ v. AreNormalForms task.now v.items) }
{
    let schemas = task.schemas.as_slice();
    let mut forms = Vec::with_capacity(alloc, schemas.len())?;
    for i in 0..schemas.len() {
        forms.push(normal_schema(alloc, task, statics, &schemas[i])?)?;
    }
    Ok(forms)
}

/// The normal form of a schema.
fn normal_schema(
    alloc: Global,
    task: &Task,
    statics: &[Option<Table>],
    schema: &Schema,
) -> Result<NormalSchema, AllocError>
    requires statics { AreStatics task.now statics.now }
    requires schema { IsSchemaOf task.now.types task.now.objects task.now.predicates schema.now }
    ensures { IfOk result (IsNormalForm task.now schema.now) }
{
    let parameters = schema.parameters.as_slice();
    let condition = schema.condition.as_slice();
    let classes = parameter_classes(alloc, schema)?;
    let made = parameter_slots(alloc, task, schema, classes.as_slice())?;
    let slots = made.as_slice();
    let fixed = slot_objects(alloc, slots)?;
    let edges = edges(alloc, slots, condition)?;
    let all = edges.as_slice();
    let guards = guards(alloc, task, statics, parameters, slots, condition)?;
    let filters = filters(alloc, all, slots, condition)?;
    let plan = plan_of(alloc, all)?;
    let order = parameter_order(alloc, parameters.len() as u32, &plan)?;
    Ok(NormalSchema {
        class_of: List::of(classes),
        fixed: List::of(fixed),
        edges: List::of(edges),
        guards: List::of(guards),
        local: List::of(filters.local),
        late: List::of(filters.late),
        plan,
        order: List::of(order),
    })
}

/// The slots of a schema's parameters, which have these classes.
fn parameter_slots(
    alloc: Global,
    _task: &Task,
    schema: &Schema,
    classes: &[u32],
) -> Result<Vec<Slot>, AllocError>
    requires schema { IsSchemaOf _task.now.types _task.now.objects _task.now.predicates schema.now }
    requires classes { classes.now ≡ parameter_classes schema.now }
    ensures { IfOk result (λ v. v.items ≡ parameter_slots schema.now) }
{
    let found = fixings(alloc, schema.condition.as_slice())?;
    class_slots(alloc, classes, found.as_slice())
}

/// The removal of ears from the edges.
fn plan_of(alloc: Global, edges: &[Edge]) -> Result<EarPlan, AllocError>
    requires { length edges.now < 2 ^ 32 }
    ensures { IfOk result (λ p. p ≡ ear_removal (sets_of edges.now)) }
{
    let sets = sets_of(alloc, edges)?;
    ears(alloc, sets.as_slice())
}

impl<'t> NormalTask<'t> {
    /// The task.
    pub fn task(&self) -> &'t Task
        ensures { result.now ≡ self.now }
    {
        self.task
    }

    /// The normal form of schema `i`.
    pub fn schema(&self, i: u32) -> &NormalSchema
        requires { i < length self.now.schemas }
        ensures { (s : SchemaOf) → slice_get self.now.schemas i ≡ Some s
            → IsNormalForm self.now s result.now }
    {
        &self.schemas[i as usize]
    }

    /// The table of the initial atoms of a static predicate, which are its atoms in every reachable state.
    pub fn static_table(&self, predicate: u32) -> Option<&Table>
        requires { predicate < length self.now.predicates }
        ensures table { IfSome result (λ t. IsAtomTable self.now predicate t.now) }
        ensures is_static { IfSome result (λ t. is_fluent self.now.schemas predicate ≡ false) }
        ensures fluent { IfNone result (is_fluent self.now.schemas predicate ≡ true) }
    {
        self.statics[predicate as usize].as_ref()
    }

    /// The table of the objects that have at least one of the parameter's types. Parameters with the same
    /// types share one.
    pub fn type_table(&self, schema: u32, parameter: u32) -> &Table
        requires schema { schema < length self.now.schemas }
        requires parameter { (s : SchemaOf) → slice_get self.now.schemas schema ≡ Some s
            → parameter < length s.parameters }
        ensures { (s : SchemaOf) → slice_get self.now.schemas schema ≡ Some s →
            IsTypeTable self.now (types_at s.parameters parameter) result.now }
    {
        type_table_at(self.task, &self.kinds, schema, parameter)
    }

    /// The table of the true atoms of a predicate in the state that the tables stand for: its own, if it is
    /// static, or that of the state.
    pub fn predicate_table<'a>(&'a self, predicate: u32, tables: &'a [Option<Table>]) -> &'a Table
        requires predicate { predicate < length self.now.predicates }
        requires tables { AreTables self.now tables.now }
        ensures arity { (d : PredicateOf) → slice_get self.now.predicates predicate ≡ Some d
            → result.now.arity ≡ d.arity }
        ensures rows { (row : List ℕ) → Contains result.now.rows row
            ↔ IsTrue (state_of_tables self.now tables.now (row_atom predicate row)) }
        ensures objects { HasObjectRows (length self.now.objects) result.now }
    {
        true_atoms(self.task, &self.statics, tables, predicate)
    }

    /// The recipe of the join of schema `schema`, made once a task; none where the schema has no edge.
    ///
    /// It has the relations of the nodes that no state changes.
    pub fn recipe(&self, schema: u32) -> Option<&Recipe>
        requires { schema < length self.now.schemas }
        ensures some { (s : SchemaOf) → slice_get self.now.schemas schema ≡ Some s →
            IfSome result (λ r. IsRecipeFor self.now s r.now) }
        ensures edges { (s : SchemaOf) → slice_get self.now.schemas schema ≡ Some s →
            IfSome result (λ r. 0 < length (edges_of s)) }
        ensures none { (s : SchemaOf) → slice_get self.now.schemas schema ≡ Some s →
            IfNone result (edges_of s ≡ []) }
    {
        self.recipes[schema as usize].as_ref()
    }

    /// The relations of the nodes that a recipe leaves open, in the state that the tables stand for.
    ///
    /// Of an acyclic schema it takes a probe for each row of the edges' sources, and for each local filter
    /// two more. The only error is want of memory.
    pub fn given_relations<L: Ledger>(
        &self,
        alloc: Global,
        schema: u32,
        recipe: &Recipe,
        tables: &[Option<Table>],
        steps: &mut Steps<L>,
    ) -> Result<Vec<Option<Relation>>, AllocError>
        requires schema { schema < length self.now.schemas }
        requires recipe { (s : SchemaOf) → slice_get self.now.schemas schema ≡ Some s
            → IsRecipeFor self.now s recipe.now }
        requires edges { (s : SchemaOf) → slice_get self.now.schemas schema ≡ Some s
            → 0 < length (edges_of s) }
        requires tables { AreTables self.now tables.now }
        ensures given { IfOk result (λ v. AreGiven recipe.now v.items) }
        ensures nodes { (s : SchemaOf) → slice_get self.now.schemas schema ≡ Some s →
            IfOk result (λ v. AreNodesAt self.now s (state_of_tables self.now tables.now)
            (relations_with recipe.now.fixed v.items)) }
        ensures few { (s : SchemaOf) → slice_get self.now.schemas schema ≡ Some s →
            IfOk result (λ v. IsAcyclic (sets_of (edges_of s))
            → total_rows (relations_with recipe.now.fixed v.items)
            ≤ relation_rows self.now (state_of_tables self.now tables.now) s) }
        ensures cost { (s : SchemaOf) → slice_get self.now.schemas schema ≡ Some s →
            IfOk result (λ _. IsAcyclic (sets_of (edges_of s))
            → steps.new ≤ steps.old
            + (1 + 2 * length (local_of s)) * relation_rows self.now
            (state_of_tables self.now tables.now) s) }
        ensures rise { steps.old ≤ steps.new }
    {
        let query = Query {
            task: self.task,
            statics: self.statics.as_slice(),
            kinds: &self.kinds,
            tables,
            number: schema,
            schema: &self.task.schemas.as_slice()[schema as usize],
        };
        given_for(alloc, &query, self.schema(schema), recipe, steps)
    }

    /// How two steps of the task are ordered: by their schemas, and then by their objects in the schema's
    /// parameter order.
    pub fn step_cmp(&self, a: StepRef<'_>, b: StepRef<'_>) -> Ordering
        requires a { IsStep self.now (record { schema = a.schema; args = a.args.now }) }
        requires b { IsStep self.now (record { schema = b.schema; args = b.args.now }) }
        ensures { result ≡ step_cmp self.now (record { schema = a.entry.schema; args = a.entry.args.now })
            (record { schema = b.entry.schema; args = b.entry.args.now }) }
    {
        if a.schema < b.schema {
            return Ordering::Less;
        }
        if b.schema < a.schema {
            return Ordering::Greater;
        }
        let form = self.schema(a.schema);
        args_cmp(form.order.as_slice(), a.args, b.args)
    }
}

/// How objects that are read in an order of parameters are ordered: the first difference decides.
fn args_cmp(order: &[u32], a: &[u32], b: &[u32]) -> Ordering
    requires a { All (λ p. p < length a.now) order.now }
    requires b { All (λ p. p < length b.now) order.now }
    ensures { result ≡ row_cmp (read_in order.now a.now) (read_in order.now b.now) }
{
    for p in order {
        let x = a[*p as usize];
        let y = b[*p as usize];
        if x < y {
            return Ordering::Less;
        }
        if y < x {
            return Ordering::Greater;
        }
    }
    Ordering::Equal
}
