//! The tables of the types of parameters. Parameters with the same list of types share one.

ghost use Rattle.std.specs.Prelude.{◌≡◌, ℕ, ◌<◌, ◌++◌, List, [], ◌∷◌, cond, map, length, take, All, IfOk};
ghost use Rattle.std.specs.Prelude.{OnOk, Some, slice_get};
ghost use Rattle.pl_task.specs.declared.data.Schema.{Schema as SchemaOf};
ghost use Rattle.pl_normal.specs.Guards.{has_some_type, types_at};
ghost use Rattle.pl_normal.specs.Kinds.{lists_of, IsNumbering, object_types, parameter_types, all_types};
ghost use Rattle.pl_normal.specs.Kinds.{AreStarts, of_kind, objects_below, AreTypeTables, AreKindTables};
ghost use Rattle.pl_normal.specs.Tables.{IsTypeTable};

use crate::guards::has_some_type;
use crate::numbering::{Numbering, number_lists};
use pl_rows::Table;
use pl_task::{ObjectDef, Parameter, Schema, Task};
use std::alloc::{AllocError, Global};

/// The tables of the types of all parameters. Parameters are numbered through all schemas.
#[derive(Drop)]
pub struct KindTables {
    /// For each schema the number of its first parameter.
    pub starts: Vec<usize>,
    /// For each parameter the number of its table.
    pub numbers: Vec<usize>,
    pub tables: Vec<Table>,
}

/// The types of the parameters of all schemas, one after another.
#[derive(Drop)]
struct TypeLists<'t> {
    /// For each schema the number of its first parameter.
    starts: Vec<usize>,
    lists: Vec<&'t [u32]>,
}

/// The tables of the types of all parameters, one for each distinct list of types.
pub fn kind_tables(alloc: Global, task: &Task) -> Result<KindTables, AllocError>
    ensures { IfOk result (λ k. AreKindTables task.now k.starts.items k.numbers.items k.tables.items) }
{
    let parameters = types_of_parameters(alloc, task.schemas.as_slice())?;
    let lists = parameters.lists.as_slice();
    let declared = types_of_objects(alloc, task.objects.as_slice())?;
    let objects = number_lists(alloc, declared.as_slice())?;
    let kinds = number_lists(alloc, lists)?;
    let tables = type_tables(alloc, task, &objects, lists, kinds.firsts.as_slice())?;
    Ok(KindTables {
        starts: parameters.starts,
        numbers: kinds.numbers,
        tables,
    })
}

/// The table of the types of a parameter.
pub fn type_table_at<'a>(
    _task: &Task,
    kinds: &'a KindTables,
    schema: u32,
    parameter: u32,
) -> &'a Table
    requires kinds { AreKindTables _task.now kinds.now.starts.items kinds.now.numbers.items
        kinds.now.tables.items }
    requires schema { schema < length _task.now.schemas }
    requires parameter { (s : SchemaOf) → slice_get _task.now.schemas schema ≡ Some s
        → parameter < length s.parameters }
    ensures { (s : SchemaOf) → slice_get _task.now.schemas schema ≡ Some s →
        IsTypeTable _task.now (types_at s.parameters parameter) result.now }
{
    let first = kinds.starts[schema as usize];
    let number = kinds.numbers[first + parameter as usize];
    &kinds.tables[number]
}

/// The types of the parameters of all schemas.
fn types_of_parameters<'t>(
    alloc: Global,
    schemas: &'t [Schema],
) -> Result<TypeLists<'t>, AllocError>
    ensures starts { IfOk result (λ t. AreStarts schemas.now (length schemas.now) t.starts.items) }
    ensures lists { IfOk result (λ t. lists_of t.lists.items ≡ all_types schemas.now) }
{
    let mut starts = Vec::with_capacity(alloc, schemas.len())?;
    let mut lists = Vec::new(alloc);
    for i in 0..schemas.len() {
        starts.push(lists.len())?;
        add_types(&mut lists, schemas[i].parameters.as_slice())?;
    }
    Ok(TypeLists { starts, lists })
}

/// Appends the types of each parameter.
fn add_types<'t>(lists: &mut Vec<&'t [u32]>, parameters: &'t [Parameter]) -> Result<(), AllocError>
    ensures { OnOk result (lists_of lists.new.items ≡ lists_of lists.old.items
        ++ parameter_types parameters.now) }
{
    for i in 0..parameters.len() {
        lists.push(parameters[i].types.as_slice())?;
    }
    Ok(())
}

/// The types that each object was declared with.
fn types_of_objects<'t>(
    alloc: Global,
    objects: &'t [ObjectDef],
) -> Result<Vec<&'t [u32]>, AllocError>
    ensures { IfOk result (λ v. lists_of v.items ≡ object_types objects.now) }
{
    let mut lists = Vec::with_capacity(alloc, objects.len())?;
    for i in 0..objects.len() {
        lists.push(objects[i].types.as_slice())?;
    }
    Ok(lists)
}

/// The table of each list that is the first with its number.
fn type_tables(
    alloc: Global,
    task: &Task,
    objects: &Numbering,
    lists: &[&[u32]],
    firsts: &[usize],
) -> Result<Vec<Table>, AllocError>
    requires objects { IsNumbering (object_types task.now.objects) objects.now.numbers.items
        objects.now.firsts.items }
    requires firsts { All (λ f. f < length lists.now) firsts.now }
    requires types { All (λ (types : List ℕ). All (λ t. t < length task.now.types) types)
        (lists_of lists.now) }
    ensures { IfOk result
        (λ v. AreTypeTables task.now (lists_of lists.now) firsts.now (length firsts.now) v.items) }
{
    let mut tables = Vec::with_capacity(alloc, firsts.len())?;
    for k in 0..firsts.len() {
        tables.push(type_table(alloc, task, objects, lists[firsts[k]])?)?;
    }
    Ok(tables)
}

/// The table of the objects that have one of the types.
fn type_table(
    alloc: Global,
    task: &Task,
    objects: &Numbering,
    types: &[u32],
) -> Result<Table, AllocError>
    requires objects { IsNumbering (object_types task.now.objects) objects.now.numbers.items
        objects.now.firsts.items }
    requires types { All (λ t. t < length task.now.types) types.now }
    ensures { IfOk result (IsTypeTable task.now types.now) }
{
    let flat = objects_with(alloc, task, objects, types)?;
    let count = flat.len();
    Table::from_rows(alloc, 1, count, flat)
}

/// The objects that have one of the types, rising.
fn objects_with(
    alloc: Global,
    task: &Task,
    objects: &Numbering,
    types: &[u32],
) -> Result<Vec<u32>, AllocError>
    requires objects { IsNumbering (object_types task.now.objects) objects.now.numbers.items
        objects.now.firsts.items }
    requires types { All (λ t. t < length task.now.types) types.now }
    ensures { IfOk result (λ v. v.items ≡ objects_below task.now types.now (length task.now.objects)) }
{
    let found = first_answers(alloc, task, objects.firsts.as_slice(), types)?;
    let answers = found.as_slice();
    let numbers = objects.numbers.as_slice();
    let mut flat = Vec::new(alloc);
    for o in 0..numbers.len() {
        add_object(&mut flat, o as u32, answers[numbers[o]])?;
    }
    Ok(flat)
}

/// Appends the object, if it has one of the types.
fn add_object(flat: &mut Vec<u32>, object: u32, has_type: bool) -> Result<(), AllocError>
    ensures { OnOk result (flat.new.items ≡ flat.old.items ++ cond has_type (object ∷ []) []) }
{
    if !has_type {
        return Ok(());
    }
    flat.push(object)?;
    Ok(())
}

/// Whether each of some objects has one of the types: one for all objects that were declared with the same
/// types, since an answer takes a search through the parents of types.
fn first_answers(
    alloc: Global,
    task: &Task,
    firsts: &[usize],
    types: &[u32],
) -> Result<Vec<bool>, AllocError>
    requires firsts { All (λ o. o < length task.now.objects) firsts.now }
    requires types { All (λ t. t < length task.now.types) types.now }
    ensures { IfOk result (λ v. v.items ≡ map (has_some_type task.now types.now) firsts.now) }
{
    let mut answers = Vec::with_capacity(alloc, firsts.len())?;
    for i in 0..firsts.len() {
        answers.push(has_some_type(alloc, task, types, firsts[i] as u32)?)?;
    }
    Ok(answers)
}
