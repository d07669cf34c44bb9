//! What no state changes: the tables of static predicates.

ghost use Rattle.std.specs.Prelude.{◌≡◌, ◌+◌, ◌<◌, ◌↔◌, [], Some, true, length, take, Contains, IfOk, OnOk};
ghost use Rattle.std.specs.Prelude.{IsTrue, slice_get};
ghost use Rattle.pl_task.specs.declared.data.PredicateDef.{PredicateDef as PredicateOf};
ghost use Rattle.pl_normal.specs.StateTables.{AreTables, HasTable};
ghost use Rattle.pl_normal.specs.Tables.{IsStatic, AreStatics, AddsRow, AreGathered, gathered};
ghost use Rattle.pl_rows.specs.Rows.{Rows as RowsOf};
ghost use Rattle.std.proofs.Common.{get_or};

use pl_rows::{Range, Table, TableBuilder, bisect};
use pl_task::{PredicateDef, Task};
use std::alloc::{AllocError, Global};

/// For each predicate the table of its initial atoms, if it is static. It goes over the initial atoms once.
pub fn static_tables(alloc: Global, task: &Task) -> Result<Vec<Option<Table>>, AllocError>
    ensures { IfOk result (λ v. AreStatics task.now v.items) }
{
    let mut builders = builders_of(alloc, task.predicates.as_slice())?;
    gather(builders.as_mut_slice(), task)?;
    tables_of(alloc, task, builders)
}

/// For each predicate no rows yet.
fn builders_of(alloc: Global, predicates: &[PredicateDef]) -> Result<Vec<TableBuilder>, AllocError>
    ensures { IfOk result (λ v. AreGathered predicates.now [] v.items) }
{
    let mut builders = Vec::with_capacity(alloc, predicates.len())?;
    for p in 0..predicates.len() {
        builders.push(TableBuilder::new(alloc, predicates[p].arity))?;
    }
    Ok(builders)
}

/// Gathers the rows of all initial atoms of static predicates.
fn gather(builders: &mut [TableBuilder], task: &Task) -> Result<(), AllocError>
    requires { AreGathered task.now.predicates [] builders.old }
    ensures { OnOk result (AreGathered task.now.predicates task.now.init builders.new) }
{
    let atoms = task.init.as_slice();
    for i in 0..atoms.len() {
        gather_atom(builders, task, i)?;
    }
    Ok(())
}

/// Gathers the row of an initial atom, if its predicate is static.
fn gather_atom(builders: &mut [TableBuilder], task: &Task, i: usize) -> Result<(), AllocError>
    requires within { i < length task.now.init }
    requires few { i < usize.MAX }
    requires before { AreGathered task.now.predicates (take i task.now.init) builders.old }
    ensures { OnOk result (AreGathered task.now.predicates (take (i + 1) task.now.init) builders.new) }
{
    let atom = &task.init.as_slice()[i];
    let place = atom.predicate as usize;
    let definition = &task.predicates.as_slice()[place];
    if !definition.is_static {
        return Ok(());
    }
    add_row_at(builders, place, atom.objects.as_slice())
}

/// Appends a row to what is gathered at a place.
fn add_row_at(builders: &mut [TableBuilder], place: usize, row: &[u32]) -> Result<(), AllocError>
    requires place { place < length builders.old }
    requires width { (b : RowsOf) → length row.now ≡ (get_or builders.old place b).arity }
    requires few { (b : RowsOf) → length (get_or builders.old place b).rows < usize.MAX }
    ensures { OnOk result (AddsRow builders.old builders.new place row.now) }
{
    builders[place].push(row)
}

/// The tables of the rows that were gathered.
fn tables_of(
    alloc: Global,
    task: &Task,
    builders: Vec<TableBuilder>,
) -> Result<Vec<Option<Table>>, AllocError>
    requires { AreGathered task.now.predicates task.now.init builders.items }
    ensures { IfOk result (λ v. AreStatics task.now v.items) }
{
    let mut tables = Vec::with_capacity(alloc, builders.len())?;
    for builder in builders {
        tables.push(static_table(alloc, task, tables.len(), builder)?)?;
    }
    Ok(tables)
}

/// The table of the initial atoms of a static predicate, and none for a fluent one.
fn static_table(
    alloc: Global,
    task: &Task,
    predicate: usize,
    builder: TableBuilder,
) -> Result<Option<Table>, AllocError>
    requires within { predicate < length task.now.predicates }
    requires rows { (d : PredicateOf) → slice_get task.now.predicates predicate ≡ Some d
        → d.is_static ≡ true →
        builder ≡ gathered d predicate task.now.init }
    ensures { IfOk result (IsStatic task.now predicate) }
{
    let definition = &task.predicates.as_slice()[predicate];
    if !definition.is_static {
        return Ok(None);
    }
    Ok(Some(builder.into_table(alloc)?))
}

/// For each fluent predicate the table without a row: the state in which no fluent atom is true.
pub fn empty_tables(alloc: Global, task: &Task) -> Result<Vec<Option<Table>>, AllocError>
    ensures { IfOk result (λ v. AreTables task.now v.items) }
{
    let predicates = task.predicates.as_slice();
    let mut tables = Vec::with_capacity(alloc, predicates.len())?;
    for p in 0..predicates.len() {
        tables.push(empty_table(alloc, task, p))?;
    }
    Ok(tables)
}

/// The table without a row for a fluent predicate, and none for a static one.
fn empty_table(alloc: Global, task: &Task, predicate: usize) -> Option<Table>
    requires { predicate < length task.now.predicates }
    ensures { HasTable task.now predicate result }
{
    let definition = &task.predicates.as_slice()[predicate];
    if definition.is_static {
        return None;
    }
    Some(Table::from_ascending(definition.arity, 0, Vec::new(alloc)))
}

/// Whether the table has the row. What is asked once a task is not counted.
pub fn has_row(table: &Table, row: &[u32]) -> bool
    requires { length row.now ≡ table.now.arity }
    ensures { IsTrue result ↔ Contains table.now.rows row.now }
{
    let count = table.len();
    let flat = table.part(Range { from: 0, to: count });
    bisect::has_row(flat, table.arity() as usize, count, row)
}
