//! Where the values of slots and classes stand in the rows of a relation.

ghost use Rattle.std.specs.Prelude.{◌≡◌, ◌<◌, ◌^◌, ◌++◌, [], ℕ, length, map, slice_index, All};
ghost use Rattle.std.specs.Prelude.{Contains, IfOk, IfSome, IfNone, OnOk};
ghost use Rattle.pl_join.specs.Relation.{slot_value, IsSlotOver};
ghost use Rattle.pl_join.specs.Source.{value_at, IsWithin, picked, looked_at};

use crate::short_list::ShortList;
use crate::slot::Slot;
use std::alloc::{AllocError, Global};

/// Where a value comes from, given a row.
#[derive(Clone, Copy)]
pub enum Source {
    /// It is always this one.
    Fixed(u32),
    /// It stands in this column.
    Column(usize),
}

impl Default for Source {
    fn default() -> Source {
        Source::Fixed(0)
    }
}

/// The value of the source in the row.
#[inline]
pub fn value_in(row: &[u32], source: Source) -> u32
    requires { IsWithin (length row.now) source }
    ensures { result ≡ value_at row.now source }
{
    match source {
        Source::Fixed(value) => value,
        Source::Column(column) => row[column],
    }
}

/// At which place the class stands, if it does.
pub fn place_of(classes: &[u32], class: u32) -> Option<usize>
    ensures within { IfSome result (λ place. place < length classes.now) }
    ensures place { IfSome result (λ place. slice_index classes.now place ≡ class) }
    ensures none { IfNone result (Contains classes.now class → ⊥) }
{
    for (place, known) in classes.iter().enumerate() {
        if *known == class {
            return Some(place);
        }
    }
    None
}

/// The column of a class, in rows over the classes.
pub fn column_of(classes: &[u32], class: u32) -> usize
    requires { Contains classes.now class }
    ensures within { result < length classes.now }
    ensures place { slice_index classes.now result ≡ class }
{
    match place_of(classes, class) {
        Some(place) => place,
        None => unreachable!(),
    }
}

/// The source of a slot, in rows over the classes.
pub fn source_of(classes: &[u32], slot: Slot) -> Source
    requires { IsSlotOver classes.now slot }
    ensures within { IsWithin (length classes.now) result }
    ensures value { (f : ℕ → ℕ) → value_at (map f classes.now) result ≡ slot_value f slot }
{
    match slot {
        Slot::Fixed(value) => Source::Fixed(value),
        Slot::Class(class) => Source::Column(column_of(classes, class)),
    }
}

/// The sources of some slots, in rows over the classes.
pub fn sources_of(
    alloc: Global,
    classes: &[u32],
    slots: &[Slot],
) -> Result<ShortList<Source>, AllocError>
    requires { All (IsSlotOver classes.now) slots.now }
    ensures len { IfOk result (λ s. length s.items ≡ length slots.now) }
    ensures within { IfOk result (λ s. All (IsWithin (length classes.now)) s.items) }
    ensures values { IfOk result (λ s. (f : ℕ → ℕ) →
        looked_at s.items (map f classes.now) ≡ map (slot_value f) slots.now) }
{
    let mut sources = ShortList::new(alloc);
    for slot in slots {
        sources.push(source_of(classes, *slot))?;
    }
    Ok(sources)
}

/// The sources of some of the classes, in rows over the classes.
pub fn class_sources(
    alloc: Global,
    classes: &[u32],
    wanted: &[u32],
) -> Result<ShortList<Source>, AllocError>
    requires { All (Contains classes.now) wanted.now }
    ensures len { IfOk result (λ s. length s.items ≡ length wanted.now) }
    ensures within { IfOk result (λ s. All (IsWithin (length classes.now)) s.items) }
    ensures values { IfOk result (λ s. (f : ℕ → ℕ) →
        looked_at s.items (map f classes.now) ≡ map f wanted.now) }
{
    let mut sources = ShortList::new(alloc);
    for class in wanted {
        sources.push(Source::Column(column_of(classes, *class)))?;
    }
    Ok(sources)
}

/// The columns of some of the classes, in rows over the classes.
pub fn columns_of(
    alloc: Global,
    classes: &[u32],
    wanted: &[u32],
) -> Result<ShortList<usize>, AllocError>
    requires { All (Contains classes.now) wanted.now }
    ensures len { IfOk result (λ columns. length columns.items ≡ length wanted.now) }
    ensures within { IfOk result (λ columns. All (λ column. column < length classes.now) columns.items) }
    ensures values { IfOk result (λ columns. (f : ℕ → ℕ) →
        picked columns.items (map f classes.now) ≡ map f wanted.now) }
{
    let mut columns = ShortList::new(alloc);
    for class in wanted {
        columns.push(column_of(classes, *class))?;
    }
    Ok(columns)
}

/// Writes the values of the columns into `values`.
#[inline]
pub fn pick(values: &mut [u32], row: &[u32], columns: &[usize])
    requires len { length values.old ≡ length columns.now }
    requires within { All (λ column. column < length row.now) columns.now }
    ensures { values.new ≡ picked columns.now row.now }
{
    for (i, column) in columns.iter().enumerate() {
        values[i] = row[*column];
    }
}

/// Writes the values of the sources into `values`.
#[inline]
pub fn look_at(values: &mut [u32], row: &[u32], sources: &[Source])
    requires len { length values.old ≡ length sources.now }
    requires within { All (IsWithin (length row.now)) sources.now }
    ensures { values.new ≡ looked_at sources.now row.now }
{
    for (i, source) in sources.iter().enumerate() {
        values[i] = value_in(row, *source);
    }
}

/// Appends the values. For the few values of a row it is faster than `extend_from_slice`.
#[inline]
pub fn append(flat: &mut Vec<u32>, values: &[u32]) -> Result<(), AllocError>
    ensures items { OnOk result (flat.new.items ≡ flat.old.items ++ values.now) }
{
    for value in values {
        flat.push(*value)?;
    }
    Ok(())
}

/// Appends the values of the columns.
#[inline]
pub fn append_picked(flat: &mut Vec<u32>, row: &[u32], columns: &[usize]) -> Result<(), AllocError>
    requires { All (λ column. column < length row.now) columns.now }
    ensures items { OnOk result (flat.new.items ≡ flat.old.items ++ picked columns.now row.now) }
{
    for column in columns {
        flat.push(row[*column])?;
    }
    Ok(())
}

/// How many rows a list of rows has room for from the start.
const ROOM: usize = 16;

/// An empty list with room for so many rows, but for a few at most: so a short list is grown no more, and of
/// a long one nothing is wasted where few rows are kept.
pub fn room_for(alloc: Global, rows: usize, width: usize) -> Result<Vec<u32>, AllocError>
    requires { width < 2 ^ 32 }
    ensures items { IfOk result (λ flat. flat.items ≡ []) }
{
    Vec::with_capacity(alloc, rows.min(ROOM) * width)
}

/// Room for so many values.
pub fn zeros(alloc: Global, count: usize) -> Result<ShortList<u32>, AllocError>
    ensures len { IfOk result (λ values. length values.items ≡ count) }
{
    ShortList::from_elem(alloc, 0, count)
}
