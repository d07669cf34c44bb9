//! The selection of a table's rows by slots.

ghost use Rattle.std.specs.Prelude.{◌≡◌, ◌↔◌, ◌+◌, ◌<◌, ◌≤◌, ◌^◌, ◌++◌, ◌∷◌, [], ℕ, List, length, map, take};
ghost use Rattle.std.specs.Prelude.{filter, slice_get, All, Some, IsTrue, Contains, IfOk, OnOk, IfSome};
ghost use Rattle.std.specs.Prelude.{IfNone};
ghost use Rattle.pl_rows.specs.Rows.{AreRows, SameRows};
ghost use Rattle.pl_join.specs.Relation.{AreClassesOf, AreDistinct, IsSelectionOf, IsSlotBelow, IsSlotOver};
ghost use Rattle.pl_join.specs.Relation.{classes_in};
ghost use Rattle.pl_join.specs.Source.{ArePlacesOf, AreNumbersBelow, AreRisingClasses, IsGathered, IsTestOf};
ghost use Rattle.pl_join.specs.Source.{IsWithin, StandInOrder, number_in, value_at, picked, fits_slots};
ghost use Rattle.pl_join.specs.Source.{passes_all};

use crate::relation::Relation;
use crate::short_list::ShortList;
use crate::slot::Slot;
use crate::source::{Source, append_picked, room_for, sources_of, value_in};
use pl_rows::Table;
use pl_steps::Steps;
use std::alloc::{AllocError, Global};
use std::sync::ledger::Ledger;

/// The relation over the classes of the slots, by rising number, whose rows are the values for which the row
/// of the slots is in the table. There is one slot for each column.
///
/// It takes at most one probe per row. A row is compared only at fixed slots and where a class stands again.
/// Where the slots are rising classes, the table is copied; other rows are sorted unless they come out in
/// order.
pub fn select<L: Ledger>(
    alloc: Global,
    table: &Table,
    slots: &[Slot],
    steps: &mut Steps<L>,
) -> Result<Relation, AllocError>
    requires slots { All (IsSlotBelow 64) slots.now }
    requires arity { length slots.now ≡ table.now.arity }
    ensures classes { IfOk result (λ r. AreClassesOf slots.now r.classes) }
    ensures rows { IfOk result (IsSelectionOf table.now.rows slots.now) }
    ensures cost { steps.new ≤ steps.old + length table.now.rows }
    ensures rise { steps.old ≤ steps.new }
{
    if are_rising(slots) {
        return copied_relation(alloc, table, slots);
    }
    let order = numbers_below(alloc, limit_of(slots))?;
    select_in_order(alloc, table, slots, order.as_slice(), steps)
}

/// The relation that `select` gives, over the classes in an order: those of the order that stand in the
/// slots.
///
/// It takes at most one probe per row. Where the slots are just these classes, one after another, the table
/// is copied; other rows are sorted unless they come out in order.
pub fn select_in_order<L: Ledger>(
    alloc: Global,
    table: &Table,
    slots: &[Slot],
    order: &[u32],
    steps: &mut Steps<L>,
) -> Result<Relation, AllocError>
    requires slots { All (IsSlotBelow 64) slots.now }
    requires arity { length slots.now ≡ table.now.arity }
    requires distinct { AreDistinct order.now }
    requires held { All (IsSlotOver order.now) slots.now }
    ensures classes { IfOk result (λ r. r.classes ≡ classes_in order.now slots.now) }
    ensures rows { IfOk result (IsSelectionOf table.now.rows slots.now) }
    ensures cost { steps.new ≤ steps.old + length table.now.rows }
    ensures rise { steps.old ≤ steps.new }
{
    if stand_in_order(slots, order) {
        return copied_relation(alloc, table, slots);
    }
    let (classes, columns) = classes_in(alloc, slots, order)?;
    fitting_relation(alloc, table, slots, classes, columns.as_slice(), steps)
}

/// Whether the slots are classes, and these rise.
fn are_rising(slots: &[Slot]) -> bool
    requires { All (IsSlotBelow 64) slots.now }
    ensures { IsTrue result → AreRisingClasses slots.now }
{
    let mut limit = 0;
    for slot in slots {
        let Some(class) = class_from(*slot, limit) else {
            return false;
        };
        limit = class + 1;
    }
    true
}

/// The slot's class, if it has one that is not below the limit.
#[inline]
fn class_from(slot: Slot, limit: u32) -> Option<u32>
    ensures { IfSome result (λ class. (slot ≡ Slot.Class class) × (limit ≤ class)) }
{
    match slot {
        Slot::Class(class) if limit <= class => Some(class),
        _ => None,
    }
}

/// Whether the slots are classes that stand in the order's order, each once.
fn stand_in_order(slots: &[Slot], order: &[u32]) -> bool
    requires { AreDistinct order.now }
    ensures { IsTrue result → StandInOrder order.now slots.now }
{
    let mut place = 0;
    for class in order {
        place = place_past(slots, place, *class);
    }
    place == slots.len()
}

/// The place behind this one where the class stands here, and else this place.
#[inline]
fn place_past(slots: &[Slot], place: usize, class: u32) -> usize
    requires { place ≤ length slots.now }
    ensures within { result ≤ length slots.now }
    ensures past { (done : List ℕ) → (Contains done class → ⊥) → StandInOrder done (take place slots.now)
        → StandInOrder (done ++ class ∷ []) (take result slots.now) }
{
    if place == slots.len() {
        return place;
    }
    if !is_class(slots[place], class) {
        return place;
    }
    place + 1
}

/// The selection by slots that are just classes, each once, over these in the order of the slots: its rows
/// are the table's.
fn copied_relation(alloc: Global, table: &Table, slots: &[Slot]) -> Result<Relation, AllocError>
    requires slots { All (IsSlotBelow 64) slots.now }
    requires arity { length slots.now ≡ table.now.arity }
    requires just { slots.now ≡ map Slot.Class (map number_in slots.now) }
    requires distinct { AreDistinct (map number_in slots.now) }
    ensures classes { IfOk result (λ r. r.classes ≡ map number_in slots.now) }
    ensures rows { IfOk result (IsSelectionOf table.now.rows slots.now) }
{
    let classes = numbers_in(alloc, slots)?;
    Ok(Relation::new(classes, table.copied(alloc)?))
}

/// The numbers in the slots.
fn numbers_in(alloc: Global, slots: &[Slot]) -> Result<ShortList<u32>, AllocError>
    ensures { IfOk result (λ r. r.items ≡ map number_in slots.now) }
{
    let mut numbers = ShortList::new(alloc);
    for slot in slots {
        numbers.push(number_of(*slot))?;
    }
    Ok(numbers)
}

/// The number in the slot: its value or its class.
#[inline]
fn number_of(slot: Slot) -> u32
    ensures { result ≡ number_in slot }
{
    match slot {
        Slot::Fixed(value) => value,
        Slot::Class(class) => class,
    }
}

/// The numbers below the limit, rising.
fn numbers_below(alloc: Global, limit: u32) -> Result<ShortList<u32>, AllocError>
    ensures { IfOk result (λ r. AreNumbersBelow limit r.items) }
{
    let mut numbers = ShortList::new(alloc);
    for number in 0..limit {
        numbers.push(number)?;
    }
    Ok(numbers)
}

/// The selection by slots that may be fixed, repeat a class or stand in another order than the classes, each
/// of which stands in one of the columns.
fn fitting_relation<L: Ledger>(
    alloc: Global,
    table: &Table,
    slots: &[Slot],
    classes: ShortList<u32>,
    columns: &[usize],
    steps: &mut Steps<L>,
) -> Result<Relation, AllocError>
    requires arity { length slots.now ≡ table.now.arity }
    requires distinct { AreDistinct classes.items }
    requires below { All (λ c. c < 64) classes.items }
    requires over { All (IsSlotOver classes.items) slots.now }
    requires places { ArePlacesOf slots.now classes.items columns.now }
    ensures classes { IfOk result (λ r. r.classes ≡ classes.items) }
    ensures rows { IfOk result (IsSelectionOf table.now.rows slots.now) }
    ensures cost { steps.new ≤ steps.old + length table.now.rows }
    ensures rise { steps.old ≤ steps.new }
{
    let sources = sources_of(alloc, classes.as_slice(), slots)?;
    let kept = fitting_rows(alloc, table, columns, sources.as_slice(), steps)?;
    Ok(Relation::new(classes, kept))
}

/// The classes of the order that stand in the slots, and for each of them a place where it stands.
fn classes_in(
    alloc: Global,
    slots: &[Slot],
    order: &[u32],
) -> Result<(ShortList<u32>, ShortList<usize>), AllocError>
    ensures { IfOk result (λ r. IsGathered slots.now order.now r.0.items r.1.items) }
{
    let mut classes = ShortList::new(alloc);
    let mut columns = ShortList::new(alloc);
    for class in order {
        gather(slots, *class, &mut classes, &mut columns)?;
    }
    Ok((classes, columns))
}

/// The number behind the largest class of the slots, and 0 where they have no class.
fn limit_of(slots: &[Slot]) -> u32
    requires { All (IsSlotBelow 64) slots.now }
    ensures below { All (IsSlotBelow result) slots.now }
    ensures most { result ≤ 64 }
{
    let mut limit = 0;
    for slot in slots {
        limit = limit_with(limit, *slot);
    }
    limit
}

/// The limit, or the number behind the slot's class where that is larger.
#[inline]
fn limit_with(limit: u32, slot: Slot) -> u32
    requires slot { IsSlotBelow 64 slot }
    requires most { limit ≤ 64 }
    ensures below { IsSlotBelow result slot }
    ensures more { limit ≤ result }
    ensures most { result ≤ 64 }
{
    match slot {
        Slot::Fixed(_) => limit,
        Slot::Class(class) if class < limit => limit,
        Slot::Class(class) => class + 1,
    }
}

/// Appends the class and a place where it stands, if it stands in the slots.
fn gather(
    slots: &[Slot],
    class: u32,
    classes: &mut ShortList<u32>,
    columns: &mut ShortList<usize>,
) -> Result<(), AllocError>
    ensures { OnOk result ((done : List ℕ) → IsGathered slots.now done classes.old.items columns.old.items
        → IsGathered slots.now (done ++ class ∷ []) classes.new.items columns.new.items) }
{
    match place_in(slots, class) {
        None => Ok(()),
        Some(place) => {
            classes.push(class)?;
            columns.push(place)?;
            Ok(())
        }
    }
}

/// The first place where the class stands, if it does.
fn place_in(slots: &[Slot], class: u32) -> Option<usize>
    ensures place { IfSome result (λ place. slice_get slots.now place ≡ Some (Slot.Class class)) }
    ensures none { IfNone result (Contains slots.now (Slot.Class class) → ⊥) }
{
    for (place, slot) in slots.iter().enumerate() {
        if is_class(*slot, class) {
            return Some(place);
        }
    }
    None
}

/// Whether the slot is this class.
fn is_class(slot: Slot, class: u32) -> bool
    ensures { IsTrue result ↔ (slot ≡ Slot.Class class) }
{
    match slot {
        Slot::Fixed(_) => false,
        Slot::Class(known) => known == class,
    }
}

/// The values in the columns, of the rows that are what the sources give for these values.
fn fitting_rows<L: Ledger>(
    alloc: Global,
    table: &Table,
    columns: &[usize],
    sources: &[Source],
    steps: &mut Steps<L>,
) -> Result<Table, AllocError>
    requires columns { All (λ column. column < table.now.arity) columns.now }
    requires sources { All (IsWithin (length columns.now)) sources.now }
    requires arity { length sources.now ≡ table.now.arity }
    requires few { length columns.now < 2 ^ 32 }
    ensures arity { IfOk result (λ t. t.arity ≡ length columns.now) }
    ensures rows { IfOk result (λ t. AreRows (length columns.now) t.rows) }
    ensures same { IfOk result (λ t. SameRows t.rows
        (map (picked columns.now) (filter (fits_slots sources.now columns.now) table.now.rows))) }
    ensures cost { steps.new ≤ steps.old + length table.now.rows }
    ensures rise { steps.old ≤ steps.new }
{
    let tests = tests_of(alloc, columns, sources)?;
    passing_rows(alloc, table, columns, tests.as_slice(), steps)
}

/// A column of a row, and where its value has to stand too.
#[derive(Clone, Copy, Default)]
pub struct Test {
    pub column: usize,
    pub source: Source,
}

/// The tests that a row can fail: those of fixed values, and of columns that are not picked.
fn tests_of(
    alloc: Global,
    columns: &[usize],
    sources: &[Source],
) -> Result<ShortList<Test>, AllocError>
    requires columns { All (λ column. column < length sources.now) columns.now }
    requires sources { All (IsWithin (length columns.now)) sources.now }
    ensures within { IfOk result (λ tests. All (IsTestOf (length sources.now)) tests.items) }
    ensures tests { IfOk result (λ tests. (row : List ℕ) → length row ≡ length sources.now →
        passes_all tests.items row ≡ fits_slots sources.now columns.now row) }
{
    let mut tests = ShortList::new(alloc);
    for (column, source) in sources.iter().enumerate() {
        let source = source_through(columns, *source);
        if !is_column(source, column) {
            tests.push(Test { column, source })?;
        }
    }
    Ok(tests)
}

/// Where a source of the picked values stands in the row that they are picked from.
fn source_through(columns: &[usize], source: Source) -> Source
    requires { IsWithin (length columns.now) source }
    ensures within { (arity : ℕ) → All (λ column. column < arity) columns.now → IsWithin arity result }
    ensures value { (row : List ℕ) → value_at row result ≡ value_at (picked columns.now row) source }
{
    match source {
        Source::Fixed(value) => Source::Fixed(value),
        Source::Column(place) => Source::Column(columns[place]),
    }
}

/// Whether the source is this column.
fn is_column(source: Source, column: usize) -> bool
    ensures { IsTrue result ↔ (source ≡ Source.Column column) }
{
    match source {
        Source::Fixed(_) => false,
        Source::Column(known) => known == column,
    }
}

/// The values in the columns, of the rows that pass the tests.
fn passing_rows<L: Ledger>(
    alloc: Global,
    table: &Table,
    columns: &[usize],
    tests: &[Test],
    steps: &mut Steps<L>,
) -> Result<Table, AllocError>
    requires columns { All (λ column. column < table.now.arity) columns.now }
    requires tests { All (IsTestOf table.now.arity) tests.now }
    requires few { length columns.now < 2 ^ 32 }
    ensures arity { IfOk result (λ t. t.arity ≡ length columns.now) }
    ensures rows { IfOk result (λ t. AreRows (length columns.now) t.rows) }
    ensures same { IfOk result (λ t. SameRows t.rows
        (map (picked columns.now) (filter (passes_all tests.now) table.now.rows))) }
    ensures table { AreRows table.now.arity table.now.rows }
    ensures cost { steps.new ≤ steps.old + length table.now.rows }
    ensures rise { steps.old ≤ steps.new }
{
    let len = table.len();
    let mut flat = room_for(alloc, len, columns.len())?;
    let mut count = 0;
    for i in 0..len {
        let row = table.row(i, steps);
        if passes(row, tests) {
            append_picked(&mut flat, row, columns)?;
            count += 1;
        }
    }
    Table::from_rows(alloc, columns.len() as u32, count, flat)
}

/// Whether the row passes all tests.
#[inline]
fn passes(row: &[u32], tests: &[Test]) -> bool
    requires { All (IsTestOf (length row.now)) tests.now }
    ensures { result ≡ passes_all tests.now row.now }
{
    for test in tests {
        if row[test.column] != value_in(row, test.source) {
            return false;
        }
    }
    true
}
