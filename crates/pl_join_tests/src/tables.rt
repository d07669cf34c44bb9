//! Rows and places that were worked out by hand.

ghost use Rattle.std.specs.Prelude.{◌≡◌, ◌<◌, length};

use crate::given::{Rows, reads, table_of};
use pl_rows::{Indexed, Range, Table, TableBuilder, laws};
use pl_steps::Steps;
use std::alloc::{AllocError, Global};
use std::marker::Brand;
use std::sync::ledger::{Blank, Ledger};
use std::test::Fail;

/// Rows as they are given, and as the table has them.
type Given = (Rows<'static>, &'static [&'static [u32]]);

/// Pairs, of which one stands twice.
const PAIRS: Rows<'static> = Rows(2, 3, &[1, 0, 0, 1, 1, 0]);

const GIVEN: &[Given] = &[
    (PAIRS, &[&[0, 1], &[1, 0]]),
    (Rows(0, 3, &[]), &[&[]]),
    (Rows(0, 0, &[]), &[]),
    (Rows(3, 0, &[]), &[]),
    (Rows(1, 5, &[7, 3, 7, 0, 3]), &[&[0], &[3], &[7]]),
    (Rows(2, 2, &[0, 9, 1, 0]), &[&[0, 9], &[1, 0]]),
    (
        Rows(3, 3, &[2, 0, 1, 1, 9, 9, 2, 0, 0]),
        &[&[1, 9, 9], &[2, 0, 0], &[2, 0, 1]],
    ),
    (
        Rows(5, 3, &[1, 1, 1, 1, 2, 1, 1, 1, 1, 1, 1, 1, 1, 1, 2]),
        &[&[1, 1, 1, 1, 1], &[1, 1, 1, 1, 2]],
    ),
];

/// A key, how many rows are below it, and how many begin with it.
type Asked = (&'static [u32], usize, usize);

/// The rows that `ASKED` is about: six rows of three values.
const SIX: Rows<'static> = Rows(
    3,
    6,
    &[
        1, 2, 3, 1, 2, 5, 1, 4, 0, 2, 0, 0, 2, 0, 7, 4000000000, 4, 4,
    ],
);

const ASKED: &[Asked] = &[
    (&[], 0, 6),
    (&[0], 0, 0),
    (&[1], 0, 3),
    (&[2], 3, 2),
    (&[3], 5, 0),
    (&[100000], 5, 0),
    (&[4000000000], 5, 1),
    (&[4294967295], 6, 0),
    (&[1, 1], 0, 0),
    (&[1, 2], 0, 2),
    (&[1, 3], 2, 0),
    (&[2, 0], 3, 2),
    (&[2, 1], 5, 0),
    (&[1, 2, 3], 0, 1),
    (&[1, 2, 4], 1, 0),
    (&[2, 0, 7], 4, 1),
    (&[4000000000, 4, 4], 5, 1),
    (&[4000000000, 4, 5], 6, 0),
];

const ASKED_IN_LONG_RUN: &[Asked] = &[
    (&[5, 0], 0, 2),
    (&[5, 147], 98, 2),
    (&[5, 30, 1], 21, 1),
    (&[5, 30, 2], 22, 0),
    (&[5, 31], 22, 0),
    (&[5, 148], 100, 0),
    (&[4, 9], 0, 0),
    (&[6, 0], 100, 0),
];

fn is_given<L: Ledger>(alloc: Global, given: &Given, blank: Blank) -> Result<bool, AllocError>
    requires name { blank.name ≡ L.name }
    requires parts { blank.parts ≡ L.parts }
    requires some { 0 < blank.parts }
{
    let mut steps: Steps<L> = Steps::new(blank);
    let (from, rows) = *given;
    let Some(table) = table_of(alloc, from)? else {
        return Ok(false);
    };
    Ok(
        table.arity() == from.0
            && reads(&table, rows, &mut steps)
            && is_copied(alloc, &table, rows, &mut steps)?,
    )
}

/// Whether a copy has the rows, and so has a table that is made of its first half and the rows behind it.
fn is_copied<L: Ledger>(
    alloc: Global,
    table: &Table,
    rows: &[&[u32]],
    steps: &mut Steps<L>,
) -> Result<bool, AllocError> {
    let copy = table.copied(alloc)?;
    let Some(again) = rebuilt(alloc, &copy, rows.len() / 2, steps)? else {
        return Ok(false);
    };
    Ok(reads(&copy, rows, steps) && reads(&again, rows, steps))
}

/// The table of the first rows and of those behind them, one after another.
fn rebuilt<L: Ledger>(
    alloc: Global,
    table: &Table,
    first: usize,
    steps: &mut Steps<L>,
) -> Result<Option<Table>, AllocError> {
    if table.len() < first {
        return Ok(None);
    }
    let mut builder = TableBuilder::front_of(alloc, table, first)?;
    for place in first..table.len() {
        builder.push(table.row(place, steps))?;
    }
    Ok(Some(builder.into_table(alloc)?))
}

/// Whether the key is found where it is in the table, and also where the index is one that lasts.
fn finds<L: Ledger>(
    alloc: Global,
    table: Table,
    asked: &Asked,
    steps: &mut Steps<L>,
) -> Result<bool, AllocError> {
    let (key, below, with) = *asked;
    let Ok(width) = u32::try_from(key.len()) else {
        return Ok(false);
    };
    if table.arity() < width {
        return Ok(false);
    }
    let count = table.len();
    let indexed = Indexed::build(alloc, table, width, steps)?;
    if indexed.table().len() != count || indexed.width() != width {
        return Ok(false);
    }
    let want = Range {
        from: below,
        to: below.wrapping_add(with),
    };
    if indexed.find(key, steps) != want {
        return Ok(false);
    }
    let lasting = indexed.lasting(alloc)?;
    Ok(lasting.find(key, steps) == want)
}

/// Whether the row is found to be in the table, or not to be, from each place on.
fn has_from_each_place<L: Ledger>(
    table: &Table,
    row: &[u32],
    is_there: bool,
    steps: &mut Steps<L>,
) -> bool
    requires { length row.now ≡ table.now.arity }
{
    for place in 0..9 {
        let mut near = place;
        if table.has_near(row, &mut near, steps) != is_there {
            return false;
        }
    }
    true
}

fn is_answered<L: Ledger>(alloc: Global, asked: &Asked, blank: Blank) -> Result<bool, AllocError>
    requires name { blank.name ≡ L.name }
    requires parts { blank.parts ≡ L.parts }
    requires some { 0 < blank.parts }
{
    let mut steps: Steps<L> = Steps::new(blank);
    let Some(table) = table_of(alloc, SIX)? else {
        return Ok(false);
    };
    let (key, below, with) = *asked;
    let arity = table.arity() as usize;
    if table.len() != 6 || key.len() > arity || table.first_from(key, &mut steps) != below {
        return Ok(false);
    }
    if key.len() == arity {
        if table.has(key, &mut steps) != (with == 1) {
            return Ok(false);
        }
        if !has_from_each_place(&table, key, with == 1, &mut steps) {
            return Ok(false);
        }
    }
    finds(alloc, table, asked, &mut steps)
}

/// Whether the key is found where it is among 100 rows with one first value: each second value is a multiple
/// of 3, and is in two rows.
fn is_found_in_long_run<L: Ledger>(
    alloc: Global,
    asked: &Asked,
    blank: Blank,
) -> Result<bool, AllocError>
    requires name { blank.name ≡ L.name }
    requires parts { blank.parts ≡ L.parts }
    requires some { 0 < blank.parts }
{
    let mut steps: Steps<L> = Steps::new(blank);
    let mut flat = Vec::new(alloc);
    for i in 0..100_u32 {
        flat.push(5)?;
        flat.push(i / 2 * 3)?;
        flat.push(i % 2)?;
    }
    match table_of(alloc, Rows(3, 100, &flat))? {
        None => Ok(false),
        Some(table) => finds(alloc, table, asked, &mut steps),
    }
}

/// How many rows of the first table are below the key.
fn pairs_below<L: Ledger>(alloc: Global, key: &[u32], blank: Blank) -> Result<usize, AllocError>
    requires name { blank.name ≡ L.name }
    requires parts { blank.parts ≡ L.parts }
    requires some { 0 < blank.parts }
{
    let mut steps: Steps<L> = Steps::new(blank);
    let Some(table) = table_of(alloc, PAIRS)? else {
        return Ok(usize::MAX);
    };
    if key.len() > table.arity() as usize {
        return Ok(usize::MAX);
    }
    Ok(table.first_from(key, &mut steps))
}

#[test]
fn a_table_has_each_row_once_and_in_order(rt: HostRuntime) -> Result<(), Fail> {
    laws::one_list_for_a_set();
    for (i, given) in GIVEN.iter().enumerate() {
        let met = is_given::<Brand>(rt.alloc(), given, Blank::new(1))?;
        assert!(rt; met, "case {i}");
    }
    Ok(())
}

#[test]
fn keys_of_every_length_are_found(rt: HostRuntime) -> Result<(), Fail> {
    for (i, asked) in ASKED.iter().enumerate() {
        let met = is_answered::<Brand>(rt.alloc(), asked, Blank::new(1))?;
        assert!(rt; met, "case {i}");
    }
    Ok(())
}

#[test]
fn a_key_counts_the_rows_below_it(rt: HostRuntime) -> Result<(), Fail> {
    let cases: [(&[u32], usize); 6] = [
        (&[], 0),
        (&[0], 0),
        (&[0, 2], 1),
        (&[1], 1),
        (&[1, 1], 2),
        (&[2], 2),
    ];
    for (key, below) in cases {
        let found = pairs_below::<Brand>(rt.alloc(), key, Blank::new(1))?;
        assert_eq!(rt; found, below);
    }
    Ok(())
}

#[test]
fn keys_are_found_in_a_long_run(rt: HostRuntime) -> Result<(), Fail> {
    for (i, asked) in ASKED_IN_LONG_RUN.iter().enumerate() {
        let met = is_found_in_long_run::<Brand>(rt.alloc(), asked, Blank::new(1))?;
        assert!(rt; met, "case {i}");
    }
    Ok(())
}
