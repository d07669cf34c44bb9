//! The turn of one schema in a walk.

ghost use Rattle.std.specs.Prelude.{◌≡◌, ◌≤◌, ◌<◌, ◌+◌, ◌*◌, [], Some, length, slice_index, All};
ghost use Rattle.pl_join.specs.Relation.{Agree, AreDistinct};
ghost use Rattle.pl_normal.specs.Filters.{late_of};
ghost use Rattle.pl_normal.specs.Measures.{assigned};
ghost use Rattle.pl_normal.specs.NormalForm.{IsNormalForm};
ghost use Rattle.pl_normal.specs.ParameterOrder.{classes_in_order};
ghost use Rattle.pl_gen.specs.Queries.{IsQuery, state_asked};
ghost use Rattle.pl_gen.specs.SchemaSteps.{passes_late};
ghost use Rattle.pl_gen.specs.Turns.{HasNextRow, HasNextStep};
ghost use Rattle.pl_gen.specs.Kept.{AreRowsFor, IsTurnOf};
ghost use Rattle.pl_gen.specs.Reads.{row_reads, turn_reads_of, TakesOfLocal};

use crate::late::passes_all;
use crate::query::Query;
use pl_cursor::Cursor;
use pl_normal::NormalSchema;
use pl_steps::Steps;
use std::sync::ledger::Ledger;

/// What the schema whose turn it is has still to give.
#[derive(Drop)]
pub enum Turn<'p> {
    /// No step.
    Over,
    /// The one step of a schema without edges.
    Once,
    /// The steps under the rows of a join that the late filters let pass.
    Rows(Cursor<'p>),
}

/// Goes on to the next step of the turn, if there is one, and leaves the values of the schema's classes for
/// it.
pub fn next_values<L: Ledger>(
    query: &Query<'_, '_>,
    form: &NormalSchema,
    turn: &mut Turn<'_>,
    values: &mut [u32],
    steps: &mut Steps<L>,
) -> bool
    requires query { IsQuery query.now }
    requires form { IsNormalForm query.now.normal.now query.now.schema.now form.now }
    requires turn { IsTurnOf query.now.normal.now query.now.number turn.old }
    requires values { length values.old ≡ 64 }
    ensures next { HasNextStep query.now turn.old turn.new values.new result }
    ensures turn { IsTurnOf query.now.normal.now query.now.number turn.new }
    ensures values { length values.new ≡ 64 }
    ensures cost { steps.new + turn_reads_of (Some query.now.schema.now) turn.new
        ≤ steps.old + turn_reads_of (Some query.now.schema.now) turn.old }
    ensures local { late_of query.now.schema.now ≡ []
        → TakesOfLocal query.now.schema.now steps.old steps.new result }
    ensures rise { steps.old ≤ steps.new }
{
    match turn {
        Turn::Over => false,
        Turn::Once => {
            *turn = Turn::Over;
            true
        }
        Turn::Rows(cursor) => next_row(query, form, cursor, values, steps),
    }
}

/// Goes on to the next row that the late filters let pass, if there is one, and writes its values.
fn next_row<L: Ledger>(
    query: &Query<'_, '_>,
    form: &NormalSchema,
    cursor: &mut Cursor<'_>,
    values: &mut [u32],
    steps: &mut Steps<L>,
) -> bool
    requires query { IsQuery query.now }
    requires form { IsNormalForm query.now.normal.now query.now.schema.now form.now }
    requires rows { AreRowsFor query.now.normal.now query.now.number cursor.old }
    requires values { length values.old ≡ 64 }
    ensures next { HasNextRow query.now cursor.old.left cursor.new.left values.new result }
    ensures rows { AreRowsFor query.now.normal.now query.now.number cursor.new }
    ensures values { length values.new ≡ 64 }
    ensures cost { steps.new + length cursor.new.left * row_reads query.now.schema.now
        ≤ steps.old + length cursor.old.left * row_reads query.now.schema.now }
    ensures local { late_of query.now.schema.now ≡ []
        → TakesOfLocal query.now.schema.now steps.old steps.new result }
    ensures rise { steps.old ≤ steps.new }
{
    while let Some(row) = cursor.next(steps) {
        if passes_row(query, form, row, values, steps) {
            return true;
        }
    }
    false
}

/// Writes the values of a row, and tells whether the late filters let it pass.
fn passes_row<L: Ledger>(
    query: &Query<'_, '_>,
    form: &NormalSchema,
    row: &[u32],
    values: &mut [u32],
    steps: &mut Steps<L>,
) -> bool
    requires query { IsQuery query.now }
    requires form { IsNormalForm query.now.normal.now query.now.schema.now form.now }
    requires row { length row.now ≡ length (classes_in_order query.now.schema.now) }
    requires values { length values.old ≡ 64 }
    ensures passes { result ≡ passes_late query.now.schema.now (state_asked query.now) row.now }
    ensures agree { Agree (classes_in_order query.now.schema.now) (slice_index values.new)
        (assigned (classes_in_order query.now.schema.now) row.now) }
    ensures values { length values.new ≡ 64 }
    ensures cost { steps.new ≤ steps.old + length (late_of query.now.schema.now) }
    ensures rise { steps.old ≤ steps.new }
{
    let order = form.order.as_slice();
    write_values(values, &order[..row.len()], row);
    passes_all(query, form.late.as_slice(), values, steps)
}

/// Writes the value of each class to the place with the class's number.
fn write_values(values: &mut [u32], classes: &[u32], row: &[u32])
    requires below { All (λ c. c < length values.old) classes.now }
    requires distinct { AreDistinct classes.now }
    requires row { length row.now ≡ length classes.now }
    ensures same { length values.new ≡ length values.old }
    ensures values { Agree classes.now (slice_index values.new) (assigned classes.now row.now) }
{
    for i in 0..classes.len() {
        values[classes[i] as usize] = row[i];
    }
}
