//! The place from which the answers past a tuple stand.

ghost use Rattle.std.specs.Prelude.{◌≡◌, ◌+◌, ◌*◌, ◌≤◌, ◌<◌, [], List, ℕ, length, take, slice_get};
ghost use Rattle.std.specs.Prelude.{slice_range, cond, Some, IsTrue};
ghost use Rattle.std.specs.Bool.{OnTrue, OnFalse};
ghost use Rattle.std.specs.List.{list_any};
ghost use Rattle.pl_rows.specs.Rows.{begins_with, is_below};
ghost use Rattle.pl_cursor.specs.Answers.{stage_at, key_of, AreFirstIn};
ghost use Rattle.pl_cursor.specs.Stages.{stages_of};
ghost use Rattle.pl_cursor.specs.Kept.{IsLayout, NeverEnds, IsPlaced, IsNarrowed, written};

use crate::layout::{Layout, MOST_CLASSES};
use crate::position::{Frame, look_up, write_at};
use pl_reduce::Reduced;
use pl_rows::{Range, Table};
use pl_steps::Steps;
use std::sync::ledger::Ledger;

/// Where the answers past a tuple stand: up to which depth the stages were gone into, and whether the tuple
/// is an answer.
#[derive(Clone, Copy)]
pub struct Narrowed {
    pub depth: usize,
    pub found: bool,
}

/// Goes down the stages as long as one of their rows brings what the tuple has there, and leaves in their
/// frames the rows behind it. The tuple stands in `answer`.
///
/// It takes at most three probes for each stage.
pub fn narrow<L: Ledger>(
    reduced: &Reduced<'_>,
    layout: &Layout<'_>,
    frames: &mut [Frame],
    answer: &[u32],
    steps: &mut Steps<L>,
) -> Narrowed
    requires layout { IsLayout reduced.now layout.now }
    requires frames { length frames.old ≡ 64 }
    requires answer { length answer.now ≡ 64 }
    requires onward { NeverEnds (stages_of reduced.now) [] }
    ensures narrowed { IsNarrowed (stages_of reduced.now) (length reduced.now.classes) frames.new answer.now
        result }
    ensures cost { steps.new ≤ steps.old + 3 * length layout.now.stops.now }
    ensures rise { steps.old ≤ steps.new }
{
    for t in 0..layout.stops.len() {
        let place = place_of(reduced, layout, t, answer, steps);
        frames[t] = place.frame;
        if !place.found {
            return Narrowed {
                depth: t + 1,
                found: false,
            };
        }
    }
    Narrowed {
        depth: layout.stops.len(),
        found: true,
    }
}

/// What is left of a stage's rows, and whether the one before them brings what the tuple has there.
#[derive(Clone, Copy)]
pub struct Place {
    pub frame: Frame,
    pub found: bool,
}

/// Finds the first of the rows that go on with the tuple that doesn't bring less than the tuple has there, in
/// at most three probes.
fn place_of<L: Ledger>(
    reduced: &Reduced<'_>,
    layout: &Layout<'_>,
    t: usize,
    answer: &[u32],
    steps: &mut Steps<L>,
) -> Place
    requires layout { IsLayout reduced.now layout.now }
    requires depth { t < length layout.now.stops.now }
    requires answer { length answer.now ≡ 64 }
    requires onward { let stage = stage_at (stages_of reduced.now) t in
        IsTrue (list_any (begins_with (key_of stage.keys (take stage.from answer.now))) stage.rows) }
    ensures place { IsPlaced (stages_of reduced.now) (length reduced.now.classes) t answer.now result }
    ensures cost { steps.new ≤ steps.old + 3 }
    ensures rise { steps.old ≤ steps.new }
{
    let mut tuple = [0; MOST_CLASSES];
    let range = look_up(reduced, layout, t, &mut tuple, answer, steps);
    let stop = layout.stops[t];
    let arity = reduced.node_classes(stop.node).len();
    write_part(
        &mut tuple,
        stop.width,
        answer,
        stop.from,
        arity - stop.width,
    );
    let prefix = &tuple[..arity];
    let table = reduced.table(stop.node);
    let at = first_in(table, prefix, range, steps);
    let to = range.to;
    let found = has_at(table, prefix, at, to, steps);
    rows_past(at, to, found)
}

/// The rows from a place on, without the one at the place where that is found.
fn rows_past(at: usize, to: usize, found: bool) -> Place
    requires { OnTrue found (at < to) }
    ensures { result ≡ record { frame = record { at = cond found (at + 1) at; to = to }; found = found } }
{
    if found {
        return Place {
            frame: Frame { at: at + 1, to },
            found,
        };
    }
    Place {
        frame: Frame { at, to },
        found,
    }
}

/// Writes a part of the values over those from a place on.
fn write_part(into: &mut [u32], at: usize, values: &[u32], from: usize, count: usize)
    requires within { from + count ≤ length values.now }
    requires room { at + count ≤ length into.old }
    ensures { into.new ≡ written into.old at (slice_range values.now from (from + count)) }
{
    write_at(into, at, &values[from..from + count]);
}

/// The place of the first row of a range whose first values are not below the prefix, or the end of the
/// range, in one probe.
fn first_in<L: Ledger>(table: &Table, prefix: &[u32], range: Range, steps: &mut Steps<L>) -> usize
    requires short { length prefix.now ≤ table.now.arity }
    requires in_order { range.from ≤ range.to }
    ensures low { range.from ≤ result }
    ensures high { result ≤ range.to }
    ensures first { AreFirstIn (is_below prefix.now) table.now.rows range.from range.to result }
    ensures cost { steps.new ≡ steps.old + 1 }
{
    let first = table.first_from(prefix, steps);
    first.max(range.from).min(range.to)
}

/// Whether the row at a place before the end is this one, in at most one probe.
fn has_at<L: Ledger>(table: &Table, row: &[u32], at: usize, to: usize, steps: &mut Steps<L>) -> bool
    requires { to ≤ length table.now.rows }
    ensures yes { OnTrue result ((at < to) × (slice_get table.now.rows at ≡ Some row.now)) }
    ensures no { OnFalse result ((other : List ℕ) → at < to → slice_get table.now.rows at ≡ Some other
        → other ≡ row.now → ⊥) }
    ensures cost { steps.new ≤ steps.old + 1 }
    ensures rise { steps.old ≤ steps.new }
{
    if at >= to {
        return false;
    }
    table.row(at, steps) == row
}
