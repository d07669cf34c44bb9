//! A place in the walk over the rows of a join, and the step from an answer to the next.

ghost use Rattle.std.specs.Prelude.{◌≡◌, ◌+◌, ◌*◌, ◌-◌, ◌<◌, ◌≤◌, ℕ, true, false, List, [], length};
ghost use Rattle.std.specs.Prelude.{take, drop, map, All, IsTrue, slice_index};
ghost use Rattle.std.specs.List.{list_any};
ghost use Rattle.std.specs.Bool.{OnTrue, OnFalse};
ghost use Rattle.pl_rows.specs.Rows.{begins_with};
ghost use Rattle.pl_cursor.specs.Answers.{Stage, frame_at, stage_at, key_of, left_in};
ghost use Rattle.pl_cursor.specs.Stages.{stages_of};
ghost use Rattle.pl_cursor.specs.Kept.{IsLayout, IsPosition, IsEntered, IsLookedUp, IsFirst, CanDescend};
ghost use Rattle.pl_cursor.specs.Kept.{Descends, left_of, written};

use crate::layout::{Layout, MOST_CLASSES};
use pl_reduce::Reduced;
use pl_rows::Range;
use pl_steps::Steps;
use std::sync::ledger::Ledger;

/// The rows of a stage that are still to be gone through: from one place up to, and without, another.
#[derive(Clone, Copy)]
pub struct Frame {
    pub at: usize,
    pub to: usize,
}

/// How far the walk over the rows came: the frames of the first `depth` stages, and the values that the rows
/// gave.
#[derive(Drop)]
pub struct Position {
    pub frames: [Frame; MOST_CLASSES],
    pub answer: [u32; MOST_CLASSES],
    pub depth: usize,
}

impl Position {
    /// Before the first stage.
    pub fn new() -> Position
        ensures depth { result.depth ≡ 0 }
        ensures frames { length result.frames ≡ 64 }
    {
        Position {
            frames: [Frame { at: 0, to: 0 }; MOST_CLASSES],
            answer: [0; MOST_CLASSES],
            depth: 0,
        }
    }
}

/// Goes on to the next answer, which then stands in the position. Where none is left, nothing changes.
///
/// It takes a probe for the row that comes next, and two for each stage behind that of the row. So mostly it
/// takes one.
#[inline]
pub fn go_on<L: Ledger>(
    reduced: &Reduced<'_>,
    layout: &Layout<'_>,
    position: &mut Position,
    steps: &mut Steps<L>,
) -> bool
    requires layout { IsLayout reduced.now layout.now }
    requires position { IsPosition (stages_of reduced.now) position.old }
    ensures position { IsPosition (stages_of reduced.now) position.new }
    ensures found { OnTrue result (left_of reduced.now position.old false ≡ left_of
        reduced.now position.new true) }
    ensures none { OnFalse result (left_of reduced.now position.old false ≡ []) }
    ensures same { OnFalse result (position.new ≡ position.old) }
    ensures cost { OnTrue result (steps.new ≤ steps.old + 2 * length reduced.now.classes) }
    ensures no_cost { OnFalse result (steps.new ≡ steps.old) }
    ensures rise { steps.old ≤ steps.new }
{
    let depth = open_depth(&position.frames, position.depth);
    if depth == 0 {
        return false;
    }
    take_row(
        reduced,
        layout,
        &mut position.frames,
        &mut position.answer,
        depth - 1,
        steps,
    );
    descend(
        reduced,
        layout,
        &mut position.frames,
        &mut position.answer,
        depth,
        steps,
    );
    position.depth = layout.stops.len();
    true
}

/// The number of frames without the last ones in which no row is left.
#[inline]
fn open_depth(frames: &[Frame], depth: usize) -> usize
    requires { depth ≤ length frames.now }
    ensures within { result ≤ depth }
    ensures open { 0 < result → (frame_at frames.now (result - 1)).at
        < (frame_at frames.now (result - 1)).to }
    ensures left { (stages : List Stage) (answer : List ℕ) →
        left_in stages frames.now answer depth ≡ left_in stages frames.now answer result }
{
    let mut open = depth;
    while open > 0 {
        let frame = frames[open - 1];
        if frame.at < frame.to {
            return open;
        }
        open -= 1;
    }
    0
}

/// Takes the next row of a stage, in one probe.
#[inline]
fn take_row<L: Ledger>(
    reduced: &Reduced<'_>,
    layout: &Layout<'_>,
    frames: &mut [Frame],
    answer: &mut [u32],
    t: usize,
    steps: &mut Steps<L>,
)
    requires layout { IsLayout reduced.now layout.now }
    requires frames { length frames.old ≡ 64 }
    requires answer { length answer.old ≡ 64 }
    requires depth { t < length layout.now.stops.now }
    requires open { (frame_at frames.old t).at < (frame_at frames.old t).to }
    requires entered { (s : ℕ) → s < t + 1 → IsEntered (stages_of reduced.now) frames.old answer.old s }
    ensures descends { Descends (stages_of reduced.now) (length reduced.now.classes)
        (left_in (stages_of reduced.now) frames.old answer.old (t + 1)) frames.new answer.new (t + 1) }
    ensures cost { steps.new ≡ steps.old + 1 }
{
    let stop = layout.stops[t];
    let frame = frames[t];
    let row = reduced.table(stop.node).row(frame.at, steps);
    write_new(answer, stop.from, row, stop.width);
    frames[t] = Frame {
        at: frame.at + 1,
        to: frame.to,
    };
}

/// Goes down from a stage to the last one, in each at the first row that goes on with the values above it. It
/// takes two probes for each stage.
fn descend<L: Ledger>(
    reduced: &Reduced<'_>,
    layout: &Layout<'_>,
    frames: &mut [Frame],
    answer: &mut [u32],
    depth: usize,
    steps: &mut Steps<L>,
)
    requires layout { IsLayout reduced.now layout.now }
    requires frames { length frames.old ≡ 64 }
    requires answer { length answer.old ≡ 64 }
    requires depth { depth ≤ length layout.now.stops.now }
    requires descends { CanDescend (stages_of reduced.now) (length reduced.now.classes)
        frames.old answer.old depth }
    ensures descends { (left : List (List ℕ)) →
        Descends (stages_of reduced.now) (length reduced.now.classes) left frames.old answer.old depth →
        Descends (stages_of reduced.now) (length reduced.now.classes) left frames.new answer.new
        (length layout.now.stops.now) }
    ensures cost { steps.new ≡ steps.old + 2 * (length layout.now.stops.now - depth) }
{
    for t in depth..layout.stops.len() {
        let frame = enter(reduced, layout, t, answer, steps);
        frames[t] = frame;
    }
}

/// Takes the first row of a stage that goes on with the answer, in two probes. There is one.
fn enter<L: Ledger>(
    reduced: &Reduced<'_>,
    layout: &Layout<'_>,
    t: usize,
    answer: &mut [u32],
    steps: &mut Steps<L>,
) -> Frame
    requires layout { IsLayout reduced.now layout.now }
    requires depth { t < length layout.now.stops.now }
    requires answer { length answer.old ≡ 64 }
    requires onward { let stage = stage_at (stages_of reduced.now) t in
        IsTrue (list_any (begins_with (key_of stage.keys (take stage.from answer.old))) stage.rows) }
    ensures first { IsFirst (stage_at (stages_of reduced.now) t) answer.old answer.new result }
    ensures cost { steps.new ≡ steps.old + 2 }
{
    let mut key = [0; MOST_CLASSES];
    let range = look_up(reduced, layout, t, &mut key, answer, steps);
    let stop = layout.stops[t];
    let row = reduced.table(stop.node).row(range.from, steps);
    write_new(answer, stop.from, row, stop.width);
    Frame {
        at: range.from + 1,
        to: range.to,
    }
}

/// Looks up the rows of a stage that go on with the answer, in one probe. Their key is written.
pub fn look_up<L: Ledger>(
    reduced: &Reduced<'_>,
    layout: &Layout<'_>,
    t: usize,
    key: &mut [u32],
    answer: &[u32],
    steps: &mut Steps<L>,
) -> Range
    requires layout { IsLayout reduced.now layout.now }
    requires depth { t < length layout.now.stops.now }
    requires key { length key.old ≡ 64 }
    requires answer { length answer.now ≡ 64 }
    ensures found { IsLookedUp (stage_at (stages_of reduced.now) t) answer.now key.new result.from result.to }
    ensures cost { steps.new ≡ steps.old + 1 }
{
    let stop = layout.stops[t];
    let classes = reduced.node_classes(stop.node);
    write_key(key, &classes[..stop.width], layout.places, answer);
    reduced.indexed(stop.node).find(&key[..stop.width], steps)
}

/// Writes the values that the answer gives to some classes.
fn write_key(key: &mut [u32], classes: &[u32], places: &[u8], answer: &[u32])
    requires len { length classes.now ≤ length key.old }
    requires below { All (λ c. c < length places.now) classes.now }
    requires within { All (λ c. slice_index places.now c < length answer.now) classes.now }
    ensures { take (length classes.now) key.new ≡ map (λ c. slice_index answer.now (slice_index places.now c))
        classes.now }
{
    for (i, class) in classes.iter().enumerate() {
        key[i] = answer[places[*class as usize] as usize];
    }
}

/// Writes values over those from a place on.
#[inline]
pub fn write_at(values: &mut [u32], from: usize, new: &[u32])
    requires { from + length new.now ≤ length values.old }
    ensures { values.new ≡ written values.old from new.now }
{
    values[from..from + new.len()].copy_from_slice(new);
}

/// Writes the values of the row behind its first `width` ones, from a place of the answer on.
#[inline]
fn write_new(answer: &mut [u32], from: usize, row: &[u32], width: usize)
    requires width { width ≤ length row.now }
    requires within { from + (length row.now - width) ≤ length answer.old }
    ensures { answer.new ≡ written answer.old from (drop width row.now) }
{
    write_at(answer, from, &row[width..]);
}
