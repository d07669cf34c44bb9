//! A cursor: what callers make and ask.

ghost use Rattle.std.specs.Prelude.{◌≡◌, ◌+◌, ◌*◌, ◌≤◌, [], length, true, Some, None};
ghost use Rattle.std.specs.Prelude.{option_map, slice_get, IfSome, IfNone};
ghost use Rattle.pl_join.specs.Relation.{Assignment};
ghost use Rattle.pl_reduce.specs.Reduced.{JoinHolds};
ghost use Rattle.pl_cursor.specs.Cursor.{CursorView, AreAnswersPast, IsStep, StepsOn, is_past};
ghost use Rattle.pl_cursor.specs.Lending.{Rests};
ghost use Rattle.std.specs.Bool.{OnFalse};
ghost use Rattle.std.specs.Borrow.{sem};

use crate::layout::Layout;
use crate::narrow::narrow;
use crate::position::{Frame, Position, go_on, write_at};
use pl_reduce::Reduced;
use pl_steps::Steps;
use std::marker::Model;
use std::sync::ledger::Ledger;

/// The answers of a reduced join, one by one in ascending order. An answer has one value for each class, in
/// class order.
///
/// A cursor takes no memory: it keeps, for each node that brings classes, which rows of the node's table are
/// left. In a full reduction each choice of rows goes on to an answer (Yannakakis 1981). So no answer takes
/// more probes than twice as many as there are classes, however many rows the tables have: the join is
/// enumerated with constant delay (Bagan, Durand and Grandjean 2007).
///
/// Contracts see it as the join, the answers that are left, and the one last given (`CursorView`).
#[derive(Drop)]
pub struct Cursor<'r> {
    reduced: &'r Reduced<'r>,
    layout: Layout<'r>,
    position: Position,
    ready: bool,
    given: bool,
}

impl<'r> Model for Cursor<'r> {
    ghost use Rattle.std.specs.Prelude.{cond, None, Some, take, length};
    ghost use Rattle.pl_cursor.specs.Cursor.{CursorView};

    ghost Value = { CursorView };

    ghost use Rattle.pl_cursor.specs.Stages.{stages_of};
    ghost use Rattle.pl_cursor.specs.Kept.{IsLayout, IsPosition, left_of};

    ghost view = { λ c. record {
      join = c.reduced.now;
      left = left_of c.reduced.now c.position c.ready;
      place = cond c.given (Some (take (length c.reduced.now.classes) c.position.answer)) None;
    } };

    ghost invariant = { λ c. IsLayout c.reduced.now c.layout ×
        IsPosition (stages_of c.reduced.now) c.position };
}

impl<'r> Cursor<'r> {
    /// Before the first answer. It takes no probe.
    pub fn start(reduced: &'r Reduced<'r>) -> Cursor<'r>
        ensures join { result.join ≡ reduced.now }
        ensures answers { AreAnswersPast reduced.now (λ _. true) result.left }
        ensures place { result.place ≡ None }
    {
        let layout = Layout::of(reduced);
        let mut position = Position::new();
        if reduced.is_empty() {
            return Cursor {
                reduced,
                layout,
                position,
                ready: false,
                given: false,
            };
        }
        if layout.stops.len() == 0 {
            return Cursor {
                reduced,
                layout,
                position,
                ready: true,
                given: false,
            };
        }
        let to = reduced.table(layout.stops[0].node).len();
        position.frames[0] = Frame { at: 0, to };
        position.depth = 1;
        Cursor {
            reduced,
            layout,
            position,
            ready: false,
            given: false,
        }
    }

    /// Before the first answer that is above `past`, or with `inclusive` at or above it. `past` has one value
    /// for each class, and need not be an answer.
    ///
    /// It takes at most three probes for each class, and none where the join is empty.
    pub fn seek<L: Ledger>(
        reduced: &'r Reduced<'r>,
        past: &[u32],
        inclusive: bool,
        steps: &mut Steps<L>,
    ) -> Cursor<'r>
        requires { length past.now ≡ length reduced.now.classes }
        ensures join { result.join ≡ reduced.now }
        ensures answers { AreAnswersPast reduced.now (is_past inclusive past.now) result.left }
        ensures place { result.place ≡ None }
        ensures cost { steps.new ≤ steps.old + 3 * length reduced.now.classes }
        ensures no_cost { ((f : Assignment) → JoinHolds reduced.now f → ⊥) → steps.new ≡ steps.old }
        ensures rise { steps.old ≤ steps.new }
    {
        let layout = Layout::of(reduced);
        let mut position = Position::new();
        if reduced.is_empty() {
            return Cursor {
                reduced,
                layout,
                position,
                ready: false,
                given: false,
            };
        }
        write_at(&mut position.answer, 0, past);
        let narrowed = narrow(
            reduced,
            &layout,
            &mut position.frames,
            &position.answer,
            steps,
        );
        position.depth = narrowed.depth;
        Cursor {
            reduced,
            layout,
            position,
            ready: narrowed.found && inclusive,
            given: false,
        }
    }

    /// The next answer, or None where none is left; then nothing changes.
    ///
    /// It takes at most two probes for each class, and none where it answers None. Mostly it takes one: the
    /// next row of the last stage.
    pub fn next<L: Ledger>(&mut self, steps: &mut Steps<L>) -> Option<&[u32]>
        ensures* after { sem 𝓛 (Rests self.entry
            (λ new. IsStep self.old (option_map (λ row. row.now) result) new)) }
        ensures none { IfNone result (self.old.left ≡ []) }
        ensures first { IfSome result (λ row. slice_get self.old.left 0 ≡ Some row.now) }
        ensures cost { steps.new ≤ steps.old + 2 * length self.old.join.classes }
        ensures no_cost { IfNone result (steps.new ≡ steps.old) }
        ensures rise { steps.old ≤ steps.new }
    {
        if self.advance(steps) {
            self.place()
        } else {
            None
        }
    }

    /// The answer that was given last, None before the first one.
    pub fn place(&self) -> Option<&[u32]>
        ensures { option_map (λ row. row.now) result ≡ self.now.place }
    {
        if self.given {
            Some(&self.position.answer[..self.layout.width])
        } else {
            None
        }
    }

    /// Goes on to the next answer, if there is one.
    #[inline]
    fn advance<L: Ledger>(&mut self, steps: &mut Steps<L>) -> bool
        ensures step { StepsOn self.old result self.new }
        ensures cost { steps.new ≤ steps.old + 2 * length self.old.join.classes }
        ensures no_cost { OnFalse result (steps.new ≡ steps.old) }
        ensures rise { steps.old ≤ steps.new }
    {
        if self.ready {
            self.ready = false;
            self.given = true;
            return true;
        }
        let reduced = self.reduced;
        if !go_on(reduced, &self.layout, &mut self.position, steps) {
            return false;
        }
        self.given = true;
        true
    }
}
