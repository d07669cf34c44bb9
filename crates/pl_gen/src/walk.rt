//! A walk over the applicable steps of a prepared state.

ghost use Rattle.std.specs.Prelude.{◌≡◌, ◌≤◌, ◌<◌, ◌+◌, ◌*◌, [], Some, length, option_map, slice_get, IfSome};
ghost use Rattle.std.specs.Prelude.{IfNone};
ghost use Rattle.std.specs.Bool.{OnTrue};
ghost use Rattle.std.specs.Borrow.{sem};
ghost use Rattle.pl_task.specs.declared.data.Schema.{Schema as SchemaOf};
ghost use Rattle.pl_task.specs.Instance.{instance_of};
ghost use Rattle.pl_normal.specs.Measures.{schema_size, largest_size};
ghost use Rattle.pl_gen.specs.Turns.{GoesOn, WalksOnLocal};
ghost use Rattle.pl_gen.specs.Walks.{IsTurn, AreLocal, step_reads};
ghost use Rattle.pl_gen.specs.Lending.{Rests};

use crate::place::{Place, walk_on};
use crate::prepared::Prepared;
use pl_steps::Steps;
use pl_task::{Mark, StepRef};
use std::marker::Model;
use std::sync::ledger::Ledger;

/// The applicable steps of a prepared state, one by one in step order. It takes no memory.
///
/// Contracts see the prepared state, the steps that are left, the step last given, the schema that the next
/// step is looked for in first, and how many probes the rest of the walk may take.
#[derive(Drop)]
pub struct Walk<'p> {
    prepared: &'p Prepared<'p, 'p>,
    place: Place<'p>,
    given: bool,
}

impl<'p> Model for Walk<'p> {
    ghost use Rattle.std.specs.Prelude.{cond, None, Some};
    ghost use Rattle.pl_gen.specs.Walks.{WalkView};
    ghost use Rattle.pl_gen.specs.Turns.{left_at, step_of_place, IsPlace};
    ghost use Rattle.pl_gen.specs.Reads.{reads_at};

    ghost Value = { WalkView };

    ghost view = { λ w. record {
      prepared = w.prepared.now;
      left = left_at w.prepared.now w.place;
      last = cond w.given (Some (step_of_place w.place)) None;
      number = w.place.number;
      reads = reads_at w.prepared.now w.place;
    } };

    ghost invariant = { λ w. IsPlace w.prepared.now.task w.place };
}

impl<'p> Walk<'p> {
    ghost use Rattle.std.specs.Prelude.{None};
    ghost use Rattle.pl_gen.specs.Turns.{left_at, IsPlace};
    ghost use Rattle.pl_gen.specs.Reads.{reads_at};

    /// A walk from a place on, before its first step.
    pub(crate) fn at(prepared: &'p Prepared<'p, 'p>, place: Place<'p>) -> Walk<'p>
        requires { IsPlace prepared.now.task place }
        ensures prepared { result.prepared ≡ prepared.now }
        ensures left { result.left ≡ left_at prepared.now place.entry }
        ensures last { result.last ≡ None }
        ensures number { result.number ≡ place.entry.number }
        ensures reads { result.reads ≡ reads_at prepared.now place.entry }
    {
        Walk {
            prepared,
            place,
            given: false,
        }
    }

    /// The next applicable step, or None where none is left; then the walk is at its end.
    ///
    /// What it takes and what the rest may take is together no more than what the walk might take before.
    /// Where it passes no schema with late filters it takes at most two probes for each literal and parameter
    /// of the schema that gives the step.
    pub fn next<L: Ledger>(&mut self, steps: &mut Steps<L>) -> Option<StepRef<'_>>
        ensures* after { sem 𝓛 (Rests self.entry (λ new. IsTurn self.old
            (option_map (λ step. record { schema = step.schema; args = step.args.now }) result) new
            × (steps.new + new.reads ≤ steps.old + self.old.reads))) }
        ensures none { IfNone result (self.old.left ≡ []) }
        ensures first { IfSome result
            (λ step. slice_get self.old.left 0 ≡ Some
            (record { schema = step.schema; args = step.args.now })) }
        ensures one { IfSome result (λ step. AreLocal self.old.prepared.task self.old.number step.schema →
            (schema : SchemaOf) → slice_get self.old.prepared.task.schemas step.schema ≡ Some schema →
            steps.new ≤ steps.old + 2 * schema_size schema) }
        ensures over { IfNone result
            (AreLocal self.old.prepared.task self.old.number (length self.old.prepared.task.schemas) →
            steps.new ≡ steps.old) }
        ensures each { AreLocal self.old.prepared.task self.old.number
            (length self.old.prepared.task.schemas) →
            steps.new ≤ steps.old + 2 * largest_size self.old.prepared.task }
        ensures few { AreLocal self.old.prepared.task self.old.number
            (length self.old.prepared.task.schemas) →
            steps.new ≤ steps.old + step_reads self.old.prepared.task }
        ensures rise { steps.old ≤ steps.new }
    {
        if self.advance(steps) {
            self.last()
        } else {
            None
        }
    }

    /// The step that was given last, as a plain value; None before the first one.
    pub fn mark(&self) -> Option<Mark>
        ensures { option_map instance_of result ≡ self.now.last }
    {
        if self.given {
            let args = &self.place.args[..self.place.len as usize];
            Some(Mark::of(StepRef {
                schema: self.place.schema,
                args,
            }))
        } else {
            None
        }
    }

    /// The step that was given last, lent out; None before the first one.
    fn last(&self) -> Option<StepRef<'_>>
        ensures { option_map (λ step. record { schema = step.schema; args = step.args.now })
            result ≡ self.now.last }
    {
        if self.given {
            Some(StepRef {
                schema: self.place.schema,
                args: &self.place.args[..self.place.len as usize],
            })
        } else {
            None
        }
    }

    /// Goes on to the next step, if there is one.
    fn advance<L: Ledger>(&mut self, steps: &mut Steps<L>) -> bool
        ensures step { GoesOn self.old result self.new }
        ensures within { OnTrue result (self.new.number < length self.old.prepared.task.schemas) }
        ensures cost { steps.new + self.new.reads ≤ steps.old + self.old.reads }
        ensures local { AreLocal self.old.prepared.task self.old.number self.new.number →
            WalksOnLocal self.old.prepared.task steps.old steps.new self.new.number result }
        ensures rise { steps.old ≤ steps.new }
    {
        let prepared = self.prepared;
        if !walk_on(prepared, &mut self.place, steps) {
            return false;
        }
        self.given = true;
        true
    }
}
