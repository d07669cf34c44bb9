//! Where a walk stands.

ghost use Rattle.std.specs.Prelude.{◌≡◌, ◌≤◌, ◌<◌, ◌+◌, ◌*◌, [], Some, length, take, drop, slice_get};
ghost use Rattle.std.specs.Prelude.{slice_index, All};
ghost use Rattle.std.specs.Bool.{OnTrue, OnFalse};
ghost use Rattle.pl_normal.specs.Filters.{late_of};
ghost use Rattle.pl_normal.specs.NormalForm.{IsNormalForm};
ghost use Rattle.pl_normal.specs.Query.{args_under};
ghost use Rattle.pl_task.specs.declared.data.Schema.{Schema as SchemaOf};
ghost use Rattle.pl_task.specs.declared.task.Task.{Task as TaskOf};
ghost use Rattle.pl_gen.specs.Kept.{turn_steps, IsTurnOf};
ghost use Rattle.pl_gen.specs.Reads.{reads_at, reads_of, TakesOfLocal};
ghost use Rattle.pl_gen.specs.SchemaSteps.{applicable_of};
ghost use Rattle.pl_gen.specs.Turns.{IsPlace, WalksOn, WalksOnLocal, TakesStep};
ghost use Rattle.pl_gen.specs.Walks.{AreLocal, reads_in, state_of_prepared};

use crate::prepared::Prepared;
use crate::turn::{Turn, next_values};
use pl_normal::NormalSchema;
use pl_steps::Steps;
use std::sync::ledger::Ledger;

/// The most parameters that a schema has.
pub const MOST_PARAMETERS: usize = 64;

/// The schema whose turn it is with what it has still to give, the values of its classes by their numbers,
/// and the step last given.
#[derive(Drop)]
pub struct Place<'p> {
    pub number: u32,
    pub turn: Turn<'p>,
    pub values: [u32; MOST_PARAMETERS],
    pub schema: u32,
    pub len: u32,
    pub args: [u32; MOST_PARAMETERS],
}

impl<'p> Place<'p> {
    /// Before the first step of a turn.
    pub fn before(number: u32, turn: Turn<'p>) -> Place<'p>
        ensures number { result.number ≡ number }
        ensures turn { result.turn ≡ turn.entry }
        ensures values { length result.values ≡ 64 }
        ensures args { length result.args ≡ 64 }
        ensures len { result.len ≡ 0 }
    {
        Place {
            number,
            turn,
            values: [0; MOST_PARAMETERS],
            schema: 0,
            len: 0,
            args: [0; MOST_PARAMETERS],
        }
    }
}

/// Goes on to the next step, if there is one: that of the turn, or the first one of a later schema.
pub fn walk_on<'p, L: Ledger>(
    prepared: &'p Prepared<'p, 'p>,
    place: &mut Place<'p>,
    steps: &mut Steps<L>,
) -> bool
    requires place { IsPlace prepared.now.task place.old }
    ensures on { WalksOn prepared.now place.old place.new result }
    ensures place { IsPlace prepared.now.task place.new }
    ensures given { OnTrue result (place.new.number ≡ place.new.schema) }
    ensures within { OnTrue result (place.new.number < length prepared.now.task.schemas) }
    ensures behind { OnFalse result (place.new.number ≡ length prepared.now.task.schemas) }
    ensures cost { steps.new + reads_at prepared.now place.new ≤ steps.old + reads_at prepared.now place.old }
    ensures local { AreLocal prepared.now.task place.old.number place.new.number
        → WalksOnLocal prepared.now.task steps.old steps.new place.new.number result }
    ensures rise { steps.old ≤ steps.new }
{
    let count = prepared.count();
    while place.number < count {
        if take_step(prepared, place, steps) {
            return true;
        }
        place.number += 1;
        let number = place.number;
        begin_turn(prepared, &mut place.turn, number);
    }
    false
}

/// Makes the turn that of the schema with the number, before its first step. It is a function of its own, so
/// that a step within a turn makes no room for another one.
#[inline(never)]
fn begin_turn<'p>(prepared: &'p Prepared<'p, 'p>, turn: &mut Turn<'p>, number: u32)
    ensures steps { turn_steps prepared.now number turn.new
        ≡ applicable_of prepared.now.task (state_of_prepared prepared.now) number }
    ensures turn { IsTurnOf prepared.now.task number turn.new }
    ensures reads { reads_of prepared.now number turn.new ≤
        reads_in prepared.now.task (state_of_prepared prepared.now) (drop number prepared.now.task.schemas) }
{
    *turn = prepared.turn(number);
}

/// Goes on to the next step of the turn, if there is one.
fn take_step<L: Ledger>(
    prepared: &Prepared<'_, '_>,
    place: &mut Place<'_>,
    steps: &mut Steps<L>,
) -> bool
    requires place { IsPlace prepared.now.task place.old }
    requires number { place.old.number < length prepared.now.task.schemas }
    ensures takes { TakesStep prepared.now place.old place.new result }
    ensures place { IsPlace prepared.now.task place.new }
    ensures given { OnTrue result (place.new.number ≡ place.new.schema) }
    ensures cost { steps.new + reads_at prepared.now place.new ≤ steps.old + reads_at prepared.now place.old }
    ensures local { (schema : SchemaOf) → slice_get prepared.now.task.schemas place.old.number ≡ Some schema
        → late_of schema ≡ [] → TakesOfLocal schema steps.old steps.new result }
    ensures rise { steps.old ≤ steps.new }
{
    let number = place.number;
    let query = prepared.query(number);
    let form = prepared.form(number);
    if !next_values(&query, form, &mut place.turn, &mut place.values, steps) {
        return false;
    }
    write_args(&mut place.args, form, &place.values);
    place.schema = number;
    place.len = form.class_of.as_slice().len() as u32;
    true
}

/// Writes the objects of the parameters: those that they are fixed to, or the values of their classes.
pub fn write_args(args: &mut [u32], form: &NormalSchema, values: &[u32])
    requires args { length args.old ≡ 64 }
    requires classes { All (λ c. c < length values.now) form.now.class_of }
    requires fixed { length form.now.fixed ≡ length form.now.class_of }
    requires few { length form.now.class_of ≤ 64 }
    ensures same { length args.new ≡ 64 }
    ensures args { (task : TaskOf) → (schema : SchemaOf) → IsNormalForm task schema form.now
        → length schema.parameters ≤ 64 →
        take (length form.now.class_of) args.new ≡ args_under schema (slice_index values.now) }
{
    let classes = form.class_of.as_slice();
    let fixed = form.fixed.as_slice();
    for p in 0..classes.len() {
        args[p] = match fixed[p] {
            Some(object) => object,
            None => values[classes[p] as usize],
        };
    }
}
