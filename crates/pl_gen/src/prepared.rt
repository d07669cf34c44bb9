//! A state with what its applicable steps are read from.

ghost use Rattle.std.specs.Prelude.{◌≡◌, ◌≤◌, ◌<◌, ◌+◌, ◌*◌, ◌++◌, ℕ, List, None, Some, length, map, drop};
ghost use Rattle.std.specs.Prelude.{filter, slice_get, slice_index, All, IfOk, true};
ghost use Rattle.pl_task.specs.declared.data.Schema.{Schema as SchemaOf};
ghost use Rattle.pl_task.specs.States.{IsStep};
ghost use Rattle.pl_cursor.specs.Cursor.{AreAnswersPast};
ghost use Rattle.pl_state.specs.StateOf.{IsStateOf, state_in};
ghost use Rattle.pl_state.specs.Tables.{AreTablesOf};
ghost use Rattle.pl_normal.specs.NormalForm.{IsNormalForm};
ghost use Rattle.std.specs.List.{sum_by};
ghost use Rattle.pl_normal.specs.Measures.{base_bound, probe_bound};
ghost use Rattle.pl_normal.specs.ParameterOrder.{classes_in_order};
ghost use Rattle.pl_normal.specs.Query.{step_under};
ghost use Rattle.pl_gen.specs.Walks.{steps_in, steps_above, is_above, state_of_prepared, step_with, reads_in};
ghost use Rattle.pl_gen.specs.Walks.{walk_reads, AreAcyclic};
ghost use Rattle.pl_gen.specs.Walks.{resume_reads, sought_classes, step_reads};
ghost use Rattle.pl_gen.specs.Measures.{entry_probes, close_entry_probes};
ghost use Rattle.pl_gen.specs.Reads.{reads_of};
ghost use Rattle.pl_gen.specs.Queries.{IsQuery};
ghost use Rattle.pl_gen.specs.Views.{IsViewOf};
ghost use Rattle.pl_gen.specs.Entries.{AreEntriesUpTo};
ghost use Rattle.pl_gen.specs.Kept.{turn_steps, IsTurnOf};
ghost use Rattle.pl_gen.specs.SchemaSteps.{applicable_of};

use crate::entry::{Entry, entry_of};
use crate::place::{MOST_PARAMETERS, Place, write_args};
use crate::query::Query;
use crate::turn::Turn;
use crate::view::View;
use crate::walk::Walk;
use pl_cursor::Cursor;
use pl_cursor::laws::answers_past_are_a_part;
use pl_normal::{NormalSchema, NormalTask};
use pl_reduce::Reduced;
use pl_state::{Packed, StateTables, tables};
use pl_steps::Steps;
use pl_task::StepRef;
use std::alloc::{AllocError, Global};
use std::marker::Model;
use std::sync::ledger::Ledger;

/// A state of a task, prepared: for each schema the reduced tables of its query.
///
/// Contracts see the task and the words of the state.
#[derive(Drop)]
pub struct Prepared<'n, 't> {
    normal: &'n NormalTask<'t>,
    words: Vec<u32>,
    tables: StateTables,
    entries: Vec<Entry<'n>>,
}

impl<'n, 't> Model for Prepared<'n, 't> {
    ghost use Rattle.pl_gen.specs.Walks.{PreparedState};
    ghost use Rattle.pl_gen.specs.Kept.{IsPrepared};

    ghost Value = { PreparedState };

    ghost view = { λ p. record { task = p.normal.now; words = p.words.items } };

    ghost invariant = { λ p. IsPrepared p.normal.now p.words.items p.tables p.entries.items };
}

impl<'n, 't> Prepared<'n, 't> {
    /// Prepares a state of the task. The only error is want of memory. After it no part of an enumeration
    /// takes memory.
    ///
    /// Where all schemas are acyclic, what it takes and what a walk may take are together at most the bound
    /// of the state. With what resuming a walk and, where all filters are local, one step may take it is at
    /// most the base bound, however many answers there are.
    pub fn prepare<L: Ledger>(
        alloc: Global,
        normal: &'n NormalTask<'t>,
        state: &Packed,
        steps: &mut Steps<L>,
    ) -> Result<Prepared<'n, 't>, AllocError>
        requires { IsStateOf normal.now state.now }
        ensures prepared { IfOk result (λ p. p ≡ record { task = normal.now; words = state.now }) }
        ensures tables { IfOk result (λ _. AreAcyclic normal.now →
            steps.new ≤ steps.old + sum_by (entry_probes normal.now (state_in normal.now state.now))
            normal.now.schemas) }
        ensures cost { IfOk result (λ p. AreAcyclic normal.now →
            steps.new + walk_reads p ≤ steps.old + probe_bound normal.now (state_in normal.now state.now)) }
        ensures base { IfOk result (λ p. AreAcyclic normal.now →
            steps.new + (resume_reads p + step_reads normal.now)
            ≤ steps.old + base_bound normal.now (state_in normal.now state.now)) }
        ensures rise { steps.old ≤ steps.new }
    {
        let tables = tables(alloc, normal.task(), state)?;
        let words = Vec::from_slice(alloc, state.words())?;
        let entries = entries_of(alloc, normal, &words, &tables, steps)?;
        Ok(Prepared {
            normal,
            words,
            tables,
            entries,
        })
    }

    /// Before the first applicable step. It takes no probe.
    pub fn walk(&self) -> Walk<'_>
        ensures prepared { result.prepared ≡ self.now }
        ensures left { result.left ≡ steps_in self.now }
        ensures last { result.last ≡ None }
        ensures number { result.number ≡ 0 }
        ensures reads { result.reads ≤ walk_reads self.now }
    {
        Walk::at(self, Place::before(0, self.turn(0)))
    }

    /// Before the first applicable step above `past`, which is any step of the task, applicable or not.
    ///
    /// It takes at most three probes for each unfixed class of the schema of `past`, however many steps lie
    /// before. They are counted in what a walk may take.
    pub fn resume<L: Ledger>(&self, past: StepRef<'_>, steps: &mut Steps<L>) -> Walk<'_>
        requires { IsStep self.now.task (record { schema = past.schema; args = past.args.now }) }
        ensures prepared { result.prepared ≡ self.now }
        ensures left { result.left ≡ steps_above self.now
            (record { schema = past.entry.schema; args = past.entry.args.now }) }
        ensures last { result.last ≡ None }
        ensures number { result.number ≡ past.entry.schema }
        ensures sought { (s : SchemaOf) → slice_get self.now.task.schemas past.entry.schema ≡ Some s →
            steps.new ≤ steps.old + 3 * length (classes_in_order s) }
        ensures few { steps.new ≤ steps.old + resume_reads self.now }
        ensures cost { steps.new + result.reads ≤ steps.old + walk_reads self.now }
        ensures rise { steps.old ≤ steps.new }
    {
        Walk::at(
            self,
            Place::before(past.schema, self.turn_past(past, steps)),
        )
    }

    /// What is kept of a schema.
    pub fn view(&self, schema: u32) -> View<'_>
        requires { schema < length self.now.task.schemas }
        ensures { (s : SchemaOf) → slice_get self.now.task.schemas schema ≡ Some s
            → IsViewOf self.now.task s (state_of_prepared self.now) result }
    {
        match &self.entries[schema as usize] {
            Entry::Never => View::Never,
            Entry::Always => View::Always,
            Entry::Tables(reduced) => View::Tables(reduced),
        }
    }

    /// How many schemas the task has.
    pub(crate) fn count(&self) -> u32
        ensures { result ≡ length self.now.task.schemas }
    {
        self.entries.len() as u32
    }

    /// The query of a schema in the state.
    pub(crate) fn query(&self, number: u32) -> Query<'_, '_>
        requires { number < length self.now.task.schemas }
        ensures query { IsQuery result }
        ensures task { result.normal.now ≡ self.now.task }
        ensures words { result.words.now ≡ self.now.words }
        ensures number { result.number ≡ number }
    {
        let normal = self.normal;
        Query {
            normal,
            words: &self.words,
            tables: &self.tables,
            number,
            schema: &normal.task().schemas.as_slice()[number as usize],
        }
    }

    /// The normal form of a schema.
    pub(crate) fn form(&self, number: u32) -> &NormalSchema
        requires { number < length self.now.task.schemas }
        ensures { (s : SchemaOf) → slice_get self.now.task.schemas number ≡ Some s
            → IsNormalForm self.now.task s result.now }
    {
        let normal = self.normal;
        normal.schema(number)
    }

    /// The turn of a schema, before its first step. Behind the last schema no step is left. It takes no
    /// probe.
    pub(crate) fn turn(&self, number: u32) -> Turn<'_>
        ensures steps { turn_steps self.now number result ≡ applicable_of self.now.task
            (state_of_prepared self.now) number }
        ensures turn { IsTurnOf self.now.task number result }
        ensures reads { reads_of self.now number result ≤
            reads_in self.now.task (state_of_prepared self.now) (drop number self.now.task.schemas) }
    {
        if self.count() <= number {
            return Turn::Over;
        }
        match &self.entries[number as usize] {
            Entry::Never => Turn::Over,
            Entry::Always => Turn::Once,
            Entry::Tables(reduced) => Turn::Rows(Cursor::start(reduced)),
        }
    }

    /// The turn of the schema of a step, before its first applicable step above it.
    fn turn_past<L: Ledger>(&self, past: StepRef<'_>, steps: &mut Steps<L>) -> Turn<'_>
        requires { IsStep self.now.task (record { schema = past.schema; args = past.args.now }) }
        ensures steps { turn_steps self.now past.entry.schema result
            ≡ filter (is_above self.now.task (step_with past.entry.schema past.entry.args.now))
            (applicable_of self.now.task (state_of_prepared self.now) past.entry.schema) }
        ensures turn { IsTurnOf self.now.task past.entry.schema result }
        ensures sought { (s : SchemaOf) → slice_get self.now.task.schemas past.entry.schema ≡ Some s →
            steps.new ≤ steps.old + 3 * length (classes_in_order s) }
        ensures few { (s : SchemaOf) → slice_get self.now.task.schemas past.entry.schema ≡ Some s →
            steps.new ≤ steps.old + 3 * sought_classes self.now.task (state_of_prepared self.now) s }
        ensures cost { steps.new + reads_of self.now past.entry.schema result ≤
            steps.old + reads_in self.now.task (state_of_prepared self.now)
            (drop past.entry.schema self.now.task.schemas) }
        ensures rise { steps.old ≤ steps.new }
    {
        match &self.entries[past.schema as usize] {
            Entry::Never => Turn::Over,
            Entry::Always => {
                if self.key_is_above(past) {
                    Turn::Once
                } else {
                    Turn::Over
                }
            }
            Entry::Tables(reduced) => {
                let mut key = [0; MOST_PARAMETERS];
                let classes = reduced.classes();
                write_key(&mut key, classes, past.args);
                let inclusive = self.key_is_above(past);
                answers_are_listed(reduced);
                answers_past_are_a_part();
                Turn::Rows(Cursor::seek(reduced, &key[..classes.len()], inclusive, steps))
            }
        }
    }

    /// Whether the step of the same schema, in which each class has the object of the parameter that names
    /// it, is above the step.
    fn key_is_above(&self, past: StepRef<'_>) -> bool
        requires { IsStep self.now.task (record { schema = past.schema; args = past.args.now }) }
        ensures { (s : SchemaOf) → slice_get self.now.task.schemas past.entry.schema ≡ Some s →
            result ≡ is_above self.now.task (step_with past.entry.schema past.entry.args.now)
            (step_under past.entry.schema s (slice_index past.entry.args.now)) }
    {
        let form = self.form(past.schema);
        let mut args = [0; MOST_PARAMETERS];
        write_args(&mut args, form, past.args);
        let step = StepRef {
            schema: past.schema,
            args: &args[..past.args.len()],
        };
        self.normal.step_cmp(past, step).is_lt()
    }
}

/// A law: the answers of a reduced join are a list.
fn answers_are_listed(reduced: &Reduced<'_>)
    ensures { (all : List (List ℕ)) × AreAnswersPast reduced.now (λ _. true) all }
{
    let _ = Cursor::start(reduced);
}

/// Writes the objects of the parameters that name the classes to the front of the key.
fn write_key(key: &mut [u32], classes: &[u32], args: &[u32])
    requires classes { All (λ c. c < length args.now) classes.now }
    requires room { length classes.now ≤ length key.old }
    ensures { key.new ≡ map (slice_index args.now) classes.now ++ drop (length classes.now) key.old }
{
    for i in 0..classes.len() {
        key[i] = args[classes[i] as usize];
    }
}

/// The entries of all schemas.
fn entries_of<'n, L: Ledger>(
    alloc: Global,
    normal: &'n NormalTask<'_>,
    words: &[u32],
    tables: &StateTables,
    steps: &mut Steps<L>,
) -> Result<Vec<Entry<'n>>, AllocError>
    requires state { IsStateOf normal.now words.now }
    requires tables { AreTablesOf normal.now (state_in normal.now words.now) tables.now }
    ensures entries { IfOk result
        (λ v. AreEntriesUpTo normal.now (state_in normal.now words.now) (length normal.now.schemas) v.items) }
    ensures cost { IfOk result (λ _. AreAcyclic normal.now → steps.new
        ≤ steps.old
        + sum_by (close_entry_probes normal.now (state_in normal.now words.now)) normal.now.schemas) }
    ensures rise { steps.old ≤ steps.new }
{
    let schemas = normal.task().schemas.as_slice();
    let mut entries = Vec::with_capacity(alloc, schemas.len())?;
    for i in 0..schemas.len() {
        let number = i as u32;
        let query = Query {
            normal,
            words,
            tables,
            number,
            schema: &schemas[i],
        };
        entries.push(entry_of(alloc, &query, normal.schema(number), steps)?)?;
    }
    Ok(entries)
}
