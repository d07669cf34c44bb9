//! Where the part of a predicate lies in the words of a state.

ghost use Rattle.std.specs.Prelude.{◌≡◌, ◌+◌, ◌*◌, ◌<◌, ◌≤◌, true, length, take, drop, slice_index};
ghost use Rattle.pl_rows.specs.Rows.{rows_of};
ghost use Rattle.pl_state.specs.Layout.{AreTrueRows};
ghost use Rattle.pl_state.specs.StateOf.{rows_in, is_fluent_in, arity_in, state_in, IsStateOf};
ghost use Rattle.pl_state.specs.Reading.{start_of};

use crate::packed::Packed;
use crate::rows::Rows;
use pl_task::Task;

/// The atoms of a fluent predicate that are true in the state, each as the row of its objects.
///
/// The rows are a piece of the state's words, found by a walk over the numbers of atoms of the predicates
/// before it.
pub fn true_rows<'a>(task: &Task, state: &'a Packed, predicate: u32) -> Rows<'a>
    requires state { IsStateOf task.now state.now }
    requires fluent { is_fluent_in task.now predicate ≡ true }
    ensures whole { length result.flat.now ≡ arity_in task.now predicate * result.count }
    ensures rows { AreTrueRows (length task.now.objects) (state_in task.now state.now) predicate
        (arity_in task.now predicate) (rows_of (arity_in task.now predicate) result.count result.flat.now) }
{
    rows_in_words(task, state.words(), predicate)
}

/// The same in the words.
#[inline]
pub fn rows_in_words<'a>(task: &Task, words: &'a [u32], predicate: u32) -> Rows<'a>
    requires state { IsStateOf task.now words.now }
    requires fluent { is_fluent_in task.now predicate ≡ true }
    ensures whole { length result.flat.now ≡ arity_in task.now predicate * result.count }
    ensures rows { AreTrueRows (length task.now.objects) (state_in task.now words.now) predicate
        (arity_in task.now predicate) (rows_of (arity_in task.now predicate) result.count result.flat.now) }
    ensures read { rows_of (arity_in task.now predicate) result.count result.flat.now
        ≡ rows_in task.now.predicates words.now predicate }
{
    let at = part_start(task, words, predicate);
    let definition = &task.predicates.as_slice()[predicate as usize];
    part_in(words, at, definition.arity)
}

/// Where the part of a predicate begins.
#[inline]
pub fn part_start(task: &Task, words: &[u32], predicate: u32) -> usize
    requires state { IsStateOf task.now words.now }
    requires predicate { predicate ≤ length task.now.predicates }
    ensures { result ≡ start_of task.now words.now predicate }
{
    let predicates = task.predicates.as_slice();
    let mut at = 0;
    for number in 0..predicate {
        let definition = &predicates[number as usize];
        if !definition.is_static {
            at = part_end(words, at, definition.arity);
        }
    }
    at
}

/// The place behind the part that begins at a place.
#[inline]
pub fn part_end(words: &[u32], at: usize, arity: u32) -> usize
    requires { at + (1 + arity * slice_index words.now at) ≤ length words.now }
    ensures { result ≡ at + (1 + arity * slice_index words.now at) }
{
    at + (1 + arity as usize * words[at] as usize)
}

/// The part that begins at a place.
#[inline]
pub fn part_in(words: &[u32], at: usize, arity: u32) -> Rows<'_>
    requires { at + (1 + arity * slice_index words.now at) ≤ length words.now }
    ensures count { result.count ≡ slice_index words.now at }
    ensures whole { length result.flat.now ≡ arity * result.count }
    ensures flat { result.flat.now ≡ take (arity * slice_index words.now at) (drop (at + 1) words.now) }
{
    let end = part_end(words, at, arity);
    Rows {
        count: words[at] as usize,
        flat: &words[at + 1..end],
    }
}
