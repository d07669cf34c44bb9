//! Which states a width search leaves out.

ghost use Rattle.std.specs.Prelude.{◌≡◌, ◌≤◌, ◌∷◌, [], ℕ, false, IfOk};
ghost use Rattle.pl_task.specs.States.{IsStep};
ghost use Rattle.pl_state.specs.StateOf.{state_in, IsStateOf};
ghost use Rattle.pl_registry.specs.Held.{states_held};
ghost use Rattle.pl_novel.specs.Noting.{FollowsNoted};
ghost use Rattle.pl_bfs.specs.Sifting.{NotesSeen, Sifts};

use pl_novel::{Novelty, laws};
use pl_registry::Registry;
use pl_state::Packed;
use pl_task::{StepRef, Task};
use std::alloc::{AllocError, Global};

/// The sets of atoms of the states seen, and whether a state was left out that isn't registered.
#[derive(Drop)]
pub(crate) struct Sieve {
    pub(crate) novelty: Novelty,
    pub(crate) left_out: bool,
}

impl Sieve {
    /// A sieve of width `k` that has seen one state, and left none out.
    pub(crate) fn of(
        alloc: Global,
        task: &Task,
        k: u32,
        state: &Packed,
    ) -> Result<Sieve, AllocError>
        requires some { 1 ≤ k }
        requires few { k ≤ 2 }
        requires state { IsStateOf task.now state.now }
        ensures notes { IfOk result (λ sieve.
            NotesSeen task.now k (state_in task.now state.now ∷ []) sieve.novelty) }
        ensures none { IfOk result (λ sieve. sieve.left_out ≡ false) }
    {
        laws::noting_is_seeing(task);
        let mut novelty = Novelty::new(alloc, k);
        novelty.note(task, state)?;
        Ok(Sieve {
            novelty,
            left_out: false,
        })
    }

    /// Whether the state that a step of a state seen leads to is new under the width. Then it is seen from
    /// now on. Where it isn't new, whether it is registered is told, unless a state was left out before.
    pub(crate) fn is_new(
        &mut self,
        task: &Task,
        registry: &Registry,
        state: &Packed,
        step: StepRef<'_>,
    ) -> Result<bool, AllocError>
        requires state { IsStateOf task.now state.now }
        requires step { IsStep task.now (record { schema = step.schema; args = step.args.now }) }
        requires follows { FollowsNoted task.now self.old.novelty (state_in task.now state.now)
            (record { schema = step.schema; args = step.args.now }) }
        ensures sifts { (k : ℕ) → NotesSeen task.now k (states_held task.now registry.now) self.old.novelty →
            Sifts task.now k registry.now state.now self.old self.new result }
    {
        laws::new_sets_are_novel(task);
        laws::noting_is_seeing(task);
        if self.novelty.note_step(task, state, step)? {
            return Ok(true);
        }
        if self.left_out {
            return Ok(false);
        }
        if registry.find(state).is_none() {
            self.left_out = true;
        }
        Ok(false)
    }
}
