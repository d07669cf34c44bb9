//! The registered states of a search.

ghost use Rattle.std.specs.Prelude.{◌≡◌, ◌<◌, ◌≤◌, ◌-◌, ◌^◌, ◌∷◌, ◌++◌, [], length, reverse, IfOk};
ghost use Rattle.pl_registry.specs.Registered.{Register, IsRegister, Adds, Finds, initially};
ghost use Rattle.pl_registry.specs.Registered.{registered_at, registered_path};
ghost use Rattle.pl_registry.specs.Ending.{ended_by};

use crate::added::{Added, Refused};
use crate::ended::{Ended, Outcome, Stats};
use crate::links::Links;
use indexmap::IndexSet;
use pl_state::Packed;
use pl_task::{List, Plan, Step, StepRef};
use std::alloc::{AllocError, Global};
use std::marker::Model;

/// States by the order in which they were registered, from number 0 on, each with the number of the state
/// that it was reached from and the step that led to it. It keeps the allocator, and has a limit on how many
/// there may be.
#[derive(Drop)]
pub struct Registry {
    limit: u32,
    states: IndexSet<Packed>,
    links: Links,
}

impl Model for Registry {
    ghost use Rattle.pl_registry.specs.Registered.{Register, IsKept, paired};

    ghost Value = { Register };

    ghost view = { λ r. record { limit = r.limit; entries = paired r.states.keys r.links } };

    ghost invariant = { λ r. IsKept r.limit r.states.keys r.links };
}

impl Registry {
    /// A registry for `limit` states at most, which holds the initial state as number 0.
    pub fn new(alloc: Global, limit: u32, initial: Packed) -> Result<Registry, AllocError>
        requires some { 1 ≤ limit }
        requires fits { limit < 2 ^ 32 - 1 }
        ensures { IfOk result (λ r. r ≡ record { limit = limit; entries = initially initial ∷ [] }) }
    {
        let mut states = IndexSet::new(alloc);
        states.insert_full(initial)?;
        let mut links = Links::new(alloc);
        let none = StepRef {
            schema: 0,
            args: &[],
        };
        links.push(0, none)?;
        Ok(Registry {
            limit,
            states,
            links,
        })
    }

    /// Registers a state that was reached by a step from the state with the number `parent`, unless it is
    /// held. It is looked up once. What is refused or held changes nothing.
    pub fn add(&mut self, state: Packed, parent: u32, step: StepRef<'_>) -> Result<Added, Refused>
        requires parent { parent < length self.old.entries }
        requires step { length step.args.now ≤ 64 }
        ensures { Adds self.old self.new state parent
            record { schema = step.entry.schema; args = step.entry.args.now } result }
    {
        let len = self.states.len();
        match self.states.insert_full(state) {
            Ok((_, true)) => {}
            Ok((n, false)) => return Ok(Added::Known(n as u32)),
            Err(_) if len == self.limit as usize => return Err(Refused::Full),
            Err(e) => return Err(Refused::Memory(AllocError::from(e))),
        }
        if len == self.limit as usize {
            self.states.truncate(len);
            return Err(Refused::Full);
        }
        match self.links.push(parent, step) {
            Ok(()) => Ok(Added::New(len as u32)),
            Err(e) => {
                self.states.truncate(len);
                Err(Refused::Memory(e))
            }
        }
    }

    /// The number of a state, or `None` where it isn't held.
    pub fn find(&self, state: &Packed) -> Option<u32>
        ensures { Finds self.now state.now result }
    {
        match self.states.get_index_of(state) {
            Some(n) => Some(n as u32),
            None => None,
        }
    }

    /// How many states are registered.
    #[inline]
    pub fn len(&self) -> u32
        ensures len { result ≡ length self.now.entries }
        ensures register { IsRegister self.now }
    {
        self.states.len() as u32
    }

    /// An outcome with the counts of a search whose states these are.
    pub fn ended(&self, outcome: Outcome, expanded: u64, generated: u64) -> Ended
        ensures register { IsRegister self.now }
        ensures ended { result ≡ ended_by outcome (length self.now.entries) expanded generated }
    {
        Ended {
            outcome,
            stats: Stats {
                states: self.len() as u64,
                expanded,
                generated,
            },
        }
    }

    /// The state with a number.
    #[inline]
    pub fn state(&self, n: u32) -> &Packed
        requires { n < length self.now.entries }
        ensures { result.now ≡ (registered_at self.now.entries n).words }
    {
        &self.states[n as usize]
    }

    /// The steps that lead from the initial state to the state with a number, along the parents.
    pub fn path(&self, alloc: Global, n: u32) -> Result<Plan, AllocError>
        requires { n < length self.now.entries }
        ensures { IfOk result (λ plan. plan ≡ registered_path self.now.entries n) }
    {
        self.path_before(alloc, n, Vec::new(alloc))
    }

    /// The steps that lead to the state with a number, and then one more step.
    pub fn path_then(&self, alloc: Global, n: u32, last: StepRef<'_>) -> Result<Plan, AllocError>
        requires number { n < length self.now.entries }
        requires step { length last.args.now ≤ 64 }
        ensures { IfOk result (λ plan. plan ≡ registered_path self.now.entries n
            ++ record { schema = last.entry.schema; args = last.entry.args.now } ∷ []) }
    {
        let mut steps = Vec::new(alloc);
        steps.push(Step::of(alloc, last)?)?;
        self.path_before(alloc, n, steps)
    }

    /// The steps that lead to the state with a number, and then those given, of which the last one comes
    /// first.
    fn path_before(&self, alloc: Global, n: u32, given: Vec<Step>) -> Result<Plan, AllocError>
        requires { n < length self.now.entries }
        ensures { IfOk result (λ plan. plan ≡ registered_path self.now.entries n ++ reverse given.items) }
    {
        let mut steps = given;
        let mut at = n as usize;
        while at != 0 {
            steps.push(Step::of(alloc, self.links.step(at))?)?;
            at = self.links.parent(at) as usize;
        }
        steps.reverse();
        Ok(List::of(steps))
    }
}
