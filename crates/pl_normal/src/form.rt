//! The normal form of a schema, as plain data. Classes are named by the least of their parameters.

use pl_hyper::EarPlan;
use pl_join::Slot;
use pl_task::{Atom, List};

/// Where the rows of an edge come from.
#[derive(Clone, Copy, Debug, PartialEq, Eq)]
pub enum Source {
    /// The objects that have at least one of the types of this parameter, as rows with one value.
    Kind(u32),
    /// The objects of the state's atoms of this predicate.
    Predicate(u32),
}

/// A relation that the answers of the query have to be in.
#[derive(Drop)]
pub struct Edge {
    /// Where its rows come from.
    pub source: Source,
    /// One slot for each value of a row.
    pub slots: List<Slot>,
    /// The classes of its slots, at least one: bit `c` is set for class `c`.
    pub classes: u64,
}

/// A test that no class takes part in. It is about a fluent predicate, or fails in every state.
#[derive(Drop)]
pub enum Guard {
    /// The atom is true in the state.
    Holds(Atom),
    /// The atom is false in the state.
    Absent(Atom),
    /// The schema has no applicable step in any state.
    Never,
}

/// A test of the values of classes.
#[derive(Drop)]
pub enum Sieve {
    /// The slots have two values.
    NotEqual(Slot, Slot),
    /// The state has no atom of this predicate with the values of the slots.
    Absent(u32, List<Slot>),
}

/// A test all of whose classes are those of one edge.
#[derive(Drop)]
pub struct Placed {
    /// The least-numbered edge that has all the classes.
    pub edge: u32,
    /// The test.
    pub sieve: Sieve,
}

/// The normal form of an action schema.
#[derive(Drop)]
pub struct NormalSchema {
    /// For each parameter the class that positive equalities between parameters join it to.
    pub class_of: List<u32>,
    /// For each parameter the object that positive equalities fix its class to, if any.
    pub fixed: List<Option<u32>>,
    /// First the types of each unfixed parameter, then each positive atom with an unfixed class, in reading
    /// order.
    pub edges: List<Edge>,
    /// The guards that a state decides, and those that fail in every state.
    pub guards: List<Guard>,
    /// The filters all of whose classes one edge has, in reading order.
    pub local: List<Placed>,
    /// The other filters, in reading order.
    pub late: List<Sieve>,
    /// The ears of the edges.
    pub plan: EarPlan,
    /// The parameters in the order in which tuples of objects are read: class order, then the other
    /// parameters, rising.
    pub order: List<u32>,
}
