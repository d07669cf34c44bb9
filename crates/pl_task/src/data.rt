//! The parts of a task, as plain data. Types, objects, predicates and schemas are known by their numbers,
//! from 0.

use crate::list::List;

/// A type and the types that it was declared under. Type 0 is `object`.
#[derive(Debug, Drop)]
pub struct TypeDef {
    /// The name, in lower case.
    pub name: List<u8>,
    /// The numbers of the types that stand after `-` in its declarations.
    pub parents: List<u32>,
}

/// An object, a constant of the domain or an object of the problem.
#[derive(Debug, Drop)]
pub struct ObjectDef {
    /// The name, in lower case.
    pub name: List<u8>,
    /// The numbers of the types of all its declarations.
    pub types: List<u32>,
}

/// A predicate symbol.
#[derive(Debug, Drop)]
pub struct PredicateDef {
    /// The name, in lower case.
    pub name: List<u8>,
    /// How many objects an atom of it has, at most 64.
    pub arity: u32,
    /// Whether no effect of a schema names it.
    pub is_static: bool,
}

/// An action schema: parameters, a precondition, and an effect as deletes and adds.
#[derive(Debug, Drop)]
pub struct Schema {
    /// The name, in lower case.
    pub name: List<u8>,
    /// At most 64 parameters, in the order of the file.
    pub parameters: List<Parameter>,
    /// The literals of the precondition in reading order, at most 1,024.
    pub condition: List<Literal>,
    /// The atoms that a step makes false, in reading order.
    pub delete: List<Lifted>,
    /// The atoms that a step makes true, in reading order. An atom that one step deletes and adds is true
    /// afterwards.
    pub add: List<Lifted>,
}

/// A parameter of a schema, which takes an object that has at least one of its types.
#[derive(Debug, Drop)]
pub struct Parameter {
    /// The name with its `?`, in lower case.
    pub name: List<u8>,
    /// The numbers of its types.
    pub types: List<u32>,
}

/// A place of a lifted atom: a parameter of the schema or an object.
#[derive(Clone, Copy, Debug, PartialEq, Eq)]
pub enum Term {
    /// The number of a parameter.
    Parameter(u32),
    /// The number of an object.
    Object(u32),
}

/// An atom over the parameters of a schema.
#[derive(Debug, Drop)]
pub struct Lifted {
    /// The number of its predicate.
    pub predicate: u32,
    /// As many terms as the predicate's arity.
    pub terms: List<Term>,
}

/// A literal of a precondition.
#[derive(Debug, Drop)]
pub enum Literal {
    /// The atom is true.
    Atom(Lifted),
    /// The atom is false, whether its predicate is static or fluent.
    NotAtom(Lifted),
    /// Both terms are one object.
    Equal(Term, Term),
    /// The terms are two objects.
    NotEqual(Term, Term),
}

/// A ground atom.
#[derive(Debug, PartialEq, Eq, PartialOrd, Ord, Hash, Drop)]
pub struct Atom {
    /// The number of its predicate.
    pub predicate: u32,
    /// The numbers of its objects, as many as the predicate's arity.
    pub objects: List<u32>,
}

/// A literal of the goal.
#[derive(Debug, Drop)]
pub struct GoalLiteral {
    /// The atom.
    pub atom: Atom,
    /// Whether the goal wants it true; else it wants it false.
    pub wanted: bool,
}
