//! What effects and goals make of literals.

ghost use Rattle.std.specs.Prelude.{◌≡◌, [], ◌∷◌, ◌++◌, IfOk, OnOk};
ghost use Rattle.std.specs.List.{filter_map};
ghost use Rattle.pl_check.specs.Literals as lit;

use pl_task::{Atom, GoalLiteral, Lifted, List, Literal, Term};
use std::alloc::{AllocError, Global};

/// The atoms of an effect, those of its negated literals apart, each in reading order.
#[derive(Drop)]
pub struct Effect {
    pub delete: Vec<Lifted>,
    pub add: Vec<Lifted>,
}

/// The effect of these literals.
pub fn effect_of(alloc: Global, literals: Vec<Literal>) -> Result<Effect, AllocError>
    ensures delete { IfOk result (λ effect. effect.delete.items ≡ filter_map lit.deleted literals.items) }
    ensures add { IfOk result (λ effect. effect.add.items ≡ filter_map lit.added literals.items) }
{
    let mut effect = Effect {
        delete: Vec::new(alloc),
        add: Vec::new(alloc),
    };
    for literal in literals {
        add_effect(&mut effect, literal)?;
    }
    Ok(effect)
}

/// Adds the atom of a literal to what an effect deletes or adds.
fn add_effect(effect: &mut Effect, literal: Literal) -> Result<(), AllocError>
    ensures delete { OnOk result (effect.new.delete.items ≡ effect.old.delete.items ++
        filter_map lit.deleted (literal ∷ [])) }
    ensures add { OnOk result (effect.new.add.items ≡ effect.old.add.items ++
        filter_map lit.added (literal ∷ [])) }
{
    match literal {
        Literal::Atom(atom) => effect.add.push(atom)?,
        Literal::NotAtom(atom) => effect.delete.push(atom)?,
        Literal::Equal(_, _) => {}
        Literal::NotEqual(_, _) => {}
    }
    Ok(())
}

/// What literals without parameters want of a goal state.
pub fn goal_of(alloc: Global, literals: Vec<Literal>) -> Result<Vec<GoalLiteral>, AllocError>
    ensures { IfOk result (λ goal. goal.items ≡ filter_map lit.wanted literals.items) }
{
    let mut goal = Vec::new(alloc);
    for literal in literals {
        add_goal(alloc, &mut goal, literal)?;
    }
    Ok(goal)
}

/// Adds what a literal wants of a goal state.
fn add_goal(alloc: Global, goal: &mut Vec<GoalLiteral>, literal: Literal) -> Result<(), AllocError>
    ensures { OnOk result (goal.new.items ≡ goal.old.items ++ filter_map lit.wanted (literal ∷ [])) }
{
    match literal {
        Literal::Atom(atom) => goal.push(goal_literal(alloc, atom, true)?)?,
        Literal::NotAtom(atom) => goal.push(goal_literal(alloc, atom, false)?)?,
        Literal::Equal(_, _) => {}
        Literal::NotEqual(_, _) => {}
    }
    Ok(())
}

/// What a literal of this atom wants.
fn goal_literal(alloc: Global, atom: Lifted, wanted: bool) -> Result<GoalLiteral, AllocError>
    ensures { IfOk result (λ g. g ≡ record { atom = lit.ground atom; wanted = wanted }) }
{
    Ok(GoalLiteral {
        atom: ground(alloc, &atom)?,
        wanted,
    })
}

/// An atom without parameters as a ground atom.
pub fn ground(alloc: Global, atom: &Lifted) -> Result<Atom, AllocError>
    ensures { IfOk result (λ a. a ≡ lit.ground atom.now) }
{
    let terms = atom.terms.as_slice();
    let mut objects = Vec::with_capacity(alloc, terms.len())?;
    for term in terms {
        match *term {
            Term::Parameter(_) => {}
            Term::Object(number) => objects.push(number)?,
        }
    }
    Ok(Atom {
        predicate: atom.predicate,
        objects: List::of(objects),
    })
}
