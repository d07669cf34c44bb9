//! The sections of a problem.

ghost use Rattle.std.specs.Prelude.{◌≡◌, ◌++◌, [], drop, cond, false, codes, bytes_eq, map};
ghost use Rattle.std.specs.List.{flat_map};
ghost use Rattle.pl_text.specs.Trees.{tree_of};
ghost use Rattle.pl_check.specs.declared.role.FileRole.TheVariants as role;
ghost use Rattle.pl_check.specs.Conditions.{effect_faults};
ghost use Rattle.pl_check.specs.Elements.{trees, head_word, elements as elements_of};
ghost use Rattle.pl_check.specs.FaultLists.{or_inside};
ghost use Rattle.pl_names.specs.Names.{texts};
ghost use Rattle.pl_check.specs.Known.{all_after};
ghost use Rattle.pl_check.specs.Literals.{literals_of, ground_atom};
ghost use Rattle.pl_check.specs.Reading.{Reads, scope_in};
ghost use Rattle.pl_check.specs.Sections as spec;
ghost use Rattle.pl_check.specs.Terms.{basic_faults};

use crate::conditions::read_condition;
use crate::effects::ground;
use crate::fault::FaultKind;
use crate::head::{Head, kind_of_head};
use crate::known::Known;
use crate::reading::{ReadEnd, push, refusal};
use crate::role::FileRole;
use crate::scope::Scope;
use crate::section::{check_requirements, read_section_key};
use crate::source::{into_parts, parts, place, without_first};
use crate::terms::read_atom;
use crate::typed::{TypedRole, check_typed};
use pl_names::Names;
use pl_task::{Atom, Literal};
use pl_text::Form;
use std::alloc::Global;

/// What a problem states: the atoms of init, with repeats, and the literals of the goal.
#[derive(Drop)]
pub struct Stated {
    pub init: Vec<Atom>,
    pub goal: Vec<Literal>,
}

/// What the sections of a problem state. Each form is given up as soon as it was read, since atoms take less
/// memory.
pub fn read_problem_sections<'a>(
    alloc: Global,
    text: &'a [u8],
    known: &Known<'a>,
    sections: Vec<Form>,
) -> Result<Stated, ReadEnd>
    ensures { Reads (spec.sections_faults role.Problem text.now known.now (record { keys = []; actions = [] })
        (trees sections.items))
        (λ stated. (stated.init.items ≡ map (ground_atom (spec.problem_scope text.now known.now))
        (all_after text.now (codes ":init") (trees sections.items))) ×
        (stated.goal.items ≡ flat_map (literals_of (spec.problem_scope text.now known.now))
        (all_after text.now (codes ":goal") (trees sections.items)))) result }
{
    let parameters = no_names(alloc)?;
    let scope = Scope {
        text,
        known,
        parameters: &parameters,
    };
    let mut stated = Stated {
        init: Vec::new(alloc),
        goal: Vec::new(alloc),
    };
    let mut earlier: Vec<&'a [u8]> = Vec::new(alloc);
    for section in sections {
        let key = match read_one(alloc, &scope, earlier.as_slice(), section, &mut stated) {
            Ok(key) => key,
            Err(end) => return Err(end),
        };
        push(&mut earlier, key)?;
    }
    Ok(stated)
}

/// No names: a problem has no parameters.
fn no_names<'a>(alloc: Global) -> Result<Names<'a>, ReadEnd>
    ensures { Reads [] (λ names. names ≡ []) result }
{
    Names::of(alloc, Vec::new(alloc)).map_err(ReadEnd::Memory)
}

/// Reads a section after sections with these keys, and gives its key.
#[tactic(auto, using(crate::proofs::WalkLemmas::walks))]
fn read_one<'a>(
    alloc: Global,
    scope: &Scope<'_, 'a>,
    earlier: &[&'a [u8]],
    section: Form,
    stated: &mut Stated,
) -> Result<&'a [u8], ReadEnd>
    ensures { Reads
        (or_inside (spec.section_own scope.now.text.now role.Problem (texts earlier.now)
        (tree_of section))
        (spec.problem_inside (scope_in scope.now)
        (head_word scope.now.text.now (elements_of (tree_of section)))
        (drop 1 (elements_of (tree_of section)))))
        (λ key. (key.now ≡ head_word scope.now.text.now (elements_of (tree_of section))) ×
        (spec.is_action scope.now.text.now (tree_of section) ≡ false) ×
        (stated.new.init.items ≡ stated.old.init.items ++
        cond (bytes_eq (head_word scope.now.text.now (elements_of (tree_of section))) (codes ":init"))
        (map (ground_atom (scope_in scope.now)) (drop 1 (elements_of (tree_of section)))) []) ×
        (stated.new.goal.items ≡ stated.old.goal.items ++
        cond (bytes_eq (head_word scope.now.text.now (elements_of (tree_of section))) (codes ":goal"))
        (flat_map (literals_of (scope_in scope.now)) (drop 1 (elements_of (tree_of section))))
        [])) result }
{
    let key = read_section_key(scope.text, FileRole::Problem, earlier, &section)?;
    read_section(
        alloc,
        scope,
        key,
        without_first(into_parts(alloc, section)),
        stated,
    )?;
    Ok(key)
}

/// Reads the elements after a key.
#[tactic(auto, unfolding(crate::specs::Sections::problem_inside))]
fn read_section(
    alloc: Global,
    scope: &Scope<'_, '_>,
    key: &[u8],
    forms: Vec<Form>,
    stated: &mut Stated,
) -> Result<(), ReadEnd>
    ensures { Reads (spec.problem_inside (scope_in scope.now) key.now (trees forms.items))
        (λ _. (stated.new.init.items ≡ stated.old.init.items ++
        cond (bytes_eq key.now (codes ":init")) (map (ground_atom (scope_in scope.now)) (trees forms.items))
        []) ×
        (stated.new.goal.items ≡ stated.old.goal.items ++
        cond (bytes_eq key.now (codes ":goal"))
        (flat_map (literals_of (scope_in scope.now)) (trees forms.items)) [])) result }
{
    if key == b":requirements".as_slice() {
        return check_requirements(forms.as_slice());
    }
    if key == b":objects".as_slice() {
        return check_typed(
            alloc,
            scope.text,
            scope.known.types(),
            TypedRole::Names,
            forms.as_slice(),
        );
    }
    if key == b":init".as_slice() {
        return read_init(alloc, scope, forms, &mut stated.init);
    }
    if key == b":goal".as_slice() {
        return read_goal(alloc, scope, forms.as_slice(), &mut stated.goal);
    }
    Ok(())
}

/// Adds the atoms of init.
fn read_init(
    alloc: Global,
    scope: &Scope<'_, '_>,
    forms: Vec<Form>,
    atoms: &mut Vec<Atom>,
) -> Result<(), ReadEnd>
    ensures { Reads (flat_map (basic_faults (scope_in scope.now) false) (trees forms.items))
        (λ _. atoms.new.items ≡ atoms.old.items ++
        map (ground_atom (scope_in scope.now)) (trees forms.items)) result }
{
    for form in forms {
        push(atoms, read_ground(alloc, scope, &form)?)?;
    }
    Ok(())
}

/// The ground atom that a form is.
#[tactic(auto, unfolding(crate::specs::Terms::basic_faults, crate::specs::Terms::basic_own))]
fn read_ground(alloc: Global, scope: &Scope<'_, '_>, form: &Form) -> Result<Atom, ReadEnd>
    ensures { Reads (basic_faults (scope_in scope.now) false (tree_of form.now))
        (λ atom. atom ≡ ground_atom (scope_in scope.now) (tree_of form.now)) result }
{
    let elements = parts(form);
    let at = place(form);
    match kind_of_head(scope.text, elements) {
        Head::Nothing => Err(refusal(at, FaultKind::BadForm)),
        Head::NoName => Err(refusal(at, FaultKind::BadForm)),
        Head::And => Err(refusal(at, FaultKind::Unsupported)),
        Head::Not => Err(refusal(at, FaultKind::Unsupported)),
        Head::Reserved => Err(refusal(at, FaultKind::Unsupported)),
        Head::Equals => Err(refusal(at, FaultKind::Unsupported)),
        Head::Name => {
            let atom = read_atom(alloc, scope, at, elements)?;
            ground(alloc, &atom).map_err(ReadEnd::Memory)
        }
    }
}

/// Adds the literals of the goal.
fn read_goal(
    alloc: Global,
    scope: &Scope<'_, '_>,
    forms: &[Form],
    literals: &mut Vec<Literal>,
) -> Result<(), ReadEnd>
    ensures { Reads (flat_map (effect_faults (scope_in scope.now)) (trees forms.now))
        (λ _. literals.new.items ≡ literals.old.items ++
        flat_map (literals_of (scope_in scope.now)) (trees forms.now)) result }
{
    for form in forms {
        read_condition(alloc, scope, false, form, literals)?;
    }
    Ok(())
}
