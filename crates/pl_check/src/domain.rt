//! The sections of a domain.

ghost use Rattle.std.specs.Prelude.{◌≡◌, ◌≤◌, ◌+◌, ◌++◌, [], ◌∷◌, cond, codes, bytes_eq, drop, map, length};
ghost use Rattle.std.specs.Prelude.{take};
ghost use Rattle.std.specs.Prelude.{IfOk, OnOk, All, Some, None, ⊤};
ghost use Rattle.std.specs.List.{list_any};
ghost use Rattle.pl_names.specs.Names.{texts};
ghost use Rattle.pl_text.specs.Trees.{tree_of};
ghost use Rattle.pl_check.specs.declared.fault.FaultKind.TheVariants as kind;
ghost use Rattle.pl_check.specs.declared.role.FileRole.TheVariants as role;
ghost use Rattle.pl_check.specs.Actions as action;
ghost use Rattle.pl_check.specs.Elements.{trees, elements as elements_of};
ghost use Rattle.pl_check.specs.FaultLists.{fault_if, or_inside};
ghost use Rattle.pl_check.specs.Known.{sections_of};
ghost use Rattle.pl_check.specs.Reading.{Reads, HasFew};
ghost use Rattle.pl_check.specs.Sections as spec;
ghost use Rattle.pl_check.specs.Stated.{stated_schema};

use crate::actions::read_action;
use crate::earlier::stands_before;
use crate::fault::FaultKind;
use crate::known::Known;
use crate::predicates::check_predicates;
use crate::reading::{ReadEnd, push, refusal};
use crate::role::FileRole;
use crate::section::{check_requirements, read_section_key};
use crate::source::{head, parts, place, rest};
use crate::typed::{TypedRole, check_typed};
use pl_names::Names;
use pl_task::Schema;
use pl_text::Form;
use std::alloc::{AllocError, Global};

/// The schemas that the sections of a domain state.
pub fn read_domain_sections<'a>(
    alloc: Global,
    text: &'a [u8],
    known: &Known<'a>,
    sections: &[Form],
) -> Result<Vec<Schema>, ReadEnd>
    requires few { length sections.now ≤ 16777216 }
    requires inside { All HasFew (trees sections.now) }
    ensures { Reads
        (spec.sections_faults role.Domain text.now known.now (record { keys = []; actions = [] })
        (trees sections.now))
        (λ schemas. schemas.items ≡
        map (stated_schema text.now known.now)
        (sections_of text.now (codes ":action") (trees sections.now))) result }
{
    let actions = action_names(alloc, text, sections).map_err(ReadEnd::Memory)?;
    read_sections(alloc, text, known, &actions, sections)
}

/// The schemas of sections, with the names of their actions.
fn read_sections<'a>(
    alloc: Global,
    text: &'a [u8],
    known: &Known<'a>,
    actions: &Names<'a>,
    sections: &[Form],
) -> Result<Vec<Schema>, ReadEnd>
    requires inside { All HasFew (trees sections.now) }
    requires names { actions.now ≡
        map (action.action_name text.now) (sections_of text.now (codes ":action") (trees sections.now)) }
    ensures { Reads
        (spec.sections_faults role.Domain text.now known.now (record { keys = []; actions = [] })
        (trees sections.now))
        (λ schemas. schemas.items ≡
        map (stated_schema text.now known.now)
        (sections_of text.now (codes ":action") (trees sections.now))) result }
{
    let mut schemas = Vec::new(alloc);
    let mut earlier: Vec<&'a [u8]> = Vec::new(alloc);
    for section in sections {
        let found = read_section(
            alloc,
            text,
            known,
            actions,
            earlier.as_slice(),
            schemas.len(),
            section,
        )?;
        match found {
            Some(schema) => push(&mut schemas, schema)?,
            None => push(&mut earlier, head(text, parts(section)))?,
        }
    }
    Ok(schemas)
}

/// Reads a section after sections with these keys and this number of actions: its schema, where it is an
/// action.
#[tactic(auto, using(crate::proofs::WalkLemmas::walks), unfolding(crate::specs::Sections::domain_section))]
fn read_section<'a>(
    alloc: Global,
    text: &'a [u8],
    known: &Known<'a>,
    actions: &Names<'a>,
    earlier: &[&'a [u8]],
    number: usize,
    section: &Form,
) -> Result<Option<Schema>, ReadEnd>
    requires { HasFew (tree_of section.now) }
    ensures { Reads
        (or_inside (spec.section_own text.now role.Domain (texts earlier.now) (tree_of section.now))
        (spec.domain_section text.now known.now
        (record { keys = texts earlier.now; actions = take number actions.now }) (tree_of section.now)))
        (λ found. found ≡ cond (spec.is_action text.now (tree_of section.now))
        (Some (stated_schema text.now known.now (tree_of section.now))) None) result }
{
    let key = read_section_key(text, FileRole::Domain, earlier, section)?;
    if key == b":action".as_slice() {
        let schema = read_action_section(alloc, text, known, actions, number, section)?;
        return Ok(Some(schema));
    }
    check_section(alloc, text, known, key, rest(parts(section), 1))?;
    Ok(None)
}

/// The schema that a section states, the action of this number.
#[tactic(auto, unfolding(crate::specs::Actions::action_faults))]
fn read_action_section<'a>(
    alloc: Global,
    text: &'a [u8],
    known: &Known<'a>,
    actions: &Names<'a>,
    number: usize,
    section: &Form,
) -> Result<Schema, ReadEnd>
    requires { HasFew (tree_of section.now) }
    ensures { Reads (action.action_faults text.now known.now (take number actions.now) (tree_of section.now))
        (λ schema. schema ≡ stated_schema text.now known.now (tree_of section.now)) result }
{
    check_action_name(text, actions, number, section)?;
    let elements = parts(section);
    let name = head(text, rest(elements, 1));
    read_action(alloc, text, known, name, rest(elements, 2))
}

/// The names of the actions among sections.
fn action_names<'a>(
    alloc: Global,
    text: &'a [u8],
    sections: &[Form],
) -> Result<Names<'a>, AllocError>
    requires { length sections.now ≤ 16777216 }
    ensures { IfOk result (λ names. names ≡
        map (action.action_name text.now) (sections_of text.now (codes ":action") (trees sections.now))) }
{
    let mut names = Vec::new(alloc);
    for section in sections {
        add_action_name(text, section, &mut names)?;
    }
    Names::of(alloc, names)
}

/// Adds the name of a section, where that is an action.
fn add_action_name<'a>(
    text: &'a [u8],
    section: &Form,
    names: &mut Vec<&'a [u8]>,
) -> Result<(), AllocError>
    ensures named { OnOk result (texts names.new.items ≡ texts names.old.items ++
        cond (spec.is_action text.now (tree_of section.now))
        (action.action_name text.now (tree_of section.now) ∷ []) []) }
    ensures few { OnOk result (length names.new.items ≤ length names.old.items + 1) }
{
    let elements = parts(section);
    if head(text, elements) != b":action".as_slice() {
        return Ok(());
    }
    names.push(head(text, rest(elements, 1)))?;
    Ok(())
}

/// Checks the name of an action, the one of this number.
fn check_action_name<'a>(
    text: &'a [u8],
    actions: &Names<'a>,
    number: usize,
    section: &Form,
) -> Result<(), ReadEnd>
    ensures { Reads
        (fault_if (list_any (bytes_eq (action.action_name text.now (tree_of section.now)))
        (take number actions.now))
        (action.first_place (drop 1 (elements_of (tree_of section.now)))) kind.Duplicate) (λ _. ⊤) result }
{
    let forms = rest(parts(section), 1);
    if stands_before(actions, head(text, forms), number) {
        return Err(refusal(first_place(forms), FaultKind::Duplicate));
    }
    Ok(())
}

/// Where the first of these forms begins.
fn first_place(forms: &[Form]) -> u32
    ensures { result ≡ action.first_place (trees forms.now) }
{
    match forms {
        [] => 0,
        [form, ..] => place(form),
    }
}

/// Checks the elements after the key of a section that isn't an action.
#[tactic(auto, unfolding(crate::specs::Sections::domain_inside))]
fn check_section<'a>(
    alloc: Global,
    text: &'a [u8],
    known: &Known<'a>,
    key: &[u8],
    forms: &[Form],
) -> Result<(), ReadEnd>
    requires few { length forms.now ≤ 16777216 }
    requires inside { All HasFew (trees forms.now) }
    ensures { Reads (spec.domain_inside text.now known.now key.now (trees forms.now)) (λ _. ⊤) result }
{
    if key == b":requirements".as_slice() {
        return check_requirements(forms);
    }
    if key == b":types".as_slice() || key == b":constants".as_slice() {
        return check_typed(alloc, text, known.types(), TypedRole::Names, forms);
    }
    if key == b":predicates".as_slice() {
        return check_predicates(alloc, text, known.types(), forms);
    }
    Ok(())
}
