//! The tests of a section itself.

ghost use Rattle.std.specs.Prelude.{◌≡◌, IsTrue, IfOk, ⊤, bytes_eq};
ghost use Rattle.std.specs.List.{list_any, flat_map};
ghost use Rattle.pl_names.specs.Names.{texts};
ghost use Rattle.pl_text.specs.Trees.{tree_of};
ghost use Rattle.pl_check.specs.Elements.{trees, head_word, elements as elements_of};
ghost use Rattle.pl_check.specs.Reading.{Reads};
ghost use Rattle.pl_check.specs.Sections as spec;

use crate::fault::FaultKind;
use crate::reading::{ReadEnd, refusal};
use crate::role::FileRole;
use crate::source::{head, is_list, parts, place, rest};
use crate::words::{is_among, is_key, is_name};
use pl_text::Form;

/// The keys of the sections of a domain.
const DOMAIN_KEYS: [&[u8]; 5] = [
    b":requirements",
    b":types",
    b":constants",
    b":predicates",
    b":action",
];

/// The keys of the sections of a problem.
const PROBLEM_KEYS: [&[u8]; 5] = [
    b":domain",
    b":requirements",
    b":objects",
    b":init",
    b":goal",
];

/// The key of a section of the file, after sections with these keys.
#[tactic(auto, unfolding(crate::specs::Sections::section_own))]
pub fn read_section_key<'a>(
    text: &'a [u8],
    role: FileRole,
    earlier: &[&'a [u8]],
    form: &Form,
) -> Result<&'a [u8], ReadEnd>
    ensures { Reads (spec.section_own text.now role (texts earlier.now) (tree_of form.now))
        (λ key. key.now ≡ head_word text.now (elements_of (tree_of form.now))) result }
{
    let elements = parts(form);
    let key = head(text, elements);
    if !is_key(key) {
        return Err(refusal(place(form), FaultKind::BadForm));
    }
    if !has_shape(text, elements) {
        return Err(refusal(place(form), FaultKind::BadForm));
    }
    if !is_key_of(role, key) {
        return Err(refusal(place(form), FaultKind::Unsupported));
    }
    if is_among(earlier, key) {
        return Err(refusal(place(form), FaultKind::Duplicate));
    }
    Ok(key)
}

/// Whether a section of these elements has the shape that its key asks for, in whichever file it stands.
#[tactic(auto, unfolding(crate::specs::Sections::has_shape))]
fn has_shape(text: &[u8], elements: &[Form]) -> bool
    ensures { result ≡ spec.has_shape text.now (trees elements.now) }
{
    let key = head(text, elements);
    if key == b":domain".as_slice() {
        return is_domain_name(text, elements);
    }
    if key == b":goal".as_slice() {
        return elements.len() <= 2;
    }
    if key == b":action".as_slice() {
        return is_action_form(text, elements);
    }
    true
}

/// Whether a list of these elements is `(:domain N)`.
#[tactic(auto, unfolding(crate::specs::Sections::is_domain_name))]
fn is_domain_name(text: &[u8], elements: &[Form]) -> bool
    ensures { result ≡ spec.is_domain_name text.now (trees elements.now) }
{
    elements.len() == 2 && is_name(head(text, rest(elements, 1)))
}

/// Whether a list of these elements is `(:action N ..)` with pairs after the name.
#[tactic(auto, unfolding(crate::specs::Sections::is_action_form))]
fn is_action_form(text: &[u8], elements: &[Form]) -> bool
    ensures { result ≡ spec.is_action_form text.now (trees elements.now) }
{
    is_name(head(text, rest(elements, 1))) && elements.len() % 2 == 0
}

/// Whether the key is one of the file's.
#[tactic(auto, unfolding(crate::specs::Sections::section_keys))]
fn is_key_of(role: FileRole, key: &[u8]) -> bool
    ensures { result ≡ list_any (bytes_eq key.now) (spec.section_keys role) }
{
    match role {
        FileRole::Domain => is_among(&DOMAIN_KEYS, key),
        FileRole::Problem => is_among(&PROBLEM_KEYS, key),
        FileRole::Plan => false,
    }
}

/// Checks the elements of `:requirements` after its key.
pub fn check_requirements(forms: &[Form]) -> Result<(), ReadEnd>
    ensures { Reads (flat_map spec.requirement_faults (trees forms.now)) (λ _. ⊤) result }
{
    for form in forms {
        check_requirement(form)?;
    }
    Ok(())
}

/// Checks an element of `:requirements`.
#[tactic(auto, unfolding(crate::specs::Sections::requirement_faults))]
fn check_requirement(form: &Form) -> Result<(), ReadEnd>
    ensures { Reads (spec.requirement_faults (tree_of form.now)) (λ _. ⊤) result }
{
    if is_list(form) {
        return Err(refusal(place(form), FaultKind::BadForm));
    }
    Ok(())
}
