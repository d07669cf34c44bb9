//! The domain and the problem as files: one `define` list each.

ghost use Rattle.std.specs.Prelude.{◌≡◌, ◌≤◌, ◌++◌, [], ◌∷◌, codes, drop, map, length, bytes_eq, ◌&&◌, All};
ghost use Rattle.std.specs.Prelude.{Some, None, ⊤};
ghost use Rattle.std.specs.List.{flat_map};
ghost use Rattle.pl_text.specs.Trees.{tree_of};
ghost use Rattle.pl_check.specs.declared.role.FileRole.TheVariants as role_of;
ghost use Rattle.pl_check.specs.Elements.{trees, head_word};
ghost use Rattle.pl_check.specs.FaultLists.{first};
ghost use Rattle.pl_check.specs.Files as spec;
ghost use Rattle.pl_check.specs.Known.{Known as KnownOf, sections as sections_of_file, sections_of};
ghost use Rattle.pl_check.specs.Known.{all_after};
ghost use Rattle.pl_check.specs.Literals.{literals_of, ground_atom};
ghost use Rattle.pl_check.specs.Opening.{Opens, OpensForm, OpensTitle};
ghost use Rattle.pl_check.specs.Reading.{Reads, HasFew};
ghost use Rattle.pl_check.specs.Sections.{problem_scope};
ghost use Rattle.pl_check.specs.Stated.{stated_schema};

use crate::domain::read_domain_sections;
use crate::fault::FaultKind;
use crate::known::{Known, into_sections};
use crate::problem::{Stated, read_problem_sections};
use crate::reading::{ReadEnd, refusal};
use crate::role::FileRole;
use crate::source::{head, is_list, parts, place, rest};
use crate::words::is_name;
use pl_task::Schema;
use pl_text::Form;
use std::alloc::Global;

/// The schemas that the forms of a domain of this many bytes state.
pub fn read_domain<'a>(
    alloc: Global,
    text: &'a [u8],
    known: &Known<'a>,
    forms: &[Form],
) -> Result<Vec<Schema>, ReadEnd>
    requires text { length text.now ≤ 16777216 }
    requires few { All HasFew (trees forms.now) }
    ensures { Reads (spec.file_faults role_of.Domain text.now known.now (length text.now) (trees forms.now))
        (λ schemas. schemas.items ≡ map (stated_schema text.now known.now)
        (sections_of text.now (codes ":action") (sections_of_file (trees forms.now)))) result }
{
    let sections = match read_file(text, FileRole::Domain, forms) {
        Ok(sections) => sections,
        Err(end) => return Err(end),
    };
    let schemas = read_domain_sections(alloc, text, known, sections)?;
    check_further(forms)?;
    Ok(schemas)
}

/// What the forms of a problem of this many bytes state. Each is given up as soon as it was read.
pub fn read_problem<'a>(
    alloc: Global,
    text: &'a [u8],
    known: &Known<'a>,
    forms: Vec<Form>,
) -> Result<Stated, ReadEnd>
    requires text { length text.now ≤ 16777216 }
    ensures { Reads (spec.file_faults role_of.Problem text.now known.now
        (length text.now) (trees forms.items))
        (λ stated. (stated.init.items ≡ map (ground_atom (problem_scope text.now known.now))
        (all_after text.now (codes ":init") (sections_of_file (trees forms.items)))) ×
        (stated.goal.items ≡ flat_map (literals_of (problem_scope text.now known.now))
        (all_after text.now (codes ":goal") (sections_of_file (trees forms.items))))) result }
{
    match read_file(text, FileRole::Problem, forms.as_slice()) {
        Ok(_) => {}
        Err(end) => return Err(end),
    }
    let further = check_further(forms.as_slice());
    let stated = read_problem_sections(alloc, text, known, into_sections(alloc, forms))?;
    further?;
    Ok(stated)
}

/// The sections of a file, after the tests of the `define` list and of its title.
fn read_file<'f>(text: &[u8], role: FileRole, forms: &'f [Form]) -> Result<&'f [Form], ReadEnd>
    requires { length text.now ≤ 16777216 }
    ensures { (known : KnownOf) → Opens role text.now known (trees forms.now) result }
{
    match forms {
        [] => Err(refusal(text.len() as u32, FaultKind::NotOneForm)),
        [file, ..] => read_form(text, role, file),
    }
}

/// The sections in the first form of a file.
#[tactic(auto, using(crate::proofs::WalkLemmas::walks), unfolding(crate::specs::Files::form_faults, crate::specs::Files::define_own))]
fn read_form<'f>(text: &[u8], role: FileRole, file: &'f Form) -> Result<&'f [Form], ReadEnd>
    ensures { (known : KnownOf) → OpensForm role text.now known (tree_of file.now) result }
{
    if !is_list(file) {
        return Err(refusal(place(file), FaultKind::NotOneForm));
    }
    let elements = parts(file);
    if !is_define(text, elements) {
        return Err(refusal(place(file), FaultKind::BadForm));
    }
    read_title(text, role, rest(elements, 1))
}

/// Whether a list of these elements begins with the word `define` and a list.
fn is_define(text: &[u8], elements: &[Form]) -> bool
    ensures { result ≡ (bytes_eq (head_word text.now (trees elements.now)) (codes "define") &&
        spec.begins_with_list (drop 1 (trees elements.now))) }
{
    head(text, elements) == b"define".as_slice() && begins_with_list(rest(elements, 1))
}

/// Whether the first of these forms is a list.
fn begins_with_list(forms: &[Form]) -> bool
    ensures { result ≡ spec.begins_with_list (trees forms.now) }
{
    match forms {
        [] => false,
        [form, ..] => is_list(form),
    }
}

/// The sections after a title.
fn read_title<'f>(text: &[u8], role: FileRole, forms: &'f [Form]) -> Result<&'f [Form], ReadEnd>
    ensures { (known : KnownOf) → OpensTitle role text.now known (trees forms.now) result }
{
    match forms {
        [] => Ok(&[]),
        [title, ..] => {
            if !is_title(text, role, title) {
                return Err(refusal(place(title), FaultKind::BadForm));
            }
            Ok(rest(forms, 1))
        }
    }
}

/// Whether a form is `(domain N)` or `(problem N)`.
#[tactic(auto, unfolding(crate::specs::Files::is_title))]
fn is_title(text: &[u8], role: FileRole, form: &Form) -> bool
    ensures { result ≡ spec.is_title text.now role (tree_of form.now) }
{
    let elements = parts(form);
    elements.len() == 2
        && head(text, elements) == word_of_role(role)
        && is_name(head(text, rest(elements, 1)))
}

/// The word before a file's name.
#[tactic(auto, unfolding(crate::specs::Files::role_word))]
fn word_of_role(role: FileRole) -> &'static [u8]
    ensures { result.now ≡ spec.role_word role }
{
    match role {
        FileRole::Domain => b"domain",
        FileRole::Problem => b"problem",
        FileRole::Plan => b"",
    }
}

/// Checks that no second form stands in a file.
fn check_further(forms: &[Form]) -> Result<(), ReadEnd>
    ensures { Reads (spec.further_faults (drop 1 (trees forms.now))) (λ _. ⊤) result }
{
    match forms {
        [_, second, ..] => Err(refusal(place(second), FaultKind::NotOneForm)),
        _ => Ok(()),
    }
}
