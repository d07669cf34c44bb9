//! What both files declare, collected before any test.

ghost use Rattle.std.specs.Prelude.{◌≡◌, ◌≤◌, ◌++◌, ◌∷◌, map, length, filter, codes, IfOk, All};
ghost use Rattle.pl_names.specs.Names.{first_appearances};
ghost use Rattle.pl_check.specs.Elements.{trees, word_of};
ghost use Rattle.pl_check.specs.Known as spec;
ghost use Rattle.pl_check.specs.Predicates as declared;
ghost use Rattle.pl_check.specs.Reading.{HasFew};
ghost use Rattle.pl_check.specs.TypedLists.{item_names};
ghost use Rattle.pl_check.specs.Words as kinds;

use crate::items::add_item_names;
use crate::source::{head, into_parts, parts, rest, without_first, word};
use crate::words::{is_name, is_predicate_name, is_variable};
use pl_names::{Appearances, Names};
use pl_text::Form;
use std::alloc::{AllocError, Global};
use std::marker::Model;

/// The names of the types, the objects and the predicates, and how many arguments each predicate has.
///
/// A name means the first that has it.
#[derive(Drop)]
pub struct Known<'a> {
    types: Appearances<'a>,
    objects: Appearances<'a>,
    predicates: Names<'a>,
    arities: Vec<u32>,
}

impl<'a> Model for Known<'a> {
    ghost use Rattle.std.specs.Prelude.{◌≡◌, length};
    ghost use Rattle.pl_names.specs.Names.{first_appearances};
    ghost use Rattle.pl_check.specs.Known.{Known as KnownOf};

    ghost Value = { KnownOf };

    ghost view = { λ known. record {
      types = first_appearances known.types;
      objects = first_appearances known.objects;
      predicates = known.predicates;
      arities = known.arities.items;
    } };

    ghost invariant = { λ known. length known.predicates ≡ length known.arities.items };
}

impl<'a> Known<'a> {
    /// The types, as they appear.
    pub fn types(&self) -> &Appearances<'a>
        ensures { first_appearances result.now ≡ self.now.types }
    {
        &self.types
    }

    /// The objects, as they appear.
    pub fn objects(&self) -> &Appearances<'a>
        ensures { first_appearances result.now ≡ self.now.objects }
    {
        &self.objects
    }

    /// The names of the predicates, in the order of their declarations.
    pub fn predicates(&self) -> &Names<'a>
        ensures names { result.now ≡ self.now.predicates }
        ensures as_many { length result.now ≡ length self.now.arities }
    {
        &self.predicates
    }

    /// How many arguments each predicate has.
    pub fn arities(&self) -> &[u32]
        ensures arities { result.now ≡ self.now.arities }
        ensures as_many { length result.now ≡ length self.now.predicates }
    {
        self.arities.as_slice()
    }
}

/// Collects what the sections of a domain and of a problem declare, whatever faults stand in or around them.
pub fn collect<'a>(
    alloc: Global,
    domain: &'a [u8],
    domain_sections: &[Form],
    problem: &'a [u8],
    problem_sections: &[Form],
) -> Result<Known<'a>, AllocError>
    requires domain { All HasFew (trees domain_sections.now) }
    requires problem { All HasFew (trees problem_sections.now) }
    ensures { IfOk result (λ known. known ≡
        spec.known_of domain.now (trees domain_sections.now) problem.now (trees problem_sections.now)) }
{
    let types = collect_types(
        alloc,
        domain,
        first_section(domain, b":types", domain_sections),
    )?;
    let objects = collect_objects(
        alloc,
        domain,
        first_section(domain, b":constants", domain_sections),
        problem,
        first_section(problem, b":objects", problem_sections),
    )?;
    let declarations = first_section(domain, b":predicates", domain_sections);
    let (predicates, arities) = collect_predicates(alloc, domain, declarations)?;
    Ok(Known {
        types,
        objects,
        predicates,
        arities,
    })
}

/// The sections of a file: from the third element of its first form on.
#[tactic(auto, unfolding(crate::specs::Known::sections))]
pub fn sections(forms: &[Form]) -> &[Form]
    ensures { trees result.now ≡ spec.sections (trees forms.now) }
{
    match forms {
        [] => &[],
        [file, ..] => rest(parts(file), 2),
    }
}

/// The same, taken out of the file.
#[tactic(auto, unfolding(crate::specs::Known::sections))]
pub fn into_sections(alloc: Global, forms: Vec<Form>) -> Vec<Form>
    ensures { trees result.items ≡ spec.sections (trees forms.items) }
{
    let mut left = forms;
    if left.len() == 0 {
        return Vec::new(alloc);
    }
    let file = left.swap_remove(0);
    without_first(without_first(into_parts(alloc, file)))
}

/// The elements after the key of the first section that has it, and none where no section has it.
pub fn first_section<'f>(text: &[u8], key: &[u8], sections: &'f [Form]) -> &'f [Form]
    ensures section { trees result.now ≡ spec.first_section text.now key.now (trees sections.now) }
    ensures few { All HasFew (trees sections.now) → length result.now ≤ 16777216 }
    ensures inside { All HasFew (trees sections.now) → All HasFew (trees result.now) }
{
    for section in sections {
        if head(text, parts(section)) == key {
            return rest(parts(section), 1);
        }
    }
    &[]
}

/// The types: `object`, and each name among these elements.
fn collect_types<'a>(
    alloc: Global,
    text: &'a [u8],
    forms: &[Form],
) -> Result<Appearances<'a>, AllocError>
    requires { length forms.now ≤ 16777216 }
    ensures { IfOk result (λ types. types ≡
        codes "object" ∷ filter kinds.is_name (map (word_of text.now) (trees forms.now))) }
{
    let mut names: Vec<&'a [u8]> = Vec::new(alloc);
    names.push(b"object")?;
    for form in forms {
        let name = word(text, form);
        if is_name(name) {
            names.push(name)?;
        }
    }
    Appearances::of(alloc, names)
}

/// The objects: the names among the items of constants, then of objects.
fn collect_objects<'a>(
    alloc: Global,
    domain: &'a [u8],
    constants: &[Form],
    problem: &'a [u8],
    objects: &[Form],
) -> Result<Appearances<'a>, AllocError>
    requires constants { length constants.now ≤ 16777216 }
    requires objects { length objects.now ≤ 16777216 }
    ensures { IfOk result (λ met. met ≡ item_names domain.now (trees constants.now) ++
        item_names problem.now (trees objects.now)) }
{
    let mut names = Vec::new(alloc);
    add_item_names(domain, constants, &mut names)?;
    add_item_names(problem, objects, &mut names)?;
    Appearances::of(alloc, names)
}

/// The names of declared predicates, with how many arguments each has.
fn collect_predicates<'a>(
    alloc: Global,
    text: &'a [u8],
    forms: &[Form],
) -> Result<(Names<'a>, Vec<u32>), AllocError>
    requires few { length forms.now ≤ 16777216 }
    requires inside { All HasFew (trees forms.now) }
    ensures names { IfOk result (λ both. both.0 ≡
        map (declared.declared_name text.now) (declared.declarations text.now (trees forms.now))) }
    ensures arities { IfOk result (λ both. both.1.items ≡
        map (declared.declared_arity text.now) (declared.declarations text.now (trees forms.now))) }
{
    let mut names = Vec::new(alloc);
    let mut arities = Vec::new(alloc);
    for form in forms {
        let name = head(text, parts(form));
        if is_predicate_name(name) {
            names.push(name)?;
            arities.push(count_variables(text, parts(form)) as u32)?;
        }
    }
    Ok((Names::of(alloc, names)?, arities))
}

/// How many of these forms are variables.
pub fn count_variables(text: &[u8], forms: &[Form]) -> usize
    ensures count { result ≡ length (filter kinds.is_variable (map (word_of text.now) (trees forms.now))) }
    ensures few { result ≤ length forms.now }
{
    let mut count = 0;
    for form in forms {
        if is_variable(word(text, form)) {
            count += 1;
        }
    }
    count
}
