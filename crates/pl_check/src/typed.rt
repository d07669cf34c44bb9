//! Typed lists: names or variables in groups, each with the type that follows it after `-`.

ghost use Rattle.std.specs.Prelude.{◌≡◌, ◌≤◌, ◌&&◌, ◌||◌, not, length, IfOk, IfErr, ⊤};
ghost use Rattle.std.specs.List.{list_any, flat_map};
ghost use Rattle.std.specs.Str.{bytes_eq};
ghost use Rattle.pl_names.specs.Names.{texts, first_appearances};
ghost use Rattle.pl_text.specs.Trees.{tree_of};
ghost use Rattle.pl_check.specs.Elements.{trees, word_of};
ghost use Rattle.pl_check.specs.FaultLists.{first};
ghost use Rattle.pl_check.specs.Reading.{Reads, IsMemory};
ghost use Rattle.pl_check.specs.TypedLists as spec;

use crate::fault::FaultKind;
use crate::reading::{Fault, ReadEnd, push, refusal};
use crate::source::{head, is_list, parts, place, rest, word};
use crate::words::{is_among, is_name, is_variable};
use pl_names::Appearances;
use pl_text::Form;
use std::alloc::Global;

/// What the items of a typed list are.
#[derive(Clone, Copy, Debug, PartialEq, Eq)]
pub enum TypedRole {
    /// Names, of types or of objects.
    Names,
    /// The parameters of an action, each once.
    Parameters,
    /// The variables of a predicate's declaration.
    Variables,
}

impl TypedRole {
    /// Whether a word may be an item.
    #[tactic(auto, unfolding(crate::specs::TypedLists::is_item))]
    pub fn is_item(self, word: &[u8]) -> bool
        ensures { result ≡ spec.is_item self word.now }
    {
        match self {
            TypedRole::Names => is_name(word),
            TypedRole::Parameters => is_variable(word),
            TypedRole::Variables => is_variable(word),
        }
    }

    /// Whether items may not be repeated.
    #[tactic(auto, unfolding(crate::specs::TypedLists::are_distinct))]
    fn are_distinct(self) -> bool
        ensures { result ≡ spec.are_distinct self }
    {
        match self {
            TypedRole::Names => false,
            TypedRole::Parameters => true,
            TypedRole::Variables => false,
        }
    }

    /// Whether `(either t ..)` may stand in type position.
    #[tactic(auto, unfolding(crate::specs::TypedLists::takes_either))]
    fn takes_either(self) -> bool
        ensures { result ≡ spec.takes_either self }
    {
        match self {
            TypedRole::Names => false,
            TypedRole::Parameters => true,
            TypedRole::Variables => true,
        }
    }
}

/// What a walk over a typed list keeps of the elements so far.
#[derive(Drop)]
pub struct Group<'a> {
    /// Whether the last element is `-`.
    pub after_dash: bool,
    /// Whether the group that is open has an item.
    pub has_item: bool,
    /// The items that may not stand again.
    pub parameters: Vec<&'a [u8]>,
}

impl<'a> Group<'a> {
    /// Before the first element.
    fn start(alloc: Global) -> Group<'a>
        ensures { spec.before_of result ≡ spec.at_start }
    {
        Group {
            after_dash: false,
            has_item: false,
            parameters: Vec::new(alloc),
        }
    }

    /// Checks the next element.
    #[tactic(auto, unfolding(crate::specs::TypedLists::element_faults, crate::specs::TypedLists::dash_faults))]
    fn check(
        &self,
        text: &'a [u8],
        types: &Appearances<'a>,
        role: TypedRole,
        is_last: bool,
        form: &Form,
    ) -> Result<(), ReadEnd>
        ensures { Reads
            (spec.element_faults text.now (first_appearances types.now) role (spec.before_of self.now)
            is_last (tree_of form.now))
            (λ _. ⊤) result }
    {
        if self.after_dash {
            return check_type(text, types, role, form);
        }
        let name = word(text, form);
        if name == b"-".as_slice() {
            if !self.has_item || is_last {
                return Err(refusal(place(form), FaultKind::BadForm));
            }
            return Ok(());
        }
        self.check_item(text, role, form)
    }

    /// Checks an item.
    #[tactic(auto, unfolding(crate::specs::TypedLists::item_faults))]
    fn check_item(&self, text: &'a [u8], role: TypedRole, form: &Form) -> Result<(), ReadEnd>
        ensures { Reads
            (spec.item_faults text.now role (spec.before_of self.now) (tree_of form.now))
            (λ _. ⊤) result }
    {
        if !role.is_item(word(text, form)) {
            return Err(refusal(place(form), FaultKind::BadForm));
        }
        if stands_among(text, self.parameters.as_slice(), form) {
            return Err(refusal(place(form), FaultKind::Duplicate));
        }
        Ok(())
    }

    /// Goes over an element.
    #[tactic(auto, unfolding(crate::specs::TypedLists::after))]
    fn pass(self, text: &'a [u8], role: TypedRole, form: &Form) -> Result<Group<'a>, ReadEnd>
        ensures ok { IfOk result
            (λ group. spec.before_of group
            ≡ spec.after text.now role (tree_of form.now) (spec.before_of self.entry)) }
        ensures err { IfErr result IsMemory }
    {
        let name = word(text, form);
        let is_dash = name == b"-".as_slice();
        let mut parameters = self.parameters;
        if !self.after_dash && role.are_distinct() && is_variable(name) {
            push(&mut parameters, name)?;
        }
        Ok(Group {
            after_dash: is_dash,
            has_item: !self.after_dash && (self.has_item || !is_dash),
            parameters,
        })
    }
}

/// Whether the word of a form is one of these names.
fn stands_among(text: &[u8], names: &[&[u8]], form: &Form) -> bool
    ensures { result ≡ list_any (bytes_eq (word_of text.now (tree_of form.now))) (texts names.now) }
{
    is_among(names, word(text, form))
}

/// Checks a typed list over these types.
///
/// The variables of parameters are compared with each other: the caller has seen that there are 64 items at
/// most.
pub fn check_typed<'a>(
    alloc: Global,
    text: &'a [u8],
    types: &Appearances<'a>,
    role: TypedRole,
    forms: &[Form],
) -> Result<(), ReadEnd>
    ensures { Reads
        (spec.typed_faults text.now (first_appearances types.now) role spec.at_start (trees forms.now))
        (λ _. ⊤) result }
{
    let mut group = Group::start(alloc);
    for (i, form) in forms.iter().enumerate() {
        group.check(text, types, role, i + 1 == forms.len(), form)?;
        group = group.pass(text, role, form)?;
    }
    Ok(())
}

/// Checks an element in type position.
#[tactic(auto, unfolding(crate::specs::TypedLists::type_faults))]
fn check_type<'a>(
    text: &'a [u8],
    types: &Appearances<'a>,
    role: TypedRole,
    form: &Form,
) -> Result<(), ReadEnd>
    ensures { Reads
        (spec.type_faults text.now (first_appearances types.now) role (tree_of form.now))
        (λ _. ⊤) result }
{
    if !is_list(form) {
        return check_type_name(text, types, form);
    }
    if !role.takes_either() || !is_either(text, form) {
        return Err(refusal(place(form), FaultKind::BadForm));
    }
    check_type_names(text, types, rest(parts(form), 1))
}

/// Checks the names of types.
fn check_type_names<'a>(
    text: &'a [u8],
    types: &Appearances<'a>,
    forms: &[Form],
) -> Result<(), ReadEnd>
    ensures { Reads
        (flat_map (spec.type_name_faults text.now (first_appearances types.now)) (trees forms.now))
        (λ _. ⊤) result }
{
    for form in forms {
        check_type_name(text, types, form)?;
    }
    Ok(())
}

/// Whether a form is `(either t ..)` with at least one further element.
#[tactic(auto, unfolding(crate::specs::TypedLists::is_either))]
fn is_either(text: &[u8], form: &Form) -> bool
    ensures { result ≡ spec.is_either text.now (tree_of form.now) }
{
    head(text, parts(form)) == b"either".as_slice() && parts(form).len() >= 2
}

/// Checks the name of a type.
#[tactic(auto, unfolding(crate::specs::TypedLists::type_name_faults))]
fn check_type_name<'a>(text: &'a [u8], types: &Appearances<'a>, form: &Form) -> Result<(), ReadEnd>
    ensures { Reads
        (spec.type_name_faults text.now (first_appearances types.now) (tree_of form.now))
        (λ _. ⊤) result }
{
    let name = word(text, form);
    if !is_name(name) {
        return Err(refusal(place(form), FaultKind::BadForm));
    }
    if types.find(name).is_none() {
        return Err(refusal(place(form), FaultKind::UnknownType));
    }
    Ok(())
}
