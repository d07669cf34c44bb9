//! The items of typed lists with the types of their groups.

ghost use Rattle.std.specs.Prelude.{◌≡◌, ◌≤◌, ◌<◌, ◌^◌, ◌+◌, ◌++◌, ◌∷◌, [], ℕ, List, true, false, cond, map};
ghost use Rattle.std.specs.Prelude.{filter, length, codes, IfOk, OnOk};
ghost use Rattle.std.specs.List.{filter_map};
ghost use Rattle.pl_names.specs.Names.{texts, number_among, first_appearances};
ghost use Rattle.pl_text.specs.Trees.{Tree, tree_of};
ghost use Rattle.pl_check.specs.Elements.{trees, word_of};
ghost use Rattle.pl_check.specs.Reading.{numbered, numbered_in, items_from, grouped};
ghost use Rattle.pl_check.specs.TypedLists as spec;

use crate::source::{is_list, parts, rest, word};
use crate::typed::TypedRole;
use pl_names::Appearances;
use pl_text::Form;
use std::alloc::{AllocError, Global};

/// An item of a typed list, with the numbers of the types of its group.
#[derive(Drop)]
pub struct TypedItem<'a> {
    pub name: &'a [u8],
    pub types: Vec<u32>,
}

/// The number of items of a typed list.
pub fn count_items(text: &[u8], forms: &[Form]) -> usize
    ensures { result ≡ length (spec.items text.now false (trees forms.now)) }
{
    let mut count = 0;
    let mut after_dash = false;
    for form in forms {
        if is_item(text, after_dash, form) {
            count += 1;
        }
        after_dash = is_dash(text, form);
    }
    count
}

/// Whether an element is in item position.
fn is_item(text: &[u8], after_dash: bool, form: &Form) -> bool
    ensures { result ≡ spec.is_in_item_position text.now after_dash (tree_of form.now) }
{
    if after_dash {
        return false;
    }
    !is_dash(text, form)
}

/// Whether a form is the word `-`.
fn is_dash(text: &[u8], form: &Form) -> bool
    ensures { result ≡ spec.is_dash text.now (tree_of form.now) }
{
    word(text, form) == b"-".as_slice()
}

/// Adds the names among the items of a typed list.
#[tactic(auto, using(crate::proofs::ItemLemmas::name_items))]
pub fn add_item_names<'a>(
    text: &'a [u8],
    forms: &[Form],
    names: &mut Vec<&'a [u8]>,
) -> Result<(), AllocError>
    ensures names { OnOk result
        (texts names.new.items ≡ texts names.old.items ++ spec.item_names text.now (trees forms.now)) }
    ensures few { OnOk result (length names.new.items ≤ length names.old.items + length forms.now) }
{
    add_items(text, TypedRole::Names, forms, names)
}

/// The variables among the items of a typed list.
#[tactic(auto, using(crate::proofs::ItemLemmas::variable_items))]
pub fn variables_of_items<'a>(
    alloc: Global,
    text: &'a [u8],
    forms: &[Form],
) -> Result<Vec<&'a [u8]>, AllocError>
    ensures names { IfOk result
        (λ names. texts names.items ≡ spec.item_variables text.now (trees forms.now)) }
    ensures few { IfOk result (λ names. length names.items ≤ length forms.now) }
{
    let mut names = Vec::new(alloc);
    add_items(text, TypedRole::Variables, forms, &mut names)?;
    Ok(names)
}

/// Adds the items of a typed list that may be items of this role.
fn add_items<'a>(
    text: &'a [u8],
    role: TypedRole,
    forms: &[Form],
    names: &mut Vec<&'a [u8]>,
) -> Result<(), AllocError>
    ensures names { OnOk result
        (texts names.new.items ≡ texts names.old.items ++
        filter (spec.is_item role) (map (word_of text.now) (spec.items text.now false (trees forms.now)))) }
    ensures few { OnOk result (length names.new.items ≤ length names.old.items + length forms.now) }
{
    let mut after_dash = false;
    for form in forms {
        add_item(text, role, after_dash, form, names)?;
        after_dash = is_dash(text, form);
    }
    Ok(())
}

/// Adds an element where it is in item position and may be an item of this role.
fn add_item<'a>(
    text: &'a [u8],
    role: TypedRole,
    after_dash: bool,
    form: &Form,
    names: &mut Vec<&'a [u8]>,
) -> Result<(), AllocError>
    ensures names { OnOk result
        (texts names.new.items ≡ texts names.old.items ++
        cond (spec.is_in_item_position text.now after_dash (tree_of form.now))
        (filter (spec.is_item role) (word_of text.now (tree_of form.now) ∷ [])) []) }
    ensures few { OnOk result (length names.new.items ≤ length names.old.items + 1) }
{
    if !is_item(text, after_dash, form) {
        return Ok(());
    }
    let name = word(text, form);
    if !role.is_item(name) {
        return Ok(());
    }
    names.push(name)?;
    Ok(())
}

/// The items of a typed list that are done, and the names of the group that is open.
#[derive(Drop)]
pub struct OpenItems<'a> {
    pub items: Vec<TypedItem<'a>>,
    pub open: Vec<&'a [u8]>,
    pub after_dash: bool,
}

impl<'a> OpenItems<'a> {
    /// Goes over an element.
    fn pass(
        self,
        alloc: Global,
        text: &'a [u8],
        types: &Appearances<'a>,
        form: &Form,
    ) -> Result<OpenItems<'a>, AllocError>
        ensures { IfOk result (λ walk. (left : List Tree) →
            items_from text.now (first_appearances types.now) walk left ≡
            items_from text.now (first_appearances types.now) self.entry (tree_of form.now ∷ left)) }
    {
        if self.after_dash {
            return self.close(alloc, text, types, form);
        }
        let after_dash = is_dash(text, form);
        let mut open = self.open;
        if !after_dash {
            open.push(word(text, form))?;
        }
        Ok(OpenItems {
            items: self.items,
            open,
            after_dash,
        })
    }

    /// Ends the open group by an element in type position.
    fn close(
        self,
        alloc: Global,
        text: &'a [u8],
        types: &Appearances<'a>,
        form: &Form,
    ) -> Result<OpenItems<'a>, AllocError>
        requires { self.after_dash ≡ true }
        ensures { IfOk result (λ walk. (left : List Tree) →
            items_from text.now (first_appearances types.now) walk left ≡
            items_from text.now (first_appearances types.now) self.entry (tree_of form.now ∷ left)) }
    {
        let numbers = type_numbers(alloc, text, types, form)?;
        let mut items = self.items;
        add_group(alloc, &mut items, self.open.as_slice(), numbers.as_slice())?;
        Ok(OpenItems {
            items,
            open: Vec::new(alloc),
            after_dash: is_dash(text, form),
        })
    }
}

/// The items of a typed list with the numbers of their types among the types that are known.
pub fn typed_items<'a>(
    alloc: Global,
    text: &'a [u8],
    types: &Appearances<'a>,
    forms: &[Form],
) -> Result<Vec<TypedItem<'a>>, AllocError>
    ensures { IfOk result (λ items. map numbered_in items.items ≡
        map (numbered (first_appearances types.now)) (spec.typed_items text.now false (trees forms.now))) }
{
    let mut walk = OpenItems {
        items: Vec::new(alloc),
        open: Vec::new(alloc),
        after_dash: false,
    };
    for form in forms {
        walk = walk.pass(alloc, text, types, form)?;
    }
    let mut numbers = Vec::new(alloc);
    add_number(&mut numbers, types, b"object")?;
    let mut items = walk.items;
    add_group(alloc, &mut items, walk.open.as_slice(), numbers.as_slice())?;
    Ok(items)
}

/// Adds items of these names with these types.
fn add_group<'a>(
    alloc: Global,
    items: &mut Vec<TypedItem<'a>>,
    names: &[&'a [u8]],
    numbers: &[u32],
) -> Result<(), AllocError>
    ensures { OnOk result
        (map numbered_in items.new.items ≡ map numbered_in items.old.items ++
        grouped (texts names.now) numbers.now) }
{
    for name in names {
        items.push(TypedItem {
            name: *name,
            types: numbers.to_vec(alloc)?,
        })?;
    }
    Ok(())
}

/// The numbers of the types that an element in type position names.
fn type_numbers<'a>(
    alloc: Global,
    text: &'a [u8],
    types: &Appearances<'a>,
    form: &Form,
) -> Result<Vec<u32>, AllocError>
    ensures { IfOk result (λ numbers. numbers.items ≡
        spec.type_numbers (first_appearances types.now) (spec.named_types text.now (tree_of form.now))) }
{
    let mut numbers = Vec::new(alloc);
    if !is_list(form) {
        add_number(&mut numbers, types, word(text, form))?;
        return Ok(numbers);
    }
    add_numbers(&mut numbers, text, types, rest(parts(form), 1))?;
    Ok(numbers)
}

/// Adds the numbers of the types that these forms name.
fn add_numbers<'a>(
    numbers: &mut Vec<u32>,
    text: &'a [u8],
    types: &Appearances<'a>,
    forms: &[Form],
) -> Result<(), AllocError>
    ensures { OnOk result
        (numbers.new.items ≡ numbers.old.items ++
        spec.type_numbers (first_appearances types.now) (map (word_of text.now) (trees forms.now))) }
{
    for form in forms {
        add_number(numbers, types, word(text, form))?;
    }
    Ok(())
}

/// Adds the number of a type, where it has one.
fn add_number<'a>(
    numbers: &mut Vec<u32>,
    types: &Appearances<'a>,
    name: &[u8],
) -> Result<(), AllocError>
    ensures { OnOk result
        (numbers.new.items ≡ numbers.old.items ++
        spec.type_numbers (first_appearances types.now) (name.now ∷ [])) }
{
    if let Some(number) = types.find(name) {
        numbers.push(number)?;
    }
    Ok(())
}
