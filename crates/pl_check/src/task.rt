//! The task of what both files declare and state.

ghost use Rattle.std.specs.Prelude.{◌≡◌, ◌++◌, ◌<◌, [], false, not, codes, map, length, replicate, slice_set};
ghost use Rattle.std.specs.Prelude.{slice_index_or, IfOk, OnOk};
ghost use Rattle.std.specs.List.{flat_map, filter_map};
ghost use Rattle.pl_names.specs.Names.{first_appearances};
ghost use Rattle.pl_check.specs.Elements.{trees};
ghost use Rattle.pl_check.specs.Gathering.{lists_in, AreAdded, AreLeft};
ghost use Rattle.pl_check.specs.Known.{sections_of, all_after};
ghost use Rattle.pl_check.specs.Literals.{literals_of, ground_atom, wanted};
ghost use Rattle.pl_check.specs.Made.{stated_types, stated_objects, AreParts, IsOfParts};
ghost use Rattle.pl_check.specs.Reading.{numbered_in};
ghost use Rattle.pl_check.specs.Sections.{problem_scope};
ghost use Rattle.pl_check.specs.Stated as spec;
ghost use Rattle.pl_check.specs.TypedLists as typed;

use crate::effects::goal_of;
use crate::items::{TypedItem, typed_items};
use crate::known::{Known, first_section};
use crate::once::each_once;
use crate::problem::Stated;
use crate::statics::fluent_marks;
use pl_names::Appearances;
use pl_task::{List, ObjectDef, PredicateDef, Schema, Task, TypeDef};
use pl_text::Form;
use std::alloc::{AllocError, Global};
use std::mem;

/// The types and the objects of a task.
#[derive(Drop)]
pub struct Lists {
    pub types: Vec<TypeDef>,
    pub objects: Vec<ObjectDef>,
}

/// The types and the objects that the sections of a domain and of a problem state.
pub fn lists_of<'a>(
    alloc: Global,
    known: &Known<'a>,
    domain: &'a [u8],
    domain_sections: &[Form],
    problem: &'a [u8],
    problem_sections: &[Form],
) -> Result<Lists, AllocError>
    ensures types { IfOk result (λ lists. lists.types.items ≡
        stated_types domain.now (trees domain_sections.now) known.now) }
    ensures objects { IfOk result (λ lists. lists.objects.items ≡
        stated_objects domain.now (trees domain_sections.now) problem.now (trees problem_sections.now)
        known.now) }
{
    let types_in = first_section(domain, b":types", domain_sections);
    let constants_in = first_section(domain, b":constants", domain_sections);
    let objects_in = first_section(problem, b":objects", problem_sections);
    let types = type_list(alloc, known, domain, types_in)?;
    let objects = object_list(alloc, known, domain, constants_in, problem, objects_in)?;
    Ok(Lists { types, objects })
}

/// The task of these types, objects and schemas, and of what else was read.
pub fn task_of(
    alloc: Global,
    known: &Known<'_>,
    lists: Lists,
    schemas: Vec<Schema>,
    stated: Stated,
) -> Result<Task, AllocError>
    requires { AreParts lists.types.items lists.objects.items
        (spec.predicates_from schemas.items 0 known.now.predicates known.now.arities)
        schemas.items (spec.once stated.init.items) (filter_map wanted stated.goal.items) }
    ensures { IfOk result (IsOfParts lists.types.items lists.objects.items
        (spec.predicates_from schemas.items 0 known.now.predicates known.now.arities)
        schemas.items (spec.once stated.init.items) (filter_map wanted stated.goal.items)) }
{
    let predicates = predicate_list(alloc, known, schemas.as_slice())?;
    let init = each_once(alloc, stated.init)?;
    let goal = goal_of(alloc, stated.goal)?;
    Ok(Task {
        types: List::of(lists.types),
        objects: List::of(lists.objects),
        predicates: List::of(predicates),
        schemas: List::of(schemas),
        init: List::of(init),
        goal: List::of(goal),
    })
}

/// The types with their parents.
fn type_list<'a>(
    alloc: Global,
    known: &Known<'a>,
    text: &'a [u8],
    forms: &[Form],
) -> Result<Vec<TypeDef>, AllocError>
    ensures { IfOk result (λ types. types.items ≡
        map (spec.type_of known.now.types (typed.typed_items text.now false (trees forms.now)))
        known.now.types) }
{
    let names = known.types();
    let items = typed_items(alloc, text, names, forms)?;
    let mut parents = no_types(alloc, names.names().len())?;
    add_types(names, items.as_slice(), &mut parents)?;
    let mut types = Vec::new(alloc);
    for (i, name) in names.names().iter().enumerate() {
        let under = taken(alloc, &mut parents, i);
        let definition = type_named(alloc, *name, under)?;
        types.push(definition)?;
    }
    Ok(types)
}

/// The objects with their types.
fn object_list<'a>(
    alloc: Global,
    known: &Known<'a>,
    domain: &'a [u8],
    constants: &[Form],
    problem: &'a [u8],
    forms: &[Form],
) -> Result<Vec<ObjectDef>, AllocError>
    ensures { IfOk result (λ objects. objects.items ≡
        map (spec.object_of known.now.types
        (typed.typed_items domain.now false (trees constants.now) ++
        typed.typed_items problem.now false (trees forms.now))) known.now.objects) }
{
    let names = known.objects();
    let mut types = object_types(alloc, known, domain, constants, problem, forms)?;
    let mut objects = Vec::with_capacity(alloc, names.names().len())?;
    for (i, name) in names.names().iter().enumerate() {
        let of = taken(alloc, &mut types, i);
        let definition = object_named(alloc, *name, of)?;
        objects.push(definition)?;
    }
    Ok(objects)
}

/// The types of the objects, a list for each.
///
/// The items take about as much memory as the objects that are made of them, and are given up here.
fn object_types<'a>(
    alloc: Global,
    known: &Known<'a>,
    domain: &'a [u8],
    constants: &[Form],
    problem: &'a [u8],
    forms: &[Form],
) -> Result<Vec<Vec<u32>>, AllocError>
    ensures { IfOk result (λ lists. AreLeft known.now.types
        (typed.typed_items domain.now false (trees constants.now) ++
        typed.typed_items problem.now false (trees forms.now)) known.now.objects (lists_in lists.items) 0) }
{
    let names = known.objects();
    let kinds = known.types();
    let mut lists = no_types(alloc, names.names().len())?;
    let first = typed_items(alloc, domain, kinds, constants)?;
    add_types(names, first.as_slice(), &mut lists)?;
    let second = typed_items(alloc, problem, kinds, forms)?;
    add_types(names, second.as_slice(), &mut lists)?;
    Ok(lists)
}

/// A name of a task.
fn name_of(alloc: Global, word: &[u8]) -> Result<List<u8>, AllocError>
    ensures { IfOk result (λ name. name ≡ word.now) }
{
    Ok(List::of(word.to_vec(alloc)?))
}

/// A type under these types.
fn type_named(alloc: Global, name: &[u8], parents: Vec<u32>) -> Result<TypeDef, AllocError>
    ensures { IfOk result (λ made. made ≡ record { name = name.now; parents = parents.items }) }
{
    Ok(TypeDef {
        name: name_of(alloc, name)?,
        parents: List::of(parents),
    })
}

/// An object of these types.
fn object_named(alloc: Global, name: &[u8], types: Vec<u32>) -> Result<ObjectDef, AllocError>
    ensures { IfOk result (λ made. made ≡ record { name = name.now; types = types.items }) }
{
    Ok(ObjectDef {
        name: name_of(alloc, name)?,
        types: List::of(types),
    })
}

/// A predicate, static where no effect names it.
fn predicate_named(
    alloc: Global,
    name: &[u8],
    arity: u32,
    is_fluent: bool,
) -> Result<PredicateDef, AllocError>
    ensures { IfOk result (λ made. made ≡
        record { name = name.now; arity = arity; is_static = not is_fluent }) }
{
    Ok(PredicateDef {
        name: name_of(alloc, name)?,
        arity,
        is_static: !is_fluent,
    })
}

/// As many empty lists.
fn no_types(alloc: Global, count: usize) -> Result<Vec<Vec<u32>>, AllocError>
    ensures { IfOk result (λ lists. lists_in lists.items ≡ replicate count []) }
{
    let mut lists = Vec::new(alloc);
    for _ in 0..count {
        lists.push(Vec::new(alloc))?;
    }
    Ok(lists)
}

/// Adds the types of each item to the list of its name's number.
fn add_types<'a>(
    names: &Appearances<'a>,
    items: &[TypedItem<'a>],
    lists: &mut Vec<Vec<u32>>,
) -> Result<(), AllocError>
    requires { length lists.old.items ≡ length (first_appearances names.now) }
    ensures added { OnOk result (AreAdded (first_appearances names.now) (map numbered_in items.now)
        (lists_in lists.old.items) (lists_in lists.new.items)) }
{
    for item in items {
        if let Some(number) = names.find(item.name) {
            extend(lists, number as usize, item.types.as_slice())?;
        }
    }
    Ok(())
}

/// Adds numbers to the list at a place.
fn extend(lists: &mut Vec<Vec<u32>>, place: usize, numbers: &[u32]) -> Result<(), AllocError>
    requires { place < length lists.old.items }
    ensures { OnOk result (lists_in lists.new.items ≡
        slice_set (lists_in lists.old.items) place
        (slice_index_or (lists_in lists.old.items) place [] ++ numbers.now)) }
{
    lists[place].extend_from_slice(numbers)?;
    Ok(())
}

/// The list at a place, which is left empty.
fn taken(alloc: Global, lists: &mut Vec<Vec<u32>>, place: usize) -> Vec<u32>
    requires { place < length lists.old.items }
    ensures list { result.items ≡ slice_index_or (lists_in lists.old.items) place [] }
    ensures others { lists_in lists.new.items ≡ slice_set (lists_in lists.old.items) place [] }
{
    mem::replace(&mut lists[place], Vec::new(alloc))
}

/// The predicates, static where no effect names them.
fn predicate_list(
    alloc: Global,
    known: &Known<'_>,
    schemas: &[Schema],
) -> Result<Vec<PredicateDef>, AllocError>
    ensures { IfOk result (λ predicates. predicates.items ≡
        spec.predicates_from schemas.now 0 known.now.predicates known.now.arities) }
{
    let fluent = fluent_marks(alloc, schemas, known.arities().len())?;
    let arities = known.arities();
    let mut predicates = Vec::new(alloc);
    for (i, name) in known.predicates().names().iter().enumerate() {
        let definition = predicate_named(alloc, *name, arities[i], fluent[i])?;
        predicates.push(definition)?;
    }
    Ok(predicates)
}
