//! Actions: a name, then pairs of a key and a value.

ghost use Rattle.std.specs.Prelude.{◌≡◌, ◌≤◌, ◌++◌, [], cond, codes, bytes_eq, map, length, false};
ghost use Rattle.std.specs.Prelude.{IsTrue, IfOk, All, ⊤};
ghost use Rattle.std.specs.List.{filter_map};
ghost use Rattle.pl_names.specs.Names.{texts};
ghost use Rattle.pl_text.specs.Trees.{tree_of};
ghost use Rattle.pl_check.specs.Actions as spec;
ghost use Rattle.pl_check.specs.Elements.{trees, word_of};
ghost use Rattle.pl_check.specs.FaultLists.{or_inside};
ghost use Rattle.pl_check.specs.Literals.{literals_of, added, deleted};
ghost use Rattle.pl_check.specs.Reading.{Reads, scope_in, numbered_in, as_parameter, HasFew};
ghost use Rattle.pl_check.specs.Stated.{parameter_of as stated_parameter, schema_of as stated_schema};
ghost use Rattle.pl_check.specs.TypedLists.{item_variables, typed_items as items_of};

use crate::conditions::{read_condition, read_precondition};
use crate::effects::effect_of;
use crate::fault::FaultKind;
use crate::items::{TypedItem, count_items, typed_items, variables_of_items};
use crate::known::Known;
use crate::reading::{ReadEnd, push, refusal};
use crate::scope::Scope;
use crate::source::{is_list, parts, place, rest, word};
use crate::typed::{TypedRole, check_typed};
use crate::words::{is_among, is_key};
use pl_names::Names;
use pl_task::{List, Literal, Parameter, Schema};
use pl_text::Form;
use std::alloc::{AllocError, Global};

/// How many parameters an action may have.
const MAX_PARAMETERS: usize = 64;

/// The literals of the values of an action.
#[derive(Drop)]
struct Values {
    condition: Vec<Literal>,
    effect: Vec<Literal>,
}

/// The schema that an action with these elements states.
pub fn read_action<'a>(
    alloc: Global,
    text: &'a [u8],
    known: &Known<'a>,
    name: &'a [u8],
    pairs: &[Form],
) -> Result<Schema, ReadEnd>
    requires { All HasFew (trees pairs.now) }
    ensures { Reads
        (spec.pairs_faults (spec.action_scope text.now known.now (trees pairs.now)) []
        (trees pairs.now))
        (λ schema. schema ≡ stated_schema text.now known.now name.now (trees pairs.now)) result }
{
    let parameters = parameter_forms(text, pairs);
    let names = match parameter_names(alloc, text, parameters) {
        Ok(names) => names,
        Err(failed) => return Err(ReadEnd::Memory(failed)),
    };
    let scope = Scope {
        text,
        known,
        parameters: &names,
    };
    let values = match read_pairs(alloc, &scope, pairs) {
        Ok(values) => values,
        Err(end) => return Err(end),
    };
    match schema_of(alloc, text, known, name, parameters, values) {
        Ok(schema) => Ok(schema),
        Err(failed) => Err(ReadEnd::Memory(failed)),
    }
}

/// The elements of the value of the first `:parameters`, and none where that isn't a list.
fn parameter_forms<'f>(text: &[u8], pairs: &'f [Form]) -> &'f [Form]
    ensures forms { trees result.now ≡ spec.parameter_elements text.now (trees pairs.now) }
    ensures few { All HasFew (trees pairs.now) → length result.now ≤ 16777216 }
{
    let mut left = pairs;
    while left.len() >= 2 {
        if word(text, &left[0]) == b":parameters".as_slice() {
            return parts(&left[1]);
        }
        left = rest(left, 2);
    }
    &[]
}

/// The names of the parameters.
fn parameter_names<'a>(
    alloc: Global,
    text: &'a [u8],
    forms: &[Form],
) -> Result<Names<'a>, AllocError>
    requires { length forms.now ≤ 16777216 }
    ensures { IfOk result (λ names. names ≡ item_variables text.now (trees forms.now)) }
{
    Names::of(alloc, variables_of_items(alloc, text, forms)?)
}

/// The literals of pairs.
fn read_pairs<'a>(alloc: Global, scope: &Scope<'_, 'a>, pairs: &[Form]) -> Result<Values, ReadEnd>
    ensures { Reads (spec.pairs_faults (scope_in scope.now) [] (trees pairs.now))
        (λ values. (values.condition.items ≡
        spec.keyed_literals (scope_in scope.now) (codes ":precondition") (trees pairs.now)) ×
        (values.effect.items ≡
        spec.keyed_literals (scope_in scope.now) (codes ":effect") (trees pairs.now))) result }
{
    let mut values = Values {
        condition: Vec::new(alloc),
        effect: Vec::new(alloc),
    };
    let mut earlier: Vec<&'a [u8]> = Vec::new(alloc);
    let mut left = pairs;
    while left.len() >= 2 {
        let name = &left[0];
        let value = &left[1];
        read_pair(alloc, scope, earlier.as_slice(), name, value, &mut values)?;
        push(&mut earlier, word(scope.text, name))?;
        left = rest(left, 2);
    }
    Ok(values)
}

/// Adds the literals of a pair after pairs with these keys.
fn read_pair(
    alloc: Global,
    scope: &Scope<'_, '_>,
    earlier: &[&[u8]],
    name: &Form,
    value: &Form,
    values: &mut Values,
) -> Result<(), ReadEnd>
    ensures { Reads
        (or_inside (spec.key_faults (scope_in scope.now) (texts earlier.now) (tree_of name.now))
        (spec.value_faults (scope_in scope.now) (word_of scope.now.text.now (tree_of name.now))
        (tree_of value.now)))
        (λ _. (values.new.condition.items ≡ values.old.condition.items ++
        cond (bytes_eq (word_of scope.now.text.now (tree_of name.now)) (codes ":precondition"))
        (literals_of (scope_in scope.now) (tree_of value.now)) []) ×
        (values.new.effect.items ≡ values.old.effect.items ++
        cond (bytes_eq (word_of scope.now.text.now (tree_of name.now)) (codes ":effect"))
        (literals_of (scope_in scope.now) (tree_of value.now)) [])) result }
{
    let key = read_key(scope, earlier, name)?;
    read_value(alloc, scope, key, value, values)
}

/// The key that a form is, after pairs with these keys.
#[tactic(auto, unfolding(crate::specs::Actions::key_faults))]
fn read_key<'a>(scope: &Scope<'_, 'a>, earlier: &[&[u8]], form: &Form) -> Result<&'a [u8], ReadEnd>
    ensures reads { Reads
        (spec.key_faults (scope_in scope.now) (texts earlier.now) (tree_of form.now))
        (λ key. key.now ≡ word_of scope.now.text.now (tree_of form.now)) result }
    ensures key { IfOk result (λ key. IsTrue (spec.is_action_key key.now)) }
{
    let key = word(scope.text, form);
    if !is_key(key) {
        return Err(refusal(place(form), FaultKind::BadForm));
    }
    if !is_action_key(key) {
        return Err(refusal(place(form), FaultKind::Unsupported));
    }
    if is_among(earlier, key) {
        return Err(refusal(place(form), FaultKind::Duplicate));
    }
    Ok(key)
}

/// Whether the word is a key of actions.
#[tactic(auto, unfolding(crate::specs::Actions::is_action_key))]
fn is_action_key(key: &[u8]) -> bool
    ensures { result ≡ spec.is_action_key key.now }
{
    key == b":parameters".as_slice()
        || key == b":precondition".as_slice()
        || key == b":effect".as_slice()
}

/// Reads the value of a key.
#[tactic(auto, unfolding(crate::specs::Actions::value_faults, crate::specs::Actions::is_action_key))]
fn read_value(
    alloc: Global,
    scope: &Scope<'_, '_>,
    key: &[u8],
    form: &Form,
    values: &mut Values,
) -> Result<(), ReadEnd>
    requires { IsTrue (spec.is_action_key key.now) }
    ensures { Reads (spec.value_faults (scope_in scope.now) key.now (tree_of form.now))
        (λ _. (values.new.condition.items ≡ values.old.condition.items ++
        cond (bytes_eq key.now (codes ":precondition"))
        (literals_of (scope_in scope.now) (tree_of form.now)) []) ×
        (values.new.effect.items ≡ values.old.effect.items ++
        cond (bytes_eq key.now (codes ":effect"))
        (literals_of (scope_in scope.now) (tree_of form.now)) [])) result }
{
    if key == b":parameters".as_slice() {
        return check_parameters(alloc, scope, form);
    }
    if key == b":precondition".as_slice() {
        return read_precondition(alloc, scope, form, &mut values.condition);
    }
    read_condition(alloc, scope, false, form, &mut values.effect)
}

/// Checks the value of `:parameters`.
#[tactic(auto, unfolding(crate::specs::Actions::parameters_faults))]
fn check_parameters(alloc: Global, scope: &Scope<'_, '_>, form: &Form) -> Result<(), ReadEnd>
    ensures { Reads (spec.parameters_faults (scope_in scope.now) (tree_of form.now))
        (λ _. ⊤) result }
{
    if !is_list(form) {
        return Err(refusal(place(form), FaultKind::BadForm));
    }
    if count_items(scope.text, parts(form)) > MAX_PARAMETERS {
        return Err(refusal(place(form), FaultKind::TooMany));
    }
    check_typed(
        alloc,
        scope.text,
        scope.known.types(),
        TypedRole::Parameters,
        parts(form),
    )
}

/// The schema of a name, of parameters and of literals.
fn schema_of<'a>(
    alloc: Global,
    text: &'a [u8],
    known: &Known<'a>,
    name: &[u8],
    parameters: &[Form],
    values: Values,
) -> Result<Schema, AllocError>
    ensures { IfOk result (λ schema. schema ≡ record {
      name = name.now;
      parameters = map (stated_parameter known.now.types)
          (items_of text.now false (trees parameters.now));
      condition = values.condition.items;
      delete = filter_map deleted values.effect.items;
      add = filter_map added values.effect.items;
    }) }
{
    let parameters = parameters_of(alloc, text, known, parameters)?;
    let effect = effect_of(alloc, values.effect)?;
    Ok(Schema {
        name: List::of(name.to_vec(alloc)?),
        parameters: List::of(parameters),
        condition: List::of(values.condition),
        delete: List::of(effect.delete),
        add: List::of(effect.add),
    })
}

/// The parameters with their types.
fn parameters_of<'a>(
    alloc: Global,
    text: &'a [u8],
    known: &Known<'a>,
    forms: &[Form],
) -> Result<Vec<Parameter>, AllocError>
    ensures { IfOk result (λ parameters. parameters.items ≡
        map (stated_parameter known.now.types) (items_of text.now false (trees forms.now))) }
{
    let items = typed_items(alloc, text, known.types(), forms)?;
    parameters_of_items(alloc, items)
}

/// The parameters that items are.
fn parameters_of_items(
    alloc: Global,
    items: Vec<TypedItem<'_>>,
) -> Result<Vec<Parameter>, AllocError>
    ensures { IfOk result (λ parameters. parameters.items ≡
        map as_parameter (map numbered_in items.entry.items)) }
{
    let mut parameters = Vec::new(alloc);
    for item in items {
        parameters.push(parameter_of(alloc, item)?)?;
    }
    Ok(parameters)
}

/// The parameter that an item is.
fn parameter_of(alloc: Global, item: TypedItem<'_>) -> Result<Parameter, AllocError>
    ensures { IfOk result (λ parameter. parameter ≡ as_parameter (numbered_in item.entry)) }
{
    Ok(Parameter {
        name: List::of(item.name.to_vec(alloc)?),
        types: List::of(item.types),
    })
}
