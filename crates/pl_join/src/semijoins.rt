//! The semijoin of two relations.

ghost use Rattle.std.specs.Prelude.{◌≡◌, ◌⊎◌, [], ◌+◌, ◌*◌, ◌<◌, ◌≤◌, ◌^◌, ℕ, length, map, filter};
ghost use Rattle.std.specs.Prelude.{All, Contains, IfOk, IfSome, IfNone};
ghost use Rattle.pl_join.specs.Relation.{IsRelation, IsJoinOf, IsSemijoinOf, has_class, without};
ghost use Rattle.pl_join.specs.Lookup.{keys_of, key_width};
ghost use Rattle.pl_join.specs.Source.{shared_with, of_rows};

use crate::filters::{Keep, fewer_rows};
use crate::lookup::Lookup;
use crate::projection::project;
use crate::relation::Relation;
use crate::short_list::ShortList;
use crate::source::class_sources;
use pl_rows::Table;
use pl_steps::Steps;
use std::alloc::{AllocError, Global};
use std::sync::ledger::Ledger;

/// The rows of `keep` that agree with at least one row of `by` on all shared classes, over the classes of
/// `keep` in their order.
///
/// It is `reduction`, with a copy of `keep` where every row is kept, and costs the same probes.
pub fn semijoin<L: Ledger>(
    alloc: Global,
    keep: &Relation,
    by: &Relation,
    steps: &mut Steps<L>,
) -> Result<Relation, AllocError>
    ensures classes { IfOk result (λ r. r.classes ≡ keep.now.classes) }
    ensures rows { IfOk result (IsSemijoinOf keep.now by.now) }
    ensures cost { steps.new ≤ steps.old + 2 * length keep.now.rows + length by.now.rows }
    ensures rise { steps.old ≤ steps.new }
{
    match reduction(alloc, keep, by, steps)? {
        Some(kept) => Ok(kept),
        None => keep.copied(alloc),
    }
}

/// The semijoin of `keep` by `by`, where it has fewer rows than `keep`; None where it has every row of
/// `keep`, which is then not copied.
///
/// It takes at most two probes per row of `keep` and one per row of `by`, and none where one of the two has
/// no row, or where they share no class. The rows that are kept are not sorted. Those of `by` are projected
/// onto the shared classes first, unless these are all that it has.
pub fn reduction<L: Ledger>(
    alloc: Global,
    keep: &Relation,
    by: &Relation,
    steps: &mut Steps<L>,
) -> Result<Option<Relation>, AllocError>
    ensures same { IfOk result (λ r. IfNone r (IsSemijoinOf keep.now by.now keep.now)) }
    ensures classes { IfOk result (λ r. IfSome r (λ kept. kept.classes ≡ keep.now.classes)) }
    ensures rows { IfOk result (λ r. IfSome r (IsSemijoinOf keep.now by.now)) }
    ensures fewer { IfOk result (λ r. IfSome r (λ kept. length kept.rows < length keep.now.rows)) }
    ensures cost { steps.new ≤ steps.old + 2 * length keep.now.rows + length by.now.rows }
    ensures empty { (keep.now.rows ≡ []) ⊎ (by.now.rows ≡ []) → steps.new ≡ steps.old }
    ensures apart { ((c : ℕ) → Contains by.now.classes c → Contains keep.now.classes c → ⊥)
        → steps.new ≡ steps.old }
    ensures rise { steps.old ≤ steps.new }
{
    if keep.table().is_empty() {
        return Ok(None);
    }
    if by.table().is_empty() {
        return Ok(Some(keep.emptied(alloc)?));
    }
    let classes = by.classes();
    let shared = shared_classes(alloc, classes, keep.classes())?;
    let shared = shared.as_slice();
    if shared.is_empty() {
        return Ok(None);
    }
    if shared == classes {
        return reduced(alloc, keep, by, steps);
    }
    let projected = project(alloc, by, shared, steps)?;
    reduced(alloc, keep, &projected, steps)
}

/// The assignments of `keep` that `by` holds too, where all classes of `by` are among those of `keep`.
///
/// It takes at most two probes per row of `keep`.
pub fn restricted<L: Ledger>(
    alloc: Global,
    keep: &Relation,
    by: &Relation,
    steps: &mut Steps<L>,
) -> Result<Relation, AllocError>
    requires { All (Contains keep.now.classes) by.now.classes }
    ensures classes { IfOk result (λ r. r.classes ≡ keep.now.classes) }
    ensures rows { IfOk result (IsJoinOf keep.now by.now) }
    ensures cost { steps.new ≤ steps.old + 2 * length keep.now.rows }
    ensures rise { steps.old ≤ steps.new }
{
    match reduced(alloc, keep, by, steps)? {
        Some(kept) => Ok(kept),
        None => keep.copied(alloc),
    }
}

/// The same where it has fewer rows than `keep`; None where it has every row of `keep`.
fn reduced<L: Ledger>(
    alloc: Global,
    keep: &Relation,
    by: &Relation,
    steps: &mut Steps<L>,
) -> Result<Option<Relation>, AllocError>
    requires { All (Contains keep.now.classes) by.now.classes }
    ensures same { IfOk result (λ r. IfNone r (IsJoinOf keep.now by.now keep.now)) }
    ensures classes { IfOk result (λ r. IfSome r (λ kept. kept.classes ≡ keep.now.classes)) }
    ensures rows { IfOk result (λ r. IfSome r (IsJoinOf keep.now by.now)) }
    ensures fewer { IfOk result (λ r. IfSome r (λ kept. length kept.rows < length keep.now.rows)) }
    ensures cost { steps.new ≤ steps.old + 2 * length keep.now.rows }
    ensures rise { steps.old ≤ steps.new }
{
    let other = Lookup::Rows(by.table());
    let wanted = by.classes();
    looked_up(alloc, keep.classes(), keep.table(), wanted, other, steps)
}

/// The rows of a table over some classes whose values of the wanted classes are found, where some are not;
/// None where all are.
///
/// It takes at most two probes per row.
pub fn looked_up<L: Ledger>(
    alloc: Global,
    classes: &[u32],
    table: &Table,
    wanted: &[u32],
    other: Lookup<'_>,
    steps: &mut Steps<L>,
) -> Result<Option<Relation>, AllocError>
    requires relation { IsRelation (of_rows classes.now table.now.rows) }
    requires arity { table.now.arity ≡ length classes.now }
    requires held { All (Contains classes.now) wanted.now }
    requires width { key_width other ≡ length wanted.now }
    ensures same { let keep = of_rows classes.now table.now.rows in
        IfOk result (λ r. IfNone r (IsJoinOf keep (of_rows wanted.now (keys_of other.entry)) keep)) }
    ensures classes { IfOk result (λ r. IfSome r (λ kept. kept.classes ≡ classes.now)) }
    ensures rows { let keep = of_rows classes.now table.now.rows in
        IfOk result (λ r. IfSome r (IsJoinOf keep (of_rows wanted.now (keys_of other.entry)))) }
    ensures fewer { IfOk result (λ r. IfSome r (λ kept. length kept.rows < length table.now.rows)) }
    ensures cost { steps.new ≤ steps.old + 2 * length table.now.rows }
    ensures rise { steps.old ≤ steps.new }
{
    let sources = class_sources(alloc, classes, wanted)?;
    match fewer_rows(alloc, table, other, sources.as_slice(), Keep::Found, steps)? {
        Some(kept) => Ok(Some(Relation::new(ShortList::from_slice(alloc, classes)?, kept))),
        None => Ok(None),
    }
}

/// The classes that are among the others, in their order.
pub fn shared_classes(
    alloc: Global,
    classes: &[u32],
    others: &[u32],
) -> Result<ShortList<u32>, AllocError>
    ensures { IfOk result (λ shared. shared.items ≡ shared_with classes.now others.now) }
{
    let mut shared = ShortList::new(alloc);
    for class in classes {
        if has(others, *class) {
            shared.push(*class)?;
        }
    }
    Ok(shared)
}

/// The classes that are not among the others, in their order.
pub fn other_classes(
    alloc: Global,
    classes: &[u32],
    others: &[u32],
) -> Result<ShortList<u32>, AllocError>
    ensures { IfOk result (λ rest. rest.items ≡ without classes.now others.now) }
{
    let mut rest = ShortList::new(alloc);
    for class in classes {
        if !has(others, *class) {
            rest.push(*class)?;
        }
    }
    Ok(rest)
}

/// Whether the class is among these.
pub fn has(classes: &[u32], class: u32) -> bool
    ensures { result ≡ has_class classes.now class }
{
    classes.iter().any(|known| *known == class)
}
