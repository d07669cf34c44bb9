//! A relation that is looked up by its first classes, and the semijoins with it.

ghost use Rattle.std.specs.Prelude.{◌≡◌, ◌↔◌, ◌+◌, ◌*◌, ◌<◌, ◌≤◌, ◌++◌, ℕ, [], length, All, Contains};
ghost use Rattle.std.specs.Prelude.{IsTrue, IfOk, IfSome, IfNone};
ghost use Rattle.std.specs.List.{list_all, list_any};
ghost use Rattle.pl_join.specs.Relation.{Assignment, AreDistinct, Holds, IsRelation, IsJoinOf};
ghost use Rattle.pl_join.specs.Relation.{IsSemijoinOf, has_class, without};
ghost use Rattle.pl_join.specs.Keyed.{IsSharedKey, key_of};

use crate::found::{Ranges, rows_found};
use crate::joins::appended;
use crate::lookup::Lookup;
use crate::projection::project;
use crate::relation::Relation;
use crate::semijoins::{has, looked_up, other_classes};
use crate::short_list::ShortList;
use pl_rows::{Indexed, Table};
use pl_steps::Steps;
use std::alloc::{AllocError, Global};
use std::marker::Model;
use std::sync::ledger::Ledger;

/// A relation with an index of its first classes, the key, made once and asked often.
///
/// A semijoin with it takes one look-up for each row of the other relation, and does not go through its rows.
#[derive(Drop)]
pub struct Keyed {
    classes: ShortList<u32>,
    indexed: Indexed,
}

impl Model for Keyed {
    ghost use Rattle.pl_join.specs.Keyed.{KeyedRows, relation_of, IsKeyedBy};

    ghost Value = { KeyedRows };

    ghost view = { λ k.
        record { relation = relation_of k.classes.items k.indexed; width = k.indexed.width } };

    ghost invariant = { λ k. IsKeyedBy k.classes.items k.indexed };
}

impl Keyed {
    ghost use Rattle.pl_join.specs.Keyed.{key_of, rest_of};

    /// The relation, looked up by its first `width` classes. It takes one probe per row. The only error is
    /// want of memory.
    pub fn of<L: Ledger>(
        alloc: Global,
        relation: Relation,
        width: u32,
        steps: &mut Steps<L>,
    ) -> Result<Keyed, AllocError>
        requires { width ≤ length relation.classes }
        ensures keyed { IfOk result (λ k. k ≡ record { relation = relation; width = width }) }
        ensures cost { steps.new ≤ steps.old + length relation.rows }
        ensures rise { steps.old ≤ steps.new }
    {
        let classes = ShortList::from_slice(alloc, relation.classes())?;
        let indexed = Indexed::build(alloc, relation.into_table(), width, steps)?;
        Ok(Keyed { classes, indexed })
    }

    /// The keyed relation, made ready for many look-ups. To make it so takes far longer than a look-up, so it
    /// is worth that only for a relation that stays. It takes no probe. The only error is want of memory.
    pub fn lasting(self, alloc: Global) -> Result<Keyed, AllocError>
        ensures { IfOk result (λ k. k ≡ self) }
    {
        let indexed = self.indexed.lasting(alloc)?;
        Ok(Keyed {
            classes: self.classes,
            indexed,
        })
    }

    /// The relation with the classes of the key in front and the others behind them in their order, looked up
    /// by the key.
    ///
    /// It takes at most two probes per row. The only error is want of memory.
    pub fn by<L: Ledger>(
        alloc: Global,
        relation: &Relation,
        key: &[u32],
        steps: &mut Steps<L>,
    ) -> Result<Keyed, AllocError>
        requires held { All (Contains relation.now.classes) key.now }
        requires distinct { AreDistinct key.now }
        ensures classes { IfOk result (λ k. k.relation.classes
            ≡ key.now ++ without relation.now.classes key.now) }
        ensures width { IfOk result (λ k. k.width ≡ length key.now) }
        ensures rows { IfOk result (λ k. (f : Assignment) → Holds k.relation f ↔ Holds relation.now f) }
        ensures most { IfOk result (λ k. length k.relation.rows ≤ length relation.now.rows) }
        ensures cost { steps.new ≤ steps.old + 2 * length relation.now.rows }
        ensures rise { steps.old ≤ steps.new }
    {
        let rest = other_classes(alloc, relation.classes(), key)?;
        let order = appended(alloc, key, rest.as_slice())?;
        let arranged = project(alloc, relation, order.as_slice(), steps)?;
        Keyed::of(alloc, arranged, key.len() as u32, steps)
    }

    /// The classes, with those of the key in front, in the order of the table's columns.
    pub fn classes(&self) -> &[u32]
        ensures classes { result.now ≡ self.now.relation.classes }
        ensures relation { IsRelation self.now.relation }
        ensures width { self.now.width ≤ length self.now.relation.classes }
    {
        self.classes.as_slice()
    }

    /// The classes of the key.
    pub fn key(&self) -> &[u32]
        ensures key { result.now ≡ key_of self.now }
        ensures width { length result.now ≡ self.now.width }
        ensures relation { IsRelation self.now.relation }
    {
        &self.classes.as_slice()[..self.indexed.width() as usize]
    }

    /// Whether the key has just those of the classes that are among the others, as the semijoins with a
    /// relation over the others want it.
    pub fn shares_key(&self, others: &[u32]) -> bool
        ensures { IsTrue result ↔ IsSharedKey self.now others.now }
    {
        if !are_among(self.key(), others) {
            return false;
        }
        !are_met(self.rest(), others)
    }

    /// The classes behind the key.
    fn rest(&self) -> &[u32]
        ensures { result.now ≡ rest_of self.now }
    {
        &self.classes.as_slice()[self.indexed.width() as usize..]
    }

    /// The rows: one value for each class, in the order of the classes.
    pub fn table(&self) -> &Table
        ensures { result.now
            ≡ record { arity = length self.now.relation.classes; rows = self.now.relation.rows } }
    {
        self.indexed.table()
    }

    /// The relation, without the index. It takes no probe. The only error is want of memory.
    pub fn copied(&self, alloc: Global) -> Result<Relation, AllocError>
        ensures { IfOk result (λ r. r ≡ self.now.relation) }
    {
        let classes = ShortList::from_slice(alloc, self.classes.as_slice())?;
        let table = self.indexed.table().copied(alloc)?;
        Ok(Relation::new(classes, table))
    }

    /// The relation over the same classes that has no row. It takes no probe. The only error is want of
    /// memory.
    pub fn emptied(&self, alloc: Global) -> Result<Relation, AllocError>
        ensures { IfOk result (λ r. r ≡ record { classes = self.now.relation.classes; rows = [] }) }
    {
        let classes = ShortList::from_slice(alloc, self.classes.as_slice())?;
        let arity = self.indexed.table().arity();
        let table = Table::from_ascending(arity, 0, Vec::new(alloc));
        Ok(Relation::new(classes, table))
    }

    /// The table with the index of the key.
    pub fn indexed(&self) -> &Indexed
        ensures { result.now ≡ record {
          table = record { arity = length self.now.relation.classes; rows = self.now.relation.rows };
          width = self.now.width;
        } }
    {
        &self.indexed
    }
}

/// Whether all of the classes are among the others.
fn are_among(classes: &[u32], others: &[u32]) -> bool
    ensures { result ≡ list_all (has_class others.now) classes.now }
{
    classes.iter().all(|class| has(others, *class))
}

/// Whether one of the classes is among the others.
fn are_met(classes: &[u32], others: &[u32]) -> bool
    ensures { result ≡ list_any (has_class others.now) classes.now }
{
    classes.iter().any(|class| has(others, *class))
}

/// The semijoin of `keep` by a keyed relation, where it has fewer rows than `keep`; None where it has every
/// row of `keep`, which is then not copied. The key has just the classes that the two share.
///
/// It takes at most two probes per row of `keep`, one of them a look-up. The rows of `by` are not gone
/// through.
pub fn reduction_by_keyed<L: Ledger>(
    alloc: Global,
    keep: &Relation,
    by: &Keyed,
    steps: &mut Steps<L>,
) -> Result<Option<Relation>, AllocError>
    requires { IsSharedKey by.now keep.now.classes }
    ensures same { IfOk result (λ r. IfNone r (IsSemijoinOf keep.now by.now.relation keep.now)) }
    ensures classes { IfOk result (λ r. IfSome r (λ kept. kept.classes ≡ keep.now.classes)) }
    ensures rows { IfOk result (λ r. IfSome r (IsSemijoinOf keep.now by.now.relation)) }
    ensures fewer { IfOk result (λ r. IfSome r (λ kept. length kept.rows < length keep.now.rows)) }
    ensures cost { steps.new ≤ steps.old + 2 * length keep.now.rows }
    ensures rise { steps.old ≤ steps.new }
{
    let other = Lookup::Keys(by.indexed());
    looked_up(alloc, keep.classes(), keep.table(), by.key(), other, steps)
}

/// The semijoin of a keyed relation by `by`, where it has fewer rows than `keep`; None where it has every row
/// of `keep`, which is then not copied. The key has just the classes that the two share.
///
/// It takes at most as many probes as `reduction`, and at most three per row of `by`: the keys that `by` has
/// are looked up, unless `keep` is so small that going through its rows is less. What was found is noted in
/// `ranges`.
pub fn reduction_of_keyed<L: Ledger>(
    alloc: Global,
    keep: &Keyed,
    by: &Relation,
    ranges: &mut Ranges,
    steps: &mut Steps<L>,
) -> Result<Option<Relation>, AllocError>
    requires { IsSharedKey keep.now by.now.classes }
    ensures same { IfOk result (λ r. IfNone r (IsSemijoinOf keep.now.relation by.now keep.now.relation)) }
    ensures classes { IfOk result (λ r. IfSome r (λ kept. kept.classes ≡ keep.now.relation.classes)) }
    ensures rows { IfOk result (λ r. IfSome r (IsSemijoinOf keep.now.relation by.now)) }
    ensures fewer { IfOk result (λ r. IfSome r (λ kept. length kept.rows < length keep.now.relation.rows)) }
    ensures cost { steps.new ≤ steps.old + 2 * length keep.now.relation.rows + length by.now.rows }
    ensures few { steps.new ≤ steps.old + 3 * length by.now.rows }
    ensures rise { steps.old ≤ steps.new }
{
    let keys = project(alloc, by, keep.key(), steps)?;
    key_reduced(alloc, keep, &keys, ranges, steps)
}

/// The rows of the keyed relation whose keys are rows of the other, where some are not; None where all are.
fn key_reduced<L: Ledger>(
    alloc: Global,
    keep: &Keyed,
    keys: &Relation,
    ranges: &mut Ranges,
    steps: &mut Steps<L>,
) -> Result<Option<Relation>, AllocError>
    requires { keys.now.classes ≡ key_of keep.now }
    ensures same { IfOk result (λ r. IfNone r (IsJoinOf keep.now.relation keys.now keep.now.relation)) }
    ensures classes { IfOk result (λ r. IfSome r (λ kept. kept.classes ≡ keep.now.relation.classes)) }
    ensures rows { IfOk result (λ r. IfSome r (IsJoinOf keep.now.relation keys.now)) }
    ensures fewer { IfOk result (λ r. IfSome r (λ kept. length kept.rows < length keep.now.relation.rows)) }
    ensures cost { steps.new ≤ steps.old + 2 * length keep.now.relation.rows }
    ensures few { steps.new ≤ steps.old + 2 * length keys.now.rows }
    ensures rise { steps.old ≤ steps.new }
{
    let key = keep.key();
    let table = keep.table();
    if table.len() <= keys.table().len() {
        let other = Lookup::Rows(keys.table());
        return looked_up(alloc, keep.classes(), table, key, other, steps);
    }
    match rows_found(alloc, keep.indexed(), keys.table(), ranges, steps)? {
        Some(kept) => Ok(Some(Relation::new(ShortList::from_slice(alloc, keep.classes())?, kept))),
        None => Ok(None),
    }
}
