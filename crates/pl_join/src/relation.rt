//! A relation: what callers read.

ghost use Rattle.std.specs.Prelude.{◌≡◌, ◌<◌, [], length, All, IfOk};
ghost use Rattle.pl_rows.specs.Rows.{AreRows};
ghost use Rattle.pl_join.specs.Relation.{AreDistinct, IsRelation};

use crate::short_list::ShortList;
use pl_rows::Table;
use std::alloc::{AllocError, Global};
use std::marker::Model;

/// A set of assignments of values to classes: distinct classes below 64, and a table with one column for each
/// of them.
///
/// Two relations with the same classes in the same order that hold the same assignments are the same
/// (`laws::one_relation_for_a_set`).
#[derive(Drop)]
pub struct Relation {
    classes: ShortList<u32>,
    table: Table,
}

impl Model for Relation {
    ghost use Rattle.std.specs.Prelude.{◌≡◌, length};
    ghost use Rattle.pl_join.specs.Relation.{ClassRows};
    ghost use Rattle.pl_join.specs.Source.{IsKept};

    ghost Value = { ClassRows };

    ghost view = { λ r. record { classes = r.classes.items; rows = r.table.rows } };

    ghost invariant = { λ r. IsKept r.classes.items r.table };
}

impl Relation {
    /// The relation of these classes and rows.
    pub(crate) fn new(classes: ShortList<u32>, table: Table) -> Relation
        requires arity { table.arity ≡ length classes.items }
        requires distinct { AreDistinct classes.items }
        requires below { All (λ c. c < 64) classes.items }
        requires rows { AreRows (length classes.items) table.rows }
        ensures { result ≡ record { classes = classes.items; rows = table.rows } }
    {
        Relation { classes, table }
    }

    /// The classes, in the order of the table's columns.
    pub fn classes(&self) -> &[u32]
        ensures classes { result.now ≡ self.now.classes }
        ensures relation { IsRelation self.now }
    {
        self.classes.as_slice()
    }

    /// The rows: one value for each class, in the order of the classes.
    pub fn table(&self) -> &Table
        ensures { result.now ≡ record { arity = length self.now.classes; rows = self.now.rows } }
    {
        &self.table
    }

    /// A copy of the relation. It takes no probe. The only error is want of memory.
    pub fn copied(&self, alloc: Global) -> Result<Relation, AllocError>
        ensures { IfOk result (λ r. r ≡ self.now) }
    {
        let classes = ShortList::from_slice(alloc, self.classes.as_slice())?;
        let table = self.table.copied(alloc)?;
        Ok(Relation { classes, table })
    }

    /// The relation over the same classes that has no row. It takes no probe. The only error is want of
    /// memory.
    pub fn emptied(&self, alloc: Global) -> Result<Relation, AllocError>
        ensures { IfOk result (λ r. r ≡ record { classes = self.now.classes; rows = [] }) }
    {
        let classes = ShortList::from_slice(alloc, self.classes.as_slice())?;
        let table = Table::from_ascending(self.table.arity(), 0, Vec::new(alloc));
        Ok(Relation { classes, table })
    }

    /// The table, without the classes.
    pub fn into_table(self) -> Table
        ensures { result ≡ record { arity = length self.classes; rows = self.rows } }
    {
        self.table
    }
}
