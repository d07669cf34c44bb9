//! What the values of a row are looked up in.

ghost use Rattle.std.specs.Prelude.{◌≡◌, ◌↔◌, ◌+◌, length, Contains, IsTrue};
ghost use Rattle.pl_join.specs.Lookup.{keys_of, key_width};

use pl_rows::{Indexed, Table};
use pl_steps::Steps;
use std::sync::ledger::Ledger;

/// Where values are looked up: among the rows of a table, or among the keys of an index.
#[derive(Clone, Copy)]
pub enum Lookup<'a> {
    /// Among the rows of a table.
    Rows(&'a Table),
    /// Among the first values of the rows of an index, as many as its keys have.
    Keys(&'a Indexed),
}

/// Whether the values are there, in one probe.
///
/// In a table they are looked for from the row `near` on, which may be any, and which is then the place of
/// where they stand or would stand. So values that come in order are found in few comparisons each.
#[inline]
pub fn is_there<L: Ledger>(
    lookup: Lookup<'_>,
    values: &[u32],
    near: &mut usize,
    steps: &mut Steps<L>,
) -> bool
    requires { length values.now ≡ key_width lookup }
    ensures has { IsTrue result ↔ Contains (keys_of lookup.entry) values.now }
    ensures cost { steps.new ≡ steps.old + 1 }
{
    match lookup {
        Lookup::Rows(table) => table.has_near(values, near, steps),
        Lookup::Keys(index) => index.has(values, steps),
    }
}
