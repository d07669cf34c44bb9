//! The reduced relations as nodes: each with an index of its key.

ghost use Rattle.std.specs.Prelude.{◌≡◌, ◌==◌, ◌+◌, ◌<◌, ◌≤◌, ℕ, [], None, Some, length, filter, All, IfOk};
ghost use Rattle.std.specs.Int.{bit_at};
ghost use Rattle.pl_join.specs.Relation.{IsRelation};
ghost use Rattle.pl_join.specs.Keyed.{KeyedRows};
ghost use Rattle.pl_reduce.specs.Recipes.{chosen};
ghost use Rattle.pl_reduce.specs.Lent.{keyed_at, lent_of, nodes_with, option_rows, own_rows, AreThere};
ghost use Rattle.pl_reduce.specs.Arranged.{key_width, node_for};
ghost use Rattle.pl_reduce.specs.Kept.{node_of, AreStored};

use crate::pairs::lent_at;
use crate::reduced::Stored;
use pl_hyper::Ear;
use pl_join::laws::keyed_is_a_relation;
use pl_join::{Keyed, Relation};
use pl_steps::Steps;
use std::alloc::{AllocError, Global};
use std::sync::ledger::Ledger;

/// The relations as nodes, each indexed by the classes that it shares with its ear's parent. A node that has
/// none of its own is lent.
pub fn store_all<'r, L: Ledger>(
    alloc: Global,
    lent: &'r [Option<Keyed>],
    own: Vec<Option<Relation>>,
    edges: &[u64],
    ears: &[Ear],
    steps: &mut Steps<L>,
) -> Result<Vec<Stored<'r>>, AllocError>
    requires few { length own.items ≤ length ears.now + 1 }
    requires parents { All (λ ear. ear.parent < length edges.now) ears.now }
    requires there { AreThere lent.now own.items }
    requires widths { (k : ℕ) (q : KeyedRows) → keyed_at lent.now k ≡ Some q
        → q.width ≡ key_width (record { edges = edges.now; removed = ears.now; core = [] }) k
        q.relation.classes }
    ensures stored { IfOk result (λ stored. AreStored
        (record { edges = edges.now; removed = ears.now; core = [] })
        (nodes_with lent.now own.items) stored.items) }
    ensures cost { steps.new ≤ steps.old + own_rows own.items }
    ensures rise { steps.old ≤ steps.new }
{
    let mut nodes = Vec::with_capacity(alloc, own.len())?;
    for relation in own {
        let node = store(alloc, lent, relation, nodes.len(), edges, ears, steps)?;
        nodes.push(node)?;
    }
    Ok(nodes)
}

/// The relation of one node, its own or the lent one.
fn store<'r, L: Ledger>(
    alloc: Global,
    lent: &'r [Option<Keyed>],
    relation: Option<Relation>,
    node: usize,
    edges: &[u64],
    ears: &[Ear],
    steps: &mut Steps<L>,
) -> Result<Stored<'r>, AllocError>
    requires within { node ≤ length ears.now }
    requires parents { All (λ ear. ear.parent < length edges.now) ears.now }
    requires there { relation ≡ None → (q : KeyedRows) × (keyed_at lent.now node ≡ Some q) }
    requires width { (q : KeyedRows) → keyed_at lent.now node ≡ Some q
        → q.width ≡ key_width (record { edges = edges.now; removed = ears.now; core = [] }) node
        q.relation.classes }
    ensures stored { IfOk result (λ s. node_of s
        ≡ node_for (record { edges = edges.now; removed = ears.now; core = [] }) node
        (chosen relation (lent_of (keyed_at lent.now node)))) }
    ensures relation { IfOk result (λ s. IsRelation (chosen relation (lent_of (keyed_at lent.now node)))) }
    ensures cost { steps.new ≤ steps.old + option_rows relation }
    ensures rise { steps.old ≤ steps.new }
{
    let Some(relation) = relation else {
        let lent = lent_at(lent, node);
        keyed_is_a_relation(lent);
        return Ok(Stored::Lent(lent));
    };
    Ok(Stored::Own(key(alloc, relation, node, edges, ears, steps)?))
}

/// The relation, keyed by the classes that a node shares with its ear's parent.
pub fn key<L: Ledger>(
    alloc: Global,
    relation: Relation,
    node: usize,
    edges: &[u64],
    ears: &[Ear],
    steps: &mut Steps<L>,
) -> Result<Keyed, AllocError>
    requires within { node ≤ length ears.now }
    requires parents { All (λ ear. ear.parent < length edges.now) ears.now }
    ensures keyed { IfOk result (λ k. k ≡ record {
      relation = relation;
      width = key_width (record { edges = edges.now; removed = ears.now; core = [] }) node relation.classes;
    }) }
    ensures relation { IsRelation relation }
    ensures cost { steps.new ≤ steps.old + length relation.rows }
    ensures rise { steps.old ≤ steps.new }
{
    let width = width_of(edges, ears, node, relation.classes());
    Keyed::of(alloc, relation, width, steps)
}

/// How many of a node's classes its ear's parent holds; the root has no parent.
pub fn width_of(edges: &[u64], ears: &[Ear], node: usize, classes: &[u32]) -> u32
    requires few { length classes.now ≤ 64 }
    requires below { All (λ c. c < 64) classes.now }
    requires within { node ≤ length ears.now }
    requires parents { All (λ ear. ear.parent < length edges.now) ears.now }
    ensures width { result
        ≡ key_width (record { edges = edges.now; removed = ears.now; core = [] }) node classes.now }
    ensures most { result ≤ length classes.now }
{
    if node == 0 {
        return 0;
    }
    let parent = ears[node - 1].parent;
    held_count(edges[parent as usize], classes)
}

/// How many of the classes the edge holds.
fn held_count(edge: u64, classes: &[u32]) -> u32
    requires few { length classes.now ≤ 64 }
    requires below { All (λ c. c < 64) classes.now }
    ensures count { result ≡ length (filter (λ c. bit_at edge c == 1) classes.now) }
    ensures most { result ≤ length classes.now }
{
    let mut count = 0;
    for class in classes {
        if edge >> *class & 1 == 1 {
            count += 1;
        }
    }
    count
}
