//! The full reducer.

ghost use Rattle.std.specs.Prelude.{◌≡◌, ◌+◌, ◌-◌, ◌*◌, ◌<◌, ◌≤◌, ◌∷◌, [], ℕ, Some, length, map};
ghost use Rattle.std.specs.Prelude.{All, Contains, IfOk};
ghost use Rattle.pl_join.specs.Relation.{ClassRows, AreDistinct};
ghost use Rattle.pl_join.specs.Keyed.{KeyedRows};
ghost use Rattle.pl_hyper.specs.ClassOrder.{class_order};
ghost use Rattle.pl_reduce.specs.Recipes.{AreGiven, option_at, relations_with};
ghost use Rattle.pl_reduce.specs.Plan.{AreOverPlan, AreColumns};
ghost use Rattle.pl_reduce.specs.Passes.{AreParents, total_rows};
ghost use Rattle.pl_reduce.specs.Lent.{keyed_at, nodes_with, AreThere, AreLent};
ghost use Rattle.pl_reduce.specs.Arranged.{key_width, AreArrangedBelow};
ghost use Rattle.pl_reduce.specs.Runs.{IsRun};
ghost use Rattle.pl_reduce.specs.Reduced.{IsReductionOf};

use crate::arranging::arrange_all;
use crate::passes::reduce_all;
use crate::planned::planned;
use crate::recipe::Recipe;
use crate::reduced::{Reduced, Stored, StoredLayout};
use crate::storing::store_all;
use pl_hyper::{Ear, EarPlan};
use pl_join::{Keyed, Relation};
use pl_steps::Steps;
use std::alloc::{AllocError, Global};
use std::sync::ledger::Ledger;

impl<'r> Reduced<'r> {
    /// Reduces the relations of a join to the rows that are in its answers, by semijoins along a removal of
    /// ears.
    ///
    /// `root` is over the classes of the core's edges, in class order, and `rest[i]` over those of the edge
    /// of the `i`-th removed ear, in any order. This is the first half of Yannakakis's algorithm (1981):
    /// semijoins from the ears to the root, in the order of their removal, and back. No pass copies a table
    /// from which it drops no row.
    ///
    /// It takes at most `(3 * n - 1) * R` probes for `n` relations of `R` rows together. The only error is
    /// want of memory.
    pub fn reduce<L: Ledger>(
        alloc: Global,
        root: Relation,
        rest: Vec<Relation>,
        plan: &EarPlan,
        steps: &mut Steps<L>,
    ) -> Result<Reduced<'r>, AllocError>
        requires { AreOverPlan plan.now root rest.items }
        ensures classes { IfOk result (λ r. r.classes ≡ class_order plan.now) }
        ensures columns { IfOk result (λ r. AreColumns plan.now r.nodes) }
        ensures reduction { IfOk result (IsReductionOf (root ∷ rest.items)) }
        ensures cost { steps.new ≤ steps.old
            + (3 * (length rest.items + 1) - 1) * total_rows (root ∷ rest.items) }
        ensures rise { steps.old ≤ steps.new }
    {
        let (layout, parents) = planned(alloc, plan)?;
        let own = given_all(alloc, root, rest)?;
        let nodes = reduce_nodes(
            alloc,
            plan.edges(),
            plan.removed(),
            layout.classes(),
            &parents,
            &[],
            &[],
            own,
            steps,
        )?;
        Ok(Reduced::new(StoredLayout::Own(layout), nodes))
    }

    /// Reduces a join with fixed relations to the rows that are in its answers, as `reduce` does.
    ///
    /// `given` has a relation for each node that the recipe has no fixed one for, over the node's classes:
    /// those of the root in class order, those of an ear in any order. Rows of fixed relations are looked up
    /// by the given ones, and fixed relations aren't reduced by each other again. One that loses no row is
    /// lent from the recipe, and not copied.
    ///
    /// It takes at most the probes that `reduce` takes for the fixed and the given relations together. The
    /// only error is want of memory.
    pub fn reduce_with<L: Ledger>(
        alloc: Global,
        recipe: &'r Recipe,
        given: Vec<Option<Relation>>,
        steps: &mut Steps<L>,
    ) -> Result<Reduced<'r>, AllocError>
        requires { AreGiven recipe.now given.items }
        ensures classes { IfOk result (λ r. r.classes ≡ class_order recipe.now.plan) }
        ensures columns { IfOk result (λ r. AreColumns recipe.now.plan r.nodes) }
        ensures reduction { IfOk result (IsReductionOf (relations_with recipe.now.fixed given.items)) }
        ensures cost { steps.new ≤ steps.old + (3 * length given.items - 1)
            * total_rows (relations_with recipe.now.fixed given.items) }
        ensures rise { steps.old ≤ steps.new }
    {
        let shape = recipe.shape();
        let nodes = reduce_nodes(
            alloc,
            shape.edges,
            shape.ears,
            shape.classes,
            shape.parents,
            shape.lent,
            shape.turned,
            given,
            steps,
        )?;
        Ok(Reduced::new(StoredLayout::Lent(shape.layout), nodes))
    }
}

/// All relations as given ones.
fn given_all(
    alloc: Global,
    root: Relation,
    rest: Vec<Relation>,
) -> Result<Vec<Option<Relation>>, AllocError>
    ensures { IfOk result (λ own. own.items ≡ map Some (root ∷ rest.items)) }
{
    let mut own = Vec::with_capacity(alloc, rest.len() + 1)?;
    own.push(Some(root))?;
    for relation in rest {
        own.push(Some(relation))?;
    }
    Ok(own)
}

/// The nodes of the reduced join, of its own relations and those that are lent.
pub fn reduce_nodes<'r, L: Ledger>(
    alloc: Global,
    edges: &[u64],
    ears: &[Ear],
    classes: &[u32],
    parents: &[usize],
    lent: &'r [Option<Keyed>],
    turned: &[Option<Keyed>],
    own: Vec<Option<Relation>>,
    steps: &mut Steps<L>,
) -> Result<Vec<Stored<'r>>, AllocError>
    requires filled { 0 < length own.items }
    requires few { length own.items ≤ length ears.now + 1 }
    requires many { length parents.now ≡ length own.items }
    requires distinct { AreDistinct classes.now }
    requires held { (k : ℕ) (r : ClassRows) → 0 < k → option_at own.items k ≡ Some r
        → All (Contains classes.now) r.classes }
    requires parents { (arranged : _) → AreArrangedBelow classes.now own.items arranged (length own.items)
        → AreParents parents.now (nodes_with lent.now arranged) }
    requires there { AreThere lent.now own.items }
    requires lent { AreLent parents.now lent.now turned.now }
    requires edges { All (λ ear. ear.parent < length edges.now) ears.now }
    requires widths { (k : ℕ) (q : KeyedRows) → keyed_at lent.now k ≡ Some q
        → q.width ≡ key_width (record { edges = edges.now; removed = ears.now; core = [] }) k
        q.relation.classes }
    ensures run { IfOk result (λ stored. IsRun (record { edges = edges.now; removed = ears.now; core = [] })
        classes.now lent.now own.items stored.items) }
    ensures cost { steps.new ≤ steps.old
        + (3 * length own.items - 1) * total_rows (nodes_with lent.now own.items) }
    ensures rise { steps.old ≤ steps.new }
{
    let mut own = own;
    arrange_all(alloc, &mut own, classes, steps)?;
    reduce_all(alloc, lent, turned, &mut own, parents, steps)?;
    store_all(alloc, lent, own, edges, ears, steps)
}
