//! What a prepared state has of a schema.

use pl_reduce::Reduced;

/// What the applicable steps of a schema are read from in a state.
#[derive(Clone, Copy)]
pub enum View<'p> {
    /// A guard is false, so no step of the schema is applicable.
    Never,
    /// All guards hold and there is no edge: one step is applicable.
    Always,
    /// The reduced tables of the edges and local filters, node by node along the schema's ears.
    Tables(&'p Reduced<'p>),
}
