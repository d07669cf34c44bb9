//! One step of the removal of ears.

/// An ear that was removed, and the edge that served it.
///
/// The parent holds every class that the edge shared with the edges that were left at that moment. So where
/// the removal leaves one edge, the parents make a join tree with that edge as its root.
#[derive(Clone, Copy, Debug, PartialEq, Eq)]
pub struct Ear {
    /// The number of the removed edge, from 0.
    pub edge: u32,
    /// The number of the edge that served it, which is removed later or stays in the core.
    pub parent: u32,
}
