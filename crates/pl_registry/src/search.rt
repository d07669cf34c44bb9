//! The searches.

/// How states are expanded and which are left out.
#[derive(Clone, Copy, Debug, PartialEq, Eq)]
pub enum Search {
    /// Breadth-first: in the order of their numbers. States that are cut are left out.
    Bfs,
    /// Greedy best-first: by the number of unmet goal literals, then by number. States that are cut are left
    /// out.
    Gbfs,
    /// In the order of their numbers, leaving out those that have no new atom (Lipovetzky and Geffner 2012).
    Iw1,
    /// The same with no new pair of atoms.
    Iw2,
}
