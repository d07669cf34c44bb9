//! What is made.

use pl_task::List;

/// The kind of a made task.
#[derive(Clone, Copy, Debug, PartialEq, Eq)]
pub enum Kind {
    /// A chain of places, each linked to the next and to a drawn one: a shortest path is sought.
    Hop,
    /// One schema with eight parameters over seven relations in a row: one step is applicable among very many
    /// assignments.
    Wide,
}

/// The two files of a made task.
#[derive(Debug, Drop)]
pub struct Made {
    /// The domain, as its file's bytes.
    pub domain: List<u8>,
    /// The problem, as its file's bytes.
    pub problem: List<u8>,
}
