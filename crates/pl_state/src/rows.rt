//! Rows that are lent out of a state's words.

/// Rows that lie one after another in a state's words: no copy, and no longer there than the state.
///
/// They ascend lexicographically, each once.
#[derive(Clone, Copy, Debug)]
pub struct Rows<'a> {
    /// How many rows there are. Of no values each, there is at most one.
    pub count: usize,
    /// The values of the first row, then those of the second, and so on.
    pub flat: &'a [u32],
}
