//! Places of neighboring rows.

/// The places of neighboring rows: from the first one up to, and without, the last one.
#[derive(Clone, Copy, Debug, PartialEq, Eq)]
pub struct Range {
    pub from: usize,
    pub to: usize,
}
