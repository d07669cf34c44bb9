//! What stands at a place of an atom.

/// What stands at a place of an atom: a value, or a class whose value an assignment gives.
#[derive(Clone, Copy, Debug, PartialEq, Eq)]
pub enum Slot {
    /// Always this value.
    Fixed(u32),
    /// The value of this class.
    Class(u32),
}
