//! Short lists.

use smallvec::SmallVec;

/// A list that mostly has few elements: up to eight of them take no memory of their own.
pub type ShortList<T> = SmallVec<T, 8>;
