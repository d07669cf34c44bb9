//! What a cursor reads of its join beside the tables, as the join keeps it.

ghost use Rattle.pl_cursor.specs.Kept.{IsLayout};

use pl_reduce::laws::reduced_is_whole;
use pl_reduce::{Reduced, Stop};

/// The most classes that a join has.
pub const MOST_CLASSES: usize = 64;

/// The stops of the walk over a join, at which place each class stands, and how many classes there are.
#[derive(Clone, Copy)]
pub struct Layout<'r> {
    pub stops: &'r [Stop],
    pub places: &'r [u8],
    pub width: usize,
}

impl<'r> Layout<'r> {
    /// The layout of a join. It takes no probe.
    pub fn of(reduced: &'r Reduced<'_>) -> Layout<'r>
        ensures { IsLayout reduced.now result }
    {
        reduced_is_whole(reduced);
        let laid = reduced.layout();
        Layout {
            stops: laid.stops(),
            places: laid.places(),
            width: laid.classes().len(),
        }
    }
}
