//! A place that files are read from, one at a time.

ghost use Rattle.std.specs.Prelude.{◌≡◌, ◌+◌, ◌^◌, ◌<◌, [], ◌∷◌, length, IsSome};
ghost use Rattle.std.specs.Result.{result_unwrap_or};
ghost use Rattle.std.specs.Io.{ReadsAtMost};
ghost use Rattle.std.specs.Io.KnownBytes.{ReadConsumes};
ghost use Rattle.pl_io.specs.Outside.{ShelfSeen, Begins, BegunThen, HasCause, left_in};

use crate::error::Failed;

/// A place that files are read from, one at a time, from the front.
///
/// A shelf in memory tells its files, and then a clause says which bytes a read gives. One over the operating
/// system tells none, and its clauses are about counts alone.
pub trait Shelf {
    /// What the shelf tells of itself: its files, the file at hand, the bytes given of it, the names begun,
    /// and how many calls failed.
    ghost seen: { Self → ShelfSeen };

    /// Takes the file of that name to hand, at its first byte.
    ///
    /// It answers false only where the shelf tells its files and none has the name; a shelf that can't know
    /// fails instead. After false, and after a failure, no file is at hand.
    fn begin(&mut self, name: &str) -> Result<bool, Failed>
        ensures begins { Begins (seen self.old).files name.now (seen self.new).current result }
        ensures place { (seen self.new).place ≡ 0 }
        ensures files { (seen self.new).files ≡ (seen self.old).files }
        ensures begun { BegunThen (seen self.old).begun (name.now ∷ []) (seen self.new).begun }
        ensures cause { HasCause (seen self.old).faults (seen self.new).faults result };

    /// Gives the next bytes of the file at hand at the front of `buffer`, and says how many.
    ///
    /// It gives fewer than there is room for at any time, and none only at the file's end or into an empty
    /// buffer. After a failure nothing was given, and the file is still at hand.
    fn read(&mut self, buffer: &mut [u8]) -> Result<usize, Failed>
        requires at_hand { IsSome (seen self.old).current }
        requires room { (seen self.old).place + length buffer.old < 2 ^ 64 }
        ensures within { ReadsAtMost result buffer.new }
        ensures bytes { ReadConsumes (left_in (seen self.old)) (left_in (seen self.new)) result buffer.new }
        ensures place { (seen self.new).place ≡ (seen self.old).place + result_unwrap_or result 0 }
        ensures files { (seen self.new).files ≡ (seen self.old).files }
        ensures current { (seen self.new).current ≡ (seen self.old).current }
        ensures begun { (seen self.new).begun ≡ (seen self.old).begun }
        ensures cause { HasCause (seen self.old).faults (seen self.new).faults result };
}
