//! A shelf over the files of the operating system.

use crate::error::Failed;
use crate::shelf::Shelf;
use crate::tries::{counted, open, read};
use std::fs::File;

/// The files of the operating system: a name is a path.
///
/// It tells no files, so it never answers that there is no such file: each opening that is refused is a
/// fault. A call that is interrupted is made up to 1,000 times before it counts as a fault.
#[derive(Drop)]
pub struct FileShelf<'a> {
    runtime: &'a HostRuntime,
    file: Option<File>,
    place: u64,
    faults: u64,
}

impl<'a> FileShelf<'a> {
    ghost use Rattle.std.specs.Prelude.{◌≡◌, None};
    ghost use Rattle.pl_io.specs.FileShelf.{current_of, place_of, faults_of};

    /// A shelf with no file at hand. `runtime` is the one that `main` is given.
    pub fn new(runtime: &'a HostRuntime) -> FileShelf<'a>
        ensures current { current_of result ≡ None }
        ensures place { place_of result ≡ 0 }
        ensures faults { faults_of result ≡ 0 }
    {
        FileShelf {
            runtime,
            file: None,
            place: 0,
            faults: 0,
        }
    }
}

impl Shelf for FileShelf<'_> {
    ghost use Rattle.std.specs.Prelude.{◌≡◌, ◌+◌, ◌^◌, ◌<◌, length, None, IsSome};
    ghost use Rattle.std.specs.Result.{result_unwrap_or};
    ghost use Rattle.std.specs.Io.{ReadsAtMost};
    ghost use Rattle.std.specs.Io.KnownBytes.{ReadConsumes};
    ghost use Rattle.pl_io.specs.Outside.{Begins, HasCause, faults_after};
    ghost use Rattle.pl_io.specs.FileShelf.{seen_of, current_of, place_of, faults_of};

    ghost seen = { seen_of };

    /// It counts a fault exactly where it fails, as where there is no such file.
    fn begin(&mut self, name: &str) -> Result<bool, Failed>
        ensures begins { Begins None name.now (current_of self.new) result }
        ensures place { place_of self.new ≡ 0 }
        ensures cause { HasCause (faults_of self.old) (faults_of self.new) result }
        ensures counts { faults_of self.new ≡ faults_after (faults_of self.old) result }
    {
        self.file = None;
        self.place = 0;
        let file = counted(&mut self.faults, open(self.runtime, name))?;
        self.file = Some(file);
        Ok(true)
    }

    /// It counts a fault exactly where it fails.
    fn read(&mut self, buffer: &mut [u8]) -> Result<usize, Failed>
        requires at_hand { IsSome (current_of self.old) }
        requires room { place_of self.old + length buffer.old < 2 ^ 64 }
        ensures within { ReadsAtMost result buffer.new }
        ensures bytes { ReadConsumes None None result buffer.new }
        ensures place { place_of self.new ≡ place_of self.old + result_unwrap_or result 0 }
        ensures current { current_of self.new ≡ current_of self.old }
        ensures cause { HasCause (faults_of self.old) (faults_of self.new) result }
        ensures counts { faults_of self.new ≡ faults_after (faults_of self.old) result }
    {
        let given = match &mut self.file {
            Some(file) => read(file, buffer),
            None => unreachable!(),
        };
        let count = counted(&mut self.faults, given)?;
        self.place += count as u64;
        Ok(count)
    }
}
