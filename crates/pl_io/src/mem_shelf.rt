//! A shelf in memory, for tests: its files are told, and its failures are chosen.

ghost use Rattle.std.specs.Prelude.{◌≤◌};
ghost use Rattle.std.specs.Option.{ForSome};
ghost use Rattle.pl_io.specs.Places.{IsFirstOfItsName};

use crate::begun::Begun;
use crate::error::Failed;
use crate::named_file::{NamedFile, place_of_name};
use crate::numbered::Numbered;
use crate::shelf::Shelf;

/// A shelf that keeps its files in memory, and fails at the calls that it is told to fail at.
///
/// Calls of `begin` and `read` are numbered together from 1. It tells which names were begun as long as there
/// is memory to note them.
#[derive(Drop)]
pub struct MemShelf {
    files: Vec<NamedFile>,
    begun: Begun,
    numbered: Numbered,
    piece: usize,
    faults: u64,
    current: Option<usize>,
    place: usize,
    ghost some: { 1 ≤ piece },
    ghost first: { ForSome current (λ i. IsFirstOfItsName files.items i) },
}

impl MemShelf {
    ghost use Rattle.std.specs.Prelude.{◌≡◌, ◌↔◌, ◌^◌, ◌<◌, IsTrue, [], Contains, None, Some, IsSome};
    ghost use Rattle.std.specs.Prelude.{if◌then◌else◌};
    ghost use Rattle.pl_io.specs.Outside.{left_of};
    ghost use Rattle.pl_io.specs.Numbered.{next_number};
    ghost use Rattle.pl_io.specs.MemShelf.{files_of, current_of, place_of, begun_of, faults_of, calls_of};
    ghost use Rattle.pl_io.specs.MemShelf.{failing_of, piece_of};

    /// A shelf of these files, of which the first of a name counts.
    ///
    /// The calls whose numbers are in `failing` fail, and a read gives at most `piece` bytes.
    pub fn new(files: Vec<NamedFile>, failing: Vec<u64>, piece: usize) -> MemShelf
        requires { 1 ≤ piece }
        ensures files { files_of result ≡ files.items }
        ensures failing { failing_of result ≡ failing.items }
        ensures piece { piece_of result ≡ piece }
        ensures current { current_of result ≡ None }
        ensures place { place_of result ≡ 0 }
        ensures begun { begun_of result ≡ Some [] }
        ensures calls { calls_of result ≡ 0 }
        ensures faults { faults_of result ≡ 0 }
    {
        let begun = Begun::new(*files.allocator());
        MemShelf {
            files,
            begun,
            numbered: Numbered::new(failing),
            piece,
            faults: 0,
            current: None,
            place: 0,
        }
    }

    /// Numbers a call, and where it is to fail counts a fault.
    fn fails(&mut self) -> bool
        ensures fails { IsTrue result ↔ Contains (failing_of self.new) (calls_of self.new) }
        ensures calls { calls_of self.new ≡ next_number (calls_of self.old) }
        ensures faults { faults_of self.new ≡ (if result then next_number (faults_of self.old)
            else faults_of self.old) }
        ensures later { faults_of self.old ≤ faults_of self.new }
        ensures same { self.new ≡ record self.old { numbered = self.new.numbered; faults = self.new.faults } }
        ensures failing { failing_of self.new ≡ failing_of self.old }
    {
        let fails = self.numbered.next_fails();
        if fails {
            self.faults = self.faults.saturating_add(1);
        }
        fails
    }

    /// What the file at hand has left.
    fn left(&self) -> &[u8]
        requires { IsSome (current_of self.now) }
        ensures { left_of (Some (files_of self.now)) (current_of self.now)
            (place_of self.now) ≡ Some result.now }
    {
        match self.current {
            Some(i) => {
                let bytes = self.files[i].content();
                &bytes[self.place.min(bytes.len())..]
            }
            None => unreachable!(),
        }
    }
}

impl Shelf for MemShelf {
    ghost use Rattle.std.specs.Prelude.{◌≡◌, ◌+◌, ◌↔◌, ◌^◌, ◌<◌, [], ◌∷◌, length, min, Contains, Some};
    ghost use Rattle.std.specs.Prelude.{is_some, IsErr, IsSome, IfOk, IsSomeAnd};
    ghost use Rattle.std.specs.Result.{result_unwrap_or};
    ghost use Rattle.std.specs.Io.{ReadsAtMost};
    ghost use Rattle.std.specs.Io.KnownBytes.{ReadConsumes};
    ghost use Rattle.pl_io.specs.Outside.{Begins, BegunThen, HasCause, faults_after, content_of, left_of};
    ghost use Rattle.pl_io.specs.Numbered.{next_number};
    ghost use Rattle.pl_io.specs.MemShelf.{seen_of, files_of, current_of, place_of, begun_of, faults_of};
    ghost use Rattle.pl_io.specs.MemShelf.{calls_of, failing_of, piece_of, SameScript};

    ghost seen = { seen_of };

    /// It fails exactly where the call's number is among those that fail, and else answers whether there is
    /// such a file.
    #[tactic(auto, using(crate::proofs::Places::by_place))]
    fn begin(&mut self, name: &str) -> Result<bool, Failed>
        ensures begins { Begins (Some (files_of self.old)) name.now (current_of self.new) result }
        ensures place { place_of self.new ≡ 0 }
        ensures files { files_of self.new ≡ files_of self.old }
        ensures begun { BegunThen (begun_of self.old) (name.now ∷ []) (begun_of self.new) }
        ensures cause { HasCause (faults_of self.old) (faults_of self.new) result }

        ensures fails { IsErr result ↔ Contains (failing_of self.old) (next_number (calls_of self.old)) }
        ensures answer { IfOk result (λ found. found ≡ is_some (content_of (files_of self.old) name.now)) }
        ensures counts { faults_of self.new ≡ faults_after (faults_of self.old) result }
        ensures calls { calls_of self.new ≡ next_number (calls_of self.old) }
        ensures script { SameScript self.old self.new }
    {
        self.begun.note(name.as_bytes());
        self.current = None;
        self.place = 0;
        if self.fails() {
            return Err(Failed);
        }
        self.current = place_of_name(self.files.as_slice(), name.as_bytes());
        Ok(self.current.is_some())
    }

    /// It fails exactly where the call's number is among those that fail, and else gives as many bytes as the
    /// file has left, the buffer has room for and a read gives at most.
    fn read(&mut self, buffer: &mut [u8]) -> Result<usize, Failed>
        requires at_hand { IsSome (current_of self.old) }
        requires room { place_of self.old + length buffer.old < 2 ^ 64 }
        ensures within { ReadsAtMost result buffer.new }
        ensures bytes { ReadConsumes (left_of (Some (files_of self.old))
            (current_of self.old) (place_of self.old))
            (left_of (Some (files_of self.new)) (current_of self.new) (place_of self.new)) result buffer.new }
        ensures place { place_of self.new ≡ place_of self.old + result_unwrap_or result 0 }
        ensures files { files_of self.new ≡ files_of self.old }
        ensures current { current_of self.new ≡ current_of self.old }
        ensures begun { begun_of self.new ≡ begun_of self.old }
        ensures cause { HasCause (faults_of self.old) (faults_of self.new) result }

        ensures fails { IsErr result ↔ Contains (failing_of self.old) (next_number (calls_of self.old)) }
        ensures amount { IfOk result (λ count. IsSomeAnd
            (left_of (Some (files_of self.old)) (current_of self.old) (place_of self.old))
            (λ left. count ≡ min (piece_of self.old) (min (length buffer.old) (length left)))) }
        ensures counts { faults_of self.new ≡ faults_after (faults_of self.old) result }
        ensures calls { calls_of self.new ≡ next_number (calls_of self.old) }
        ensures script { SameScript self.old self.new }
    {
        if self.fails() {
            return Err(Failed);
        }
        let left = self.left();
        let count = self.piece.min(buffer.len().min(left.len()));
        buffer[..count].copy_from_slice(&left[..count]);
        self.place += count;
        Ok(count)
    }
}
