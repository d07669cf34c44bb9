//! A file in memory.

ghost use Rattle.std.specs.Prelude.{◌≡◌, List, ℕ, bytes_eq};
ghost use Rattle.pl_io.specs.Places.{first_place};

use std::marker::Model;

/// A file in memory: clauses see it as its name and its bytes.
#[derive(Drop)]
pub struct NamedFile {
    /// The name that it is begun by.
    pub name: Vec<u8>,
    /// What a reading of it gives.
    pub bytes: Vec<u8>,
}

impl Model for NamedFile {
    ghost Value = { List ℕ × List ℕ };

    ghost view = { λ f. (f.name.items, f.bytes.items) };
}

impl NamedFile {
    /// Whether it has that name.
    pub(crate) fn has_name(&self, name: &[u8]) -> bool
        ensures { result ≡ bytes_eq self.now.0 name.now }
    {
        self.name.as_slice() == name
    }

    /// Its bytes.
    pub(crate) fn content(&self) -> &[u8]
        ensures { result.now ≡ self.now.1 }
    {
        self.bytes.as_slice()
    }
}

/// The place of the first file of that name.
pub(crate) fn place_of_name(files: &[NamedFile], name: &[u8]) -> Option<usize>
    ensures { result ≡ first_place files.now name.now }
{
    files.iter().position(|file| file.has_name(name))
}
