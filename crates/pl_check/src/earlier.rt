//! Names that stood before.

ghost use Rattle.std.specs.Prelude.{◌≡◌, bytes_eq, take};
ghost use Rattle.std.specs.List.{list_any};

use pl_names::Names;

/// Whether the name stands before this place of a list.
pub fn stands_before(names: &Names<'_>, name: &[u8], place: usize) -> bool
    ensures { result ≡ list_any (bytes_eq name.now) (take place names.now) }
{
    match names.find(name) {
        Some(first) => (first as usize) < place,
        None => false,
    }
}
