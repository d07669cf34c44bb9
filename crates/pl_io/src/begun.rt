//! The names that a shelf in memory was asked for.

ghost use Rattle.std.specs.Prelude.{◌≡◌, [], ◌∷◌, ◌++◌, map, Some, IfOk};
ghost use Rattle.pl_io.specs.Outside.{BegunThen};
ghost use Rattle.pl_io.specs.Begun.{names_in};

use std::alloc::{AllocError, Global};

/// The names in their order, as long as there was memory to note them.
#[derive(Drop)]
pub struct Begun {
    names: Option<Vec<Vec<u8>>>,
}

impl Begun {
    /// No name. It keeps the allocator for the names to come, and takes no memory.
    pub fn new(alloc: Global) -> Begun
        ensures { names_in result ≡ Some [] }
    {
        Begun {
            names: Some(Vec::new(alloc)),
        }
    }

    /// Notes a name. Where there is no memory for it, no names are told from then on.
    pub fn note(&mut self, name: &[u8])
        ensures { BegunThen (names_in self.old) (name.now ∷ []) (names_in self.new) }
    {
        self.names = match self.names.take() {
            Some(names) => with_name(names, name).ok(),
            None => None,
        };
    }
}

/// The names, and that one behind them.
fn with_name(names: Vec<Vec<u8>>, name: &[u8]) -> Result<Vec<Vec<u8>>, AllocError>
    ensures { IfOk result (λ more.
        map (λ n. n.items) more.items ≡ map (λ n. n.items) names.items ++ name.now ∷ []) }
{
    let mut more = names;
    let alloc = *more.allocator();
    more.push(Vec::from_slice(alloc, name)?)?;
    Ok(more)
}
