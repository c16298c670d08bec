ghost use Rattle.std.specs.Prelude.{◌≡◌};

use crate::{Decl, Origin};
use dbpl_base::Name;

/// A name with what it means.
#[cycle(declarations)]
#[derive(Drop)]
pub struct Pair {
    pub name: Name,
    pub decl: Decl,
    pub origin: Origin,
}

impl Pair {
    ghost use Rattle.dbpl_symbols.specs.Interfaces.{is_own as is_own_pair};

    /// Whether it was made where it stands, and not imported.
    pub fn is_own(&self) -> bool
        ensures { result ≡ is_own_pair self.now }
    {
        match self.origin {
            Origin::Declared => true,
            Origin::Imported => false,
        }
    }
}
