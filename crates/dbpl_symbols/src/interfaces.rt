//! What a unit shows to others.
ghost use Rattle.std.specs.Prelude.{◌≡◌, IfOk};
ghost use Rattle.std.specs.Option.{option_copied};
ghost use Rattle.dbpl_symbols.specs.Interfaces.{interface_of, shown};

use crate::{Decl, Exports, Scope};
use dbpl_base::{Memory, Name, Shared};
use std::alloc::Global;

/// The interface of the unit of this name, at the end of its text: the declarations of the last level that were made there.
pub fn interface(alloc: Global, unit: &Shared<Name>, scope: &Scope) -> Result<Exports, Memory>
    ensures { IfOk result (λ exports. exports ≡ interface_of unit.now scope.now) }
{
    let pairs = scope.own_pairs(alloc)?;
    let module = unit.share()?;
    Ok(Exports { module, pairs })
}

/// What the name means behind the unit's name, and none exactly where the unit hasn't declared it.
pub fn exported<'a>(exports: &'a Exports, name: &Name) -> Option<&'a Decl>
    ensures { option_copied result ≡ shown name.now exports.now }
{
    match exports
        .pairs
        .as_slice()
        .iter()
        .rev()
        .find(|pair| pair.name.is(name.as_bytes()))
    {
        Some(pair) => Some(&pair.decl),
        None => None,
    }
}
