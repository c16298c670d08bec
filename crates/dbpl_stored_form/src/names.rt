//! Phrases that are one name.
ghost use Rattle.std.specs.Prelude.{◌≡◌, ◌++◌, IfOk};
ghost use Rattle.dbpl_stored_form.specs.Names as spec;

use dbpl_base::{List, Memory, Name};
use dbpl_tree::{Idents, Qual, TypeTree, has_name};
use std::alloc::Global;

/// A name without that of a module before it.
pub(crate) fn is_plain(qual: &Qual, name: &[u8]) -> bool
    ensures { result ≡ spec.is_plain name.now qual.now }
{
    has_name(&qual.first, name) && qual.second.is_none()
}

/// Whether the type is this name and nothing else.
pub(crate) fn is_type_name(kind: &TypeTree, name: &[u8]) -> bool
    ensures { result ≡ spec.is_type_name name.now kind.now }
{
    match kind {
        TypeTree::Named(qual) => is_plain(qual, name),
        _ => false,
    }
}

/// Puts these names behind those that are there.
pub(crate) fn add_names(
    alloc: Global,
    idents: &Idents,
    names: &mut List<Name>,
) -> Result<(), Memory>
    ensures { IfOk result (λ _. names.new ≡ names.old ++ spec.names_of idents.now) }
{
    names.push(idents.first.name.copy(alloc)?)?;
    for ident in idents.others.as_slice() {
        names.push(ident.name.copy(alloc)?)?;
    }
    Ok(())
}
