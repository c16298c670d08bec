//! What a program imports.
ghost use Rattle.std.specs.Prelude.{◌≡◌, ◌∷◌, IfOk};
ghost use Rattle.std.specs.List.{list_all, list_any};
ghost use Rattle.dbpl_stored_form.specs.Imports as spec;
ghost use Rattle.dbpl_stored_form.specs.Names.{names_of};
ghost use Rattle.dbpl_tree.specs.Plain.{has_name as has_name_of};

use crate::Schema;
use crate::names::add_names;
use dbpl_base::{List, Memory, Name};
use dbpl_tree::{Ident, Idents, Import, has_name};
use std::alloc::Global;

fn is_one_of(idents: &[Ident], name: &[u8]) -> bool
    ensures { result ≡ list_any (has_name_of name.now) idents.now }
{
    idents.iter().any(|ident| has_name(ident, name))
}

fn stands_in(idents: &Idents, name: &[u8]) -> bool
    ensures { result ≡ list_any (has_name_of name.now) (idents.now.first ∷ idents.now.others) }
{
    has_name(&idents.first, name) || is_one_of(idents.others.as_slice(), name)
}

/// Whether the import brings this name of this module.
fn brings(import: &Import, unit: &[u8], name: &[u8]) -> bool
    ensures { result ≡ spec.brings unit.now name.now import.now }
{
    match import {
        Import::From(_, from, names) => has_name(from, unit) && stands_in(names, name),
        Import::Whole(_, _) => false,
    }
}

pub(crate) fn is_imported(imports: &[Import], unit: &[u8], name: &[u8]) -> bool
    ensures { result ≡ spec.is_imported unit.now name.now imports.now }
{
    imports.iter().any(|import| brings(import, unit, name))
}

/// A name that the database module declares.
fn is_declared(schema: &Schema, ident: &Ident) -> bool
    ensures { result ≡ spec.is_declared schema.now ident.now }
{
    has_name(ident, schema.element.as_bytes())
        || has_name(ident, schema.relation.as_bytes())
        || has_name(ident, schema.variable.as_bytes())
}

fn is_each_declared(schema: &Schema, idents: &[Ident]) -> bool
    ensures { result ≡ list_all (spec.is_declared schema.now) idents.now }
{
    idents.iter().all(|ident| is_declared(schema, ident))
}

fn are_declared(schema: &Schema, idents: &Idents) -> bool
    ensures { result ≡ list_all (spec.is_declared schema.now) (idents.now.first ∷ idents.now.others) }
{
    is_declared(schema, &idents.first) && is_each_declared(schema, idents.others.as_slice())
}

/// A procedure of InOut that a program of the form may call.
#[tactic(auto, unfolding(dbpl_tree::specs::Words::write_string, dbpl_tree::specs::Words::write_ln))]
fn is_printer(ident: &Ident) -> bool
    ensures { result ≡ spec.is_printer ident.now }
{
    has_name(ident, b"WriteString") || has_name(ident, b"WriteLn")
}

fn is_each_printer(idents: &[Ident]) -> bool
    ensures { result ≡ list_all spec.is_printer idents.now }
{
    idents.iter().all(is_printer)
}

fn are_printers(idents: &Idents) -> bool
    ensures { result ≡ list_all spec.is_printer (idents.now.first ∷ idents.now.others) }
{
    is_printer(&idents.first) && is_each_printer(idents.others.as_slice())
}

/// Whether this imports from the database module or from InOut, and there what the form wants.
#[tactic(auto, unfolding(dbpl_tree::specs::Words::in_out))]
fn is_line(schema: &Schema, import: &Import) -> bool
    ensures { result ≡ spec.is_line schema.now import.now }
{
    match import {
        Import::From(_, from, names) => {
            (has_name(from, schema.unit.as_bytes()) && are_declared(schema, names))
                || (has_name(from, b"InOut") && are_printers(names))
        }
        Import::Whole(_, _) => false,
    }
}

fn are_all_lines(schema: &Schema, imports: &[Import]) -> bool
    ensures { result ≡ list_all (spec.is_line schema.now) imports.now }
{
    imports.iter().all(|import| is_line(schema, import))
}

/// Whether the name is imported from the database module.
fn is_brought(schema: &Schema, imports: &[Import], name: &Name) -> bool
    ensures { result ≡ spec.is_imported schema.now.unit name.now imports.now }
{
    is_imported(imports, schema.unit.as_bytes(), name.as_bytes())
}

/// Whether the imports are those that the form wants.
pub(crate) fn are_lines(schema: &Schema, imports: &[Import]) -> bool
    ensures { result ≡ spec.are_lines schema.now imports.now }
{
    are_all_lines(schema, imports)
        && is_brought(schema, imports, &schema.element)
        && is_brought(schema, imports, &schema.relation)
        && is_brought(schema, imports, &schema.variable)
}

fn names_in(import: &Import) -> &Idents
    ensures { spec.names_in import.now ≡ names_of result.now }
{
    match import {
        Import::From(_, _, names) => names,
        Import::Whole(_, units) => units,
    }
}

/// All names that are imported.
pub(crate) fn imported_names(alloc: Global, imports: &[Import]) -> Result<List<Name>, Memory>
    ensures { IfOk result (λ names. names ≡ spec.imported_names imports.now) }
{
    let mut names = List::new(alloc);
    for import in imports {
        add_names(alloc, names_in(import), &mut names)?;
    }
    Ok(names)
}
