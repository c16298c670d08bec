//! The test of a tree for a database module of the form.
ghost use Rattle.std.specs.Prelude.{◌≡◌, if◌then◌else◌, IfOk, None, option_map, Some};
ghost use Rattle.std.specs.Option.{option_and_then, option_copied};
ghost use Rattle.dbpl_stored_form.specs.DataModules as spec;
ghost use Rattle.dbpl_stored_form.specs.Lists.{joined, passing};

use crate::Schema;
use crate::names::{add_names, is_plain, is_type_name};
use crate::storing::can_be_kept;
use dbpl_base::{List, Memory, Name};
use dbpl_tree::{Common, DataUnit, Fields, PlainDecl, TypeDecl, TypeTree, VarDecl, has_name};
use std::alloc::Global;

/// Puts the names of these fields behind those that are there, if they are of type CARDINAL.
#[tactic(auto, unfolding(crate::specs::DataModules::cardinal))]
fn add_fields(alloc: Global, group: &Fields, names: &mut List<Name>) -> Result<bool, Memory>
    ensures { IfOk result (λ added. joined (Some names.old) (spec.fields_named group.now) ≡ (if added then Some names.new else None)) }
{
    match group {
        Fields::Empty(_) => Ok(true),
        Fields::Fields(idents, kind) if is_type_name(kind.get(), b"CARDINAL") => {
            add_names(alloc, idents, names)?;
            Ok(true)
        }
        _ => Ok(false),
    }
}

fn fields_in(alloc: Global, first: &Fields, others: &[Fields]) -> Result<Option<List<Name>>, Memory>
    ensures { IfOk result (λ names. names ≡ spec.fields_in first.now others.now) }
{
    let mut names = List::new(alloc);
    if !add_fields(alloc, first, &mut names)? {
        return Ok(None);
    }
    for group in others {
        if !add_fields(alloc, group, &mut names)? {
            return Ok(None);
        }
    }
    Ok(Some(names))
}

/// The names of the fields of the record type that this is, if all are of type CARDINAL.
fn record_of(alloc: Global, kind: &TypeTree) -> Result<Option<List<Name>>, Memory>
    ensures { IfOk result (λ names. names ≡ spec.record_fields kind.now) }
{
    match kind {
        TypeTree::Record(_, first, others) => fields_in(alloc, first, others.as_slice()),
        _ => Ok(None),
    }
}

/// The key of the relation type over this record type that this is, if it has one key.
fn key_of<'a>(kind: &'a TypeTree, element: &[u8]) -> Option<&'a Name>
    ensures { option_copied result ≡ spec.relation_key element.now kind.now }
{
    match kind {
        TypeTree::Relation(_, keys, over)
            if matches!(keys.others.as_slice(), []) && is_plain(over, element) => {
            Some(&keys.first.name)
        }
        _ => None,
    }
}

/// Whether this is one variable of the type with this name.
fn is_variable(decl: &VarDecl, kind: &Name) -> bool
    ensures { result ≡ spec.is_variable kind.now decl.now }
{
    matches!(decl.names.others.as_slice(), []) && is_type_name(&decl.kind, kind.as_bytes())
}

fn declared_by(
    alloc: Global,
    unit: &Name,
    element: &TypeDecl,
    relation: &TypeDecl,
    variable: &VarDecl,
) -> Result<Option<Schema>, Memory>
    ensures { IfOk result (λ schema. schema ≡ spec.declared_by unit.now element.now relation.now variable.now) }
{
    if !is_variable(variable, &relation.name.name) {
        return Ok(None);
    }
    let Some(key) = key_of(&relation.kind, element.name.name.as_bytes()) else {
        return Ok(None);
    };
    let Some(fields) = record_of(alloc, &element.kind)? else {
        return Ok(None);
    };
    Ok(Some(Schema {
        unit: unit.copy(alloc)?,
        element: element.name.name.copy(alloc)?,
        relation: relation.name.name.copy(alloc)?,
        variable: variable.names.first.name.copy(alloc)?,
        key: key.copy(alloc)?,
        fields,
    }))
}

fn parts_declare(
    alloc: Global,
    unit: &Name,
    types: &[TypeDecl],
    variables: &[VarDecl],
) -> Result<Option<Schema>, Memory>
    ensures { IfOk result (λ schema. schema ≡ spec.parts_declare unit.now types.now variables.now) }
{
    match (types, variables) {
        ([element, relation], [variable]) => declared_by(alloc, unit, element, relation, variable),
        _ => Ok(None),
    }
}

fn declared_in(alloc: Global, unit: &Name, items: &[Common]) -> Result<Option<Schema>, Memory>
    ensures { IfOk result (λ schema. schema ≡ spec.declared_in unit.now items.now) }
{
    match items {
        [
            Common::Plain(PlainDecl::Type(_, types)),
            Common::Plain(PlainDecl::Var(_, variables)),
        ] => { parts_declare(alloc, unit, types.as_slice(), variables.as_slice()) }
        _ => Ok(None),
    }
}

fn are_names_different(schema: &Schema) -> bool
    ensures { result ≡ spec.are_names_different schema.now }
{
    schema.element != schema.relation
        && schema.element != schema.variable
        && schema.relation != schema.variable
}

fn is_sound(alloc: Global, schema: &Schema) -> Result<bool, Memory>
    ensures { IfOk result (λ answer. answer ≡ spec.is_sound_schema schema.now) }
{
    if !are_names_different(schema) {
        return Ok(false);
    }
    can_be_kept(alloc, schema)
}

/// Whether all but the declarations is as the form wants it.
#[tactic(auto, unfolding(dbpl_tree::specs::Words::in_out))]
fn has_frame(database: &DataUnit) -> bool
    ensures { result ≡ spec.has_frame database.now }
{
    has_name(&database.end_name, database.name.name.as_bytes())
        && !has_name(&database.name, b"InOut")
        && matches!(database.imports.as_slice(), [])
}

fn sound(alloc: Global, schema: Schema) -> Result<Option<Schema>, Memory>
    ensures { IfOk result (λ found. found ≡ passing spec.is_sound_schema schema) }
{
    if is_sound(alloc, &schema)? {
        Ok(Some(schema))
    } else {
        Ok(None)
    }
}

/// What a database module of the form declares.
pub(crate) fn schema_of(alloc: Global, database: &DataUnit) -> Result<Option<Schema>, Memory>
    ensures { IfOk result (λ schema. schema ≡ spec.schema_of database.now) }
{
    if !has_frame(database) {
        return Ok(None);
    }
    match declared_in(alloc, &database.name.name, database.items.as_slice())? {
        Some(schema) => sound(alloc, schema),
        None => Ok(None),
    }
}
