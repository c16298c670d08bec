//! The relation variable that a database module declares, as it is stored.
ghost use Rattle.std.specs.Prelude.{◌≡◌, ◌+◌, [], ◌∷◌, IfOk, length, map, nat_le};
ghost use Rattle.std.specs.List.{list_all, list_any};
ghost use Rattle.dbpl_base.specs.declared.limits.TheConstants.{RELATION_NAME_BYTES};
ghost use Rattle.dbpl_stored_program.specs.Programs.{cardinal_field, flat_type};
ghost use Rattle.dbpl_stored_form.specs.DataModules as spec;
ghost use Rattle.dbpl_value.specs.Types.{are_names as are_names_of, is_identifier as is_identifier_name, is_same_name};
ghost use Rattle.dbpl_value.specs.declared.db_type.DbType.TheVariants as kinds;

use crate::Schema;
use dbpl_base::limits::{RELATION_NAME_BYTES, SCALARS};
use dbpl_base::{Boxed, List, Memory, Name};
use dbpl_value::{DbType, Field, are_different, field_of, is_identifier};
use std::alloc::Global;

/// Whether the relation variable can be stored.
pub(crate) fn can_be_kept(alloc: Global, schema: &Schema) -> Result<bool, Memory>
    ensures { IfOk result (λ answer. answer ≡ spec.can_be_kept schema.now) }
{
    if !is_variable_name(&schema.unit, &schema.variable) {
        return Ok(false);
    }
    are_fields(alloc, &schema.key, schema.fields.as_slice())
}

fn is_variable_name(unit: &Name, variable: &Name) -> bool
    ensures { result ≡ spec.is_variable_name unit.now variable.now }
{
    let (unit, variable) = (unit.as_bytes(), variable.as_bytes());
    is_identifier(unit) && is_identifier(variable) && are_short(unit, variable)
}

fn are_short(unit: &[u8], variable: &[u8]) -> bool
    ensures { result ≡ nat_le (length unit.now + 1 + length variable.now) RELATION_NAME_BYTES }
{
    unit.len() < RELATION_NAME_BYTES && variable.len() < RELATION_NAME_BYTES - unit.len()
}

fn are_fields(alloc: Global, key: &Name, names: &[Name]) -> Result<bool, Memory>
    ensures { IfOk result (λ answer. answer ≡ spec.are_fields key.now names.now) }
{
    if !stands_in(key, names) || names.len() as u64 > SCALARS {
        return Ok(false);
    }
    are_names(alloc, names)
}

/// Whether the name is one of these.
pub(crate) fn stands_in(name: &Name, names: &[Name]) -> bool
    ensures { result ≡ list_any (is_same_name name.now) names.now }
{
    names.iter().any(|other| *name == *other)
}

fn are_names(alloc: Global, names: &[Name]) -> Result<bool, Memory>
    ensures { IfOk result (λ answer. answer ≡ are_names_of names.now) }
{
    if !are_identifiers(names) {
        return Ok(false);
    }
    are_different(alloc, names)
}

fn are_identifiers(names: &[Name]) -> bool
    ensures { result ≡ list_all is_identifier_name names.now }
{
    names.iter().all(|name| is_identifier(name.as_bytes()))
}

/// The relation variable, by the name under which it is stored.
pub(crate) fn variable_of(alloc: Global, schema: &Schema) -> Result<Field, Memory>
    ensures { IfOk result (λ field. field ≡ spec.variable_of schema.now) }
{
    let name = joined_name(alloc, schema)?;
    Ok(field_of(name, kind_of(alloc, schema)?))
}

/// The module's name and the variable's, joined by a full stop.
fn joined_name(alloc: Global, schema: &Schema) -> Result<Name, Memory>
    ensures { IfOk result (λ name. name ≡ spec.joined_name schema.now) }
{
    let mut bytes = Vec::from_slice(alloc, schema.unit.as_bytes())?;
    bytes.push(b'.')?;
    bytes.extend_from_slice(schema.variable.as_bytes())?;
    Ok(Name::from_vec(bytes))
}

fn kind_of(alloc: Global, schema: &Schema) -> Result<DbType, Memory>
    ensures { IfOk result (λ kind. kind ≡ flat_type schema.now.key schema.now.fields) }
{
    let keys = key_list(alloc, &schema.key)?;
    let element = Boxed::new(alloc, record_type(alloc, schema.fields.as_slice())?)?;
    Ok(DbType::Rel(keys, element))
}

fn key_list(alloc: Global, key: &Name) -> Result<List<Name>, Memory>
    ensures { IfOk result (λ keys. keys ≡ key.now ∷ []) }
{
    let mut keys = List::new(alloc);
    keys.push(key.copy(alloc)?)?;
    Ok(keys)
}

/// The record type with these fields, all of type CARDINAL.
fn record_type(alloc: Global, names: &[Name]) -> Result<DbType, Memory>
    ensures { IfOk result (λ kind. kind ≡ kinds.Rec (map cardinal_field names.now)) }
{
    let mut fields = List::new(alloc);
    for name in names {
        fields.push(field_of(name.copy(alloc)?, DbType::Card))?;
    }
    Ok(DbType::Rec(fields))
}
