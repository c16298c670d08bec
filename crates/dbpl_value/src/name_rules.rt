//! The names in a descriptor: identifiers, none twice, and keys that are fields.
ghost use Rattle.std.specs.Prelude.{◌≡◌, ◌&&◌, IfOk, not, map};
ghost use Rattle.std.specs.List.{list_all};
ghost use Rattle.dbpl_value.specs.Types.{are_names, is_identifier as is_identifier_name, is_none_left, is_relation as is_relation_of};

use crate::different::{are_different, are_fields_different};
use crate::identifiers::is_identifier;
use crate::key_fields::are_key_fields;
use crate::levels::fields_of;
use crate::{DbType, Field};
use dbpl_base::{Memory, Name};
use std::alloc::Global;

/// One constant or more, identifiers, and none twice.
pub(crate) fn are_constants(alloc: Global, names: &[Name]) -> Result<bool, Memory>
    ensures { IfOk result (λ answer. answer ≡ (not (is_none_left names.now) && are_names names.now)) }
{
    if names.is_empty() || !are_identifiers(names) {
        return Ok(false);
    }
    are_different(alloc, names)
}

/// Fields whose names are identifiers, none twice.
pub(crate) fn are_field_names(alloc: Global, fields: &[Field]) -> Result<bool, Memory>
    ensures { IfOk result (λ answer. answer ≡ are_names (map (λ field. field.name) fields.now)) }
{
    if !have_identifiers(fields) {
        return Ok(false);
    }
    are_fields_different(alloc, fields)
}

/// A record type, and one key or more, different fields of it.
pub(crate) fn is_relation(
    alloc: Global,
    keys: &[Name],
    record_type: &DbType,
) -> Result<bool, Memory>
    ensures { IfOk result (λ answer. answer ≡ is_relation_of keys.now record_type.now) }
{
    if !matches!(record_type, DbType::Rec(_)) || keys.is_empty() {
        return Ok(false);
    }
    if !are_different(alloc, keys)? {
        return Ok(false);
    }
    are_key_fields(alloc, keys, fields_of(record_type))
}

fn are_identifiers(names: &[Name]) -> bool
    ensures { result ≡ list_all is_identifier_name names.now }
{
    names.iter().all(|name| is_identifier(name.as_bytes()))
}

fn have_identifiers(fields: &[Field]) -> bool
    ensures { result ≡ list_all (λ field. is_identifier_name field.name) fields.now }
{
    fields
        .iter()
        .all(|field| is_identifier(field.name.as_bytes()))
}
