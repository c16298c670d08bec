//! The keys of a relation are looked up among the names of the fields that may be keys.
ghost use Rattle.std.specs.Prelude.{◌≡◌, IfOk, IsSorted, filter, if◌then◌else◌, map, true};
ghost use Rattle.std.specs.Cmp.Lexicographic.{slice_cmp};
ghost use Rattle.std.specs.List.{list_all, list_any};
ghost use Rattle.std.specs.Ordering.{nat_cmp};
ghost use Rattle.dbpl_value.specs.Types.{is_char_array as is_char_array_type, is_key_field, is_ordinal, is_same_name};

use crate::Field;
use crate::levels::{is_char_array, range_of};
use dbpl_base::{Memory, Name};
use std::alloc::Global;

/// Each key is a field that may be one. The names of those fields are sorted, so that a key is found in few comparisons.
pub(crate) fn are_key_fields(alloc: Global, keys: &[Name], fields: &[Field]) -> Result<bool, Memory>
    ensures { IfOk result (λ answer. answer ≡ list_all (λ key. list_any (is_key_field key) fields.now) keys.now) }
{
    let mut names = key_names(alloc, fields)?;
    names.sort()?;
    Ok(are_among(keys, names.as_slice()))
}

/// The names of the fields that may be keys.
fn key_names(alloc: Global, fields: &[Field]) -> Result<Vec<&[u8]>, Memory>
    ensures { IfOk result (λ names. map (λ name. name.now) names.items ≡ map (λ field. field.name) (filter
        (λ field. if is_ordinal field.kind then true else is_char_array_type field.kind) fields.now)) }
{
    let mut names = Vec::new(alloc);
    for field in fields {
        if may_be_key(field) {
            names.push(field.name.as_bytes())?;
        }
    }
    Ok(names)
}

/// A field of ordinal type, or an array of CHAR.
fn may_be_key(field: &Field) -> bool
    ensures { result ≡ (if is_ordinal field.now.kind then true else is_char_array_type field.now.kind) }
{
    range_of(&field.kind).is_some() || is_char_array(&field.kind)
}

/// Each key stands among these names, which are in order.
fn are_among(keys: &[Name], names: &[&[u8]]) -> bool
    ensures { IsSorted (λ x y. slice_cmp nat_cmp x.now y.now) names.now →
        result ≡ list_all (λ key. list_any (is_same_name key) (map (λ name. name.now) names.now)) keys.now }
{
    for key in keys {
        if !stands_in(key, names) {
            return false;
        }
    }
    true
}

fn stands_in(key: &Name, names: &[&[u8]]) -> bool
    ensures { IsSorted (λ x y. slice_cmp nat_cmp x.now y.now) names.now →
        result ≡ list_any (is_same_name key.now) (map (λ name. name.now) names.now) }
{
    names.binary_search(&key.as_bytes()).is_ok()
}
