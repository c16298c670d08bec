//! Whether a descriptor is a type: what each type in it keeps, and how deep types stand inside one another.
ghost use Rattle.std.specs.Prelude.{◌≡◌, ◌&&◌, IfOk, false};
ghost use Rattle.std.specs.List.{list_all};
ghost use Rattle.std.specs.Option.{option_map_or};
ghost use Rattle.dbpl_value.specs.Types.{is_in, is_sound as is_sound_type, is_sound_level, is_subrange as is_subrange_of, is_type as is_type_of, keeps_rules as keeps_rules_of};
ghost use Rattle.dbpl_value.specs.declared.db_type.DbType.{out-DbType};

use crate::depths::{are_relations_within, are_types_within};
use crate::levels::{is_host, range_of};
use crate::name_rules::{are_constants, are_field_names, is_relation};
use crate::scalars::scalars_of;
use crate::{DbType, Field, Range};
use dbpl_base::Memory;
use dbpl_base::limits::{RELATION_DEPTH, SCALARS, TYPE_DEPTH};
use std::alloc::Global;

/// Whether a descriptor is a type. The depth is looked at first, so that a deep one takes no more than that.
pub fn is_type(alloc: Global, t: &DbType) -> Result<bool, Memory>
    ensures { IfOk result (λ answer. answer ≡ is_type_of t.now) }
{
    if !are_types_within(t, TYPE_DEPTH) || !are_relations_within(t, RELATION_DEPTH) {
        return Ok(false);
    }
    is_sound(alloc, t)
}

/// It and every type inside it keeps the rules.
#[cycle(soundness)]
fn is_sound(alloc: Global, t: &DbType) -> Result<bool, Memory>
    ensures { IfOk result (λ answer. answer ≡ is_sound_type t.now) }
{
    if !keeps_rules(alloc, t)? {
        return Ok(false);
    }
    match t {
        DbType::Sub(host, _, _) => is_sound(alloc, host.get()),
        DbType::Arr(index, element) => {
            if !is_sound(alloc, index.get())? {
                return Ok(false);
            }
            is_sound(alloc, element.get())
        }
        DbType::Rec(fields) => are_sound(alloc, fields.as_slice()),
        DbType::Rel(_, record) => is_sound(alloc, record.get()),
        _ => Ok(true),
    }
}

#[cycle(soundness)]
fn are_sound(alloc: Global, fields: &[Field]) -> Result<bool, Memory>
    ensures { IfOk result (λ answer. answer ≡ list_all (λ field. is_sound_type field.kind) fields.now) }
{
    for field in fields {
        if !is_sound(alloc, &field.kind)? {
            return Ok(false);
        }
    }
    Ok(true)
}

fn keeps_rules(alloc: Global, t: &DbType) -> Result<bool, Memory>
    ensures { IfOk result (λ answer. answer ≡ keeps_rules_of t.now) }
{
    if scalars_of(t) > SCALARS {
        return Ok(false);
    }
    is_level_sound(alloc, t)
}

/// What a descriptor keeps, apart from what stands in it.
fn is_level_sound(alloc: Global, t: &DbType) -> Result<bool, Memory>
    ensures { IfOk result (λ answer. answer ≡ is_sound_level (out-DbType t.now)) }
{
    match t {
        DbType::Enum(names) => are_constants(alloc, names.as_slice()),
        DbType::Sub(host, least, greatest) => {
            let range = Range {
                least: *least,
                greatest: *greatest,
            };
            Ok(is_subrange(host.get(), range))
        }
        DbType::Arr(index, _) => Ok(range_of(index.get()).is_some()),
        DbType::Rec(fields) => are_field_names(alloc, fields.as_slice()),
        DbType::Rel(keys, record) => is_relation(alloc, keys.as_slice(), record.get()),
        _ => Ok(true),
    }
}

/// A host with both bounds in it, the first not greater.
pub fn is_subrange(host: &DbType, range: Range) -> bool
    ensures { result ≡ is_subrange_of host.now range }
{
    is_host(host) && holds_both(range_of(host), range) && range.least <= range.greatest
}

fn holds_both(all: Option<Range>, range: Range) -> bool
    ensures { result ≡ option_map_or (λ one. is_in one range.least && is_in one range.greatest) all false }
{
    match all {
        Some(all) => all.holds(range.least) && all.holds(range.greatest),
        None => false,
    }
}
