//! Which relation variables and records can be kept.
ghost use Rattle.std.specs.Prelude.{◌≡◌, ◌-◌, ◌^◌, ◌≤◌, min, sum_by};
ghost use Rattle.dbpl_value.specs.Databases.{are_small as are_small_records, is_kept_type as is_kept_type_of, key_size as key_size_of, host_width as host_width_of, key_width as key_width_of};

use dbpl_base::limits::{KEY_BYTES, RECORD_BYTES};
use dbpl_value::{DbType, Value, count_of, element_of, key_type, keys_of, parts_of, size_of};

/// A relation type whose keys take so few bytes.
pub(crate) fn is_kept_type(t: &DbType) -> bool
    ensures { result ≡ is_kept_type_of t.now }
{
    !keys_of(t).is_empty() && key_size(t) <= KEY_BYTES
}

/// How many key bytes each record has, or 2^64 - 1 where that passes it.
fn key_size(t: &DbType) -> u64
    ensures { result ≡ min (key_size_of t.now) (2 ^ 64 - 1) }
{
    let mut total: u64 = 0;
    for name in keys_of(t) {
        total = total.saturating_add(key_width(key_type(t, name)));
    }
    total
}

/// How many key bytes a component has, or 2^64 - 1 where that passes it.
fn key_width(t: &DbType) -> u64
    ensures { result ≡ min (key_width_of t.now) (2 ^ 64 - 1) }
{
    match t {
        DbType::Sub(host, _, _) => host_width(host.get()),
        DbType::Arr(index, _) => count_of(index.get()).unwrap_or(u64::MAX),
        _ => host_width(t),
    }
}

/// How many key bytes a component has whose type is no subrange and no array.
fn host_width(t: &DbType) -> u64
    ensures value { result ≡ host_width_of t.now }
    ensures small { result ≤ 4 }
{
    match t {
        DbType::Int | DbType::Card | DbType::Enum(_) => 4,
        DbType::Bool | DbType::Char => 1,
        _ => 0,
    }
}

/// Whether each record of this relation can be kept.
pub(crate) fn are_small(t: &DbType, relation: &Value) -> bool
    ensures { result ≡ are_small_records t.now relation.now }
{
    let record = element_of(t);
    parts_of(relation)
        .iter()
        .all(|part| size_of(record, part) <= RECORD_BYTES)
}
