//! How many scalars a value has.
ghost use Rattle.std.specs.Prelude.{◌≡◌, ◌^◌, ◌-◌, min};
ghost use Rattle.dbpl_value.specs.Types.{count_of as count_of_type, scalars_of as scalars_of_type};
ghost use Rattle.dbpl_value.specs.declared.db_type.DbType.TheVariants as types;

use crate::levels::count_of;
use crate::{DbType, Field};

/// How many scalars a value has, or 2^64 - 1 where there are more.
#[cycle(scalars)]
pub fn scalars_of(t: &DbType) -> u64
    ensures { result ≡ min (scalars_of_type t.now) (2 ^ 64 - 1) }
{
    match t {
        DbType::Arr(index, element) => scalars_of(element.get()).saturating_mul(counted(
            index.get(),
        )),
        DbType::Rec(fields) => scalars_of_record(fields.as_slice()),
        _ => 1,
    }
}

/// A record without fields counts one.
#[cycle(scalars)]
fn scalars_of_record(fields: &[Field]) -> u64
    ensures { result ≡ min (scalars_of_type (types.Rec fields.now)) (2 ^ 64 - 1) }
{
    if fields.is_empty() {
        return 1;
    }
    let mut total: u64 = 0;
    for field in fields {
        total = total.saturating_add(scalars_of(&field.kind));
    }
    total
}

/// How many values an ordinal type has, or 2^64 - 1 where there are more.
fn counted(t: &DbType) -> u64
    ensures { result ≡ min (count_of_type t.now) (2 ^ 64 - 1) }
{
    match count_of(t) {
        Some(count) => count,
        None => u64::MAX,
    }
}
