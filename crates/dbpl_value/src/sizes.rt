//! How many bytes a value takes where it is stored.
ghost use Rattle.std.specs.Prelude.{◌≡◌, ◌-◌, ◌^◌, min, sum_by, map};
ghost use Rattle.std.specs.List.{zip};
ghost use Rattle.dbpl_value.specs.Sizes.{size_of as coded_size};

use crate::levels::parts_of;
use crate::{DbType, Field, Value};

/// The coded size, or 2^64 - 1 where it passes that.
#[cycle(sizes)]
pub fn size_of(t: &DbType, v: &Value) -> u64
    ensures { result ≡ min (coded_size t.now v.now) (2 ^ 64 - 1) }
{
    match t {
        DbType::Int | DbType::Card | DbType::Enum(_) => 4,
        DbType::Bool | DbType::Char => 1,
        DbType::Sub(host, _, _) => size_of(host.get(), v),
        DbType::Arr(_, element) => size_of_all(element.get(), parts_of(v)),
        DbType::Rec(fields) => size_of_fields(fields.as_slice(), parts_of(v)),
        DbType::Rel(_, record) => size_of_all(record.get(), parts_of(v)).saturating_add(4),
    }
}

#[cycle(sizes)]
fn size_of_all(t: &DbType, parts: &[Value]) -> u64
    ensures { result ≡ min (sum_by (coded_size t.now) parts.now) (2 ^ 64 - 1) }
{
    let mut total: u64 = 0;
    for part in parts {
        total = total.saturating_add(size_of(t, part));
    }
    total
}

#[cycle(sizes)]
fn size_of_fields(fields: &[Field], parts: &[Value]) -> u64
    ensures { result ≡ min (sum_by (λ pair. coded_size pair.0.kind pair.1) (zip fields.now parts.now)) (2 ^ 64 - 1) }
{
    let mut total: u64 = 0;
    for i in 0..fields.len().min(parts.len()) {
        total = total.saturating_add(size_of(&fields[i].kind, &parts[i]));
    }
    total
}
