//! How deep types stand inside one another.
ghost use Rattle.std.specs.Prelude.{◌≡◌, nat_le};
ghost use Rattle.std.specs.List.{list_all};
ghost use Rattle.dbpl_value.specs.Types.{depth_of, relations_of};

use crate::{DbType, Field};

/// Types stand inside one another to this depth at most, the outermost, hosts and index types counted.
#[cycle(depth)]
pub fn are_types_within(t: &DbType, depth: u32) -> bool
    ensures { result ≡ nat_le (depth_of t.now) depth }
{
    if depth == 0 {
        return false;
    }
    match t {
        DbType::Sub(host, _, _) => are_types_within(host.get(), depth - 1),
        DbType::Arr(index, element) => {
            are_types_within(index.get(), depth - 1) && are_types_within(element.get(), depth - 1)
        }
        DbType::Rec(fields) => are_field_types_within(fields.as_slice(), depth - 1),
        DbType::Rel(_, record) => are_types_within(record.get(), depth - 1),
        _ => true,
    }
}

#[cycle(depth)]
fn are_field_types_within(fields: &[Field], depth: u32) -> bool
    ensures { result ≡ list_all (λ field. nat_le (depth_of field.kind) depth) fields.now }
{
    for field in fields {
        if !are_types_within(&field.kind, depth) {
            return false;
        }
    }
    true
}

/// Relation types stand inside one another to this depth at most.
#[cycle(nesting)]
pub fn are_relations_within(t: &DbType, depth: u32) -> bool
    ensures { result ≡ nat_le (relations_of t.now) depth }
{
    match t {
        DbType::Sub(host, _, _) => are_relations_within(host.get(), depth),
        DbType::Arr(index, element) => {
            are_relations_within(index.get(), depth) && are_relations_within(element.get(), depth)
        }
        DbType::Rec(fields) => are_fields_within(fields.as_slice(), depth),
        DbType::Rel(_, record) => depth > 0 && are_relations_within(record.get(), depth - 1),
        _ => true,
    }
}

#[cycle(nesting)]
fn are_fields_within(fields: &[Field], depth: u32) -> bool
    ensures { result ≡ list_all (λ field. nat_le (relations_of field.kind) depth) fields.now }
{
    for field in fields {
        if !are_relations_within(&field.kind, depth) {
            return false;
        }
    }
    true
}
