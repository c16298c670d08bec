//! Copies of types and values, each equal to what it copies.
ghost use Rattle.std.specs.Prelude.{◌≡◌, IfOk};

use crate::{DbType, Field, Value};
use dbpl_base::{Boxed, List, Memory, Name};
use std::alloc::Global;

#[cycle(copy_values)]
pub fn copy(alloc: Global, v: &Value) -> Result<Value, Memory>
    ensures { IfOk result (λ copied. copied ≡ v.now) }
{
    match v {
        Value::Num(n) => Ok(Value::Num(*n)),
        Value::Arr(parts) => Ok(Value::Arr(copy_all(alloc, parts)?)),
        Value::Rec(parts) => Ok(Value::Rec(copy_all(alloc, parts)?)),
        Value::Rel(parts) => Ok(Value::Rel(copy_all(alloc, parts)?)),
    }
}

#[cycle(copy_values)]
fn copy_all(alloc: Global, parts: &List<Value>) -> Result<List<Value>, Memory>
    ensures { IfOk result (λ copied. copied ≡ parts.now) }
{
    let mut copied = List::new(alloc);
    for part in parts.as_slice() {
        copied.push(copy(alloc, part)?)?;
    }
    Ok(copied)
}

#[cycle(copy_types)]
pub fn copy_type(alloc: Global, t: &DbType) -> Result<DbType, Memory>
    ensures { IfOk result (λ copied. copied ≡ t.now) }
{
    match t {
        DbType::Int => Ok(DbType::Int),
        DbType::Card => Ok(DbType::Card),
        DbType::Bool => Ok(DbType::Bool),
        DbType::Char => Ok(DbType::Char),
        DbType::Enum(names) => Ok(DbType::Enum(copy_names(alloc, names)?)),
        DbType::Sub(host, least, greatest) => {
            Ok(DbType::Sub(copy_boxed(alloc, host)?, *least, *greatest))
        }
        DbType::Arr(index, element) => {
            Ok(DbType::Arr(copy_boxed(alloc, index)?, copy_boxed(alloc, element)?))
        }
        DbType::Rec(fields) => Ok(DbType::Rec(copy_fields(alloc, fields)?)),
        DbType::Rel(keys, record) => {
            Ok(DbType::Rel(copy_names(alloc, keys)?, copy_boxed(alloc, record)?))
        }
    }
}

#[cycle(copy_types)]
fn copy_boxed(alloc: Global, t: &Boxed<DbType>) -> Result<Boxed<DbType>, Memory>
    ensures { IfOk result (λ copied. copied ≡ t.now) }
{
    Boxed::new(alloc, copy_type(alloc, t.get())?)
}

#[cycle(copy_types)]
fn copy_fields(alloc: Global, fields: &List<Field>) -> Result<List<Field>, Memory>
    ensures { IfOk result (λ copied. copied ≡ fields.now) }
{
    let mut copied = List::new(alloc);
    for field in fields.as_slice() {
        copied.push(copy_field(alloc, field)?)?;
    }
    Ok(copied)
}

#[cycle(copy_types)]
fn copy_field(alloc: Global, field: &Field) -> Result<Field, Memory>
    ensures { IfOk result (λ copied. copied ≡ field.now) }
{
    Ok(Field {
        name: field.name.copy(alloc)?,
        kind: copy_type(alloc, &field.kind)?,
    })
}

fn copy_names(alloc: Global, names: &List<Name>) -> Result<List<Name>, Memory>
    ensures { IfOk result (λ copied. copied ≡ names.now) }
{
    let mut copied = List::new(alloc);
    for name in names.as_slice() {
        copied.push(name.copy(alloc)?)?;
    }
    Ok(copied)
}
