//! Types and values made at random are written, read back and compared, and then read with a byte changed.
ghost use Rattle.std.specs.Prelude.{◌<◌};

use crate::answer::{Answer, whether};
use crate::failure::Failure;
use crate::notation::number_in;
use crate::parts::Parts;
use dbpl_base::{Boxed, List, Memory, name_of};
use dbpl_codec::{ReadErr, read_type, read_value, write_type, write_value};
use dbpl_value::{DbType, Field, Value, equal, field_of, same_type};
use std::alloc::Global;

/// Numbers that look random, each reckoned from the one before.
#[derive(Drop)]
struct Dice {
    last: u64,
}

impl Dice {
    fn throw(&mut self, sides: u32) -> u32
        requires { 0 < sides }
        ensures { result < sides }
    {
        self.last = self
            .last
            .wrapping_mul(6_364_136_223_846_793_005)
            .wrapping_add(1_442_695_040_888_963_407);
        ((self.last >> 33) as u32) % sides
    }
}

fn ordinal(alloc: Global, dice: &mut Dice) -> Result<DbType, Memory> {
    match dice.throw(5) {
        0 => Ok(DbType::Int),
        1 => Ok(DbType::Card),
        2 => Ok(DbType::Bool),
        3 => Ok(DbType::Char),
        _ => Ok(DbType::Sub(Boxed::new(alloc, DbType::Int)?, -3, 3)),
    }
}

fn random_type(alloc: Global, dice: &mut Dice, depth: u32) -> Result<DbType, Memory> {
    if depth == 0 {
        return ordinal(alloc, dice);
    }
    match dice.throw(4) {
        0 => ordinal(alloc, dice),
        1 => {
            let index = Boxed::new(alloc, DbType::Bool)?;
            let element = random_type(alloc, dice, depth - 1)?;
            Ok(DbType::Arr(index, Boxed::new(alloc, element)?))
        }
        2 => {
            let part = random_type(alloc, dice, depth - 1)?;
            random_record(alloc, dice, part)
        }
        _ => {
            let part = random_type(alloc, dice, depth - 1)?;
            let record = random_record(alloc, dice, part)?;
            let mut keys = List::new(alloc);
            keys.push(name_of(alloc, b"k")?)?;
            Ok(DbType::Rel(keys, Boxed::new(alloc, record)?))
        }
    }
}

/// A record of a number and a part of this type.
fn random_record(alloc: Global, dice: &mut Dice, kind: DbType) -> Result<DbType, Memory> {
    let mut fields = List::new(alloc);
    fields.push(field_of(name_of(alloc, b"k")?, ordinal(alloc, dice)?))?;
    fields.push(field_of(name_of(alloc, b"part")?, kind))?;
    Ok(DbType::Rec(fields))
}

fn random_number(dice: &mut Dice, t: &DbType) -> Value {
    match t {
        DbType::Int => Value::Num(i64::from(dice.throw(1 << 31)) - (1 << 30)),
        DbType::Card => Value::Num(i64::from(dice.throw(1 << 31))),
        DbType::Bool => Value::Num(i64::from(dice.throw(2))),
        DbType::Char => Value::Num(i64::from(dice.throw(256))),
        _ => Value::Num(i64::from(dice.throw(7)) - 3),
    }
}

#[cycle(random_values)]
fn random_value(alloc: Global, dice: &mut Dice, t: &DbType) -> Result<Value, Memory> {
    match t {
        DbType::Arr(_, element) => {
            let mut parts = List::new(alloc);
            parts.push(random_value(alloc, dice, element.get())?)?;
            parts.push(random_value(alloc, dice, element.get())?)?;
            Ok(Value::Arr(parts))
        }
        DbType::Rec(fields) => random_parts(alloc, dice, fields.as_slice()),
        DbType::Rel(_, record) => {
            let mut records = List::new(alloc);
            if dice.throw(3) > 0 {
                records.push(random_value(alloc, dice, record.get())?)?;
            }
            Ok(Value::Rel(records))
        }
        _ => Ok(random_number(dice, t)),
    }
}

#[cycle(random_values)]
fn random_parts(alloc: Global, dice: &mut Dice, fields: &[Field]) -> Result<Value, Memory> {
    let mut parts = List::new(alloc);
    for field in fields {
        parts.push(random_value(alloc, dice, &field.kind)?)?;
    }
    Ok(Value::Rec(parts))
}

/// The same bytes, but one.
fn changed(alloc: Global, dice: &mut Dice, bytes: &[u8]) -> Result<Vec<u8>, Memory> {
    let place = dice.throw(1 << 31) as usize % (bytes.len() + 1);
    let other = dice.throw(256) as u8;
    let mut out = Vec::new(alloc);
    for (i, byte) in bytes.iter().enumerate() {
        out.push(if i == place { other } else { *byte })?;
    }
    Ok(out)
}

fn written_type(alloc: Global, t: &DbType) -> Result<Vec<u8>, Memory> {
    let mut bytes = Vec::new(alloc);
    write_type(t, &mut bytes)?;
    Ok(bytes)
}

fn written_value(alloc: Global, t: &DbType, v: &Value) -> Result<Vec<u8>, Memory> {
    let mut bytes = Vec::new(alloc);
    write_value(t, v, &mut bytes)?;
    Ok(bytes)
}

/// A type and a value of it are read as they were written.
fn comes_back(alloc: Global, t: &DbType, v: &Value) -> Result<bool, Failure> {
    let descriptor = written_type(alloc, t)?;
    let kind = read_type(alloc, descriptor.as_slice())?;
    let bytes = written_value(alloc, t, v)?;
    let value = read_value(alloc, t, bytes.as_slice())?;
    Ok(same_type(t, &kind) && equal(v, &value))
}

/// What is read of the bytes of a descriptor is spelled so, if anything is.
fn is_exact_type(alloc: Global, bytes: &[u8]) -> Result<bool, Memory> {
    match read_type(alloc, bytes) {
        Ok(t) => Ok(written_type(alloc, &t)?.as_slice() == bytes),
        Err(ReadErr::Malformed) => Ok(true),
        Err(ReadErr::Memory) => Err(Memory),
    }
}

/// What is read of the bytes of a value is spelled so, if anything is.
fn is_exact_value(alloc: Global, t: &DbType, bytes: &[u8]) -> Result<bool, Memory> {
    match read_value(alloc, t, bytes) {
        Ok(v) => Ok(written_value(alloc, t, &v)?.as_slice() == bytes),
        Err(ReadErr::Malformed) => Ok(true),
        Err(ReadErr::Memory) => Err(Memory),
    }
}

/// With a byte changed a type and a value are read as what is spelled so, or not at all.
fn stays_exact(alloc: Global, dice: &mut Dice, t: &DbType, v: &Value) -> Result<bool, Memory> {
    let descriptor = written_type(alloc, t)?;
    let other = changed(alloc, dice, descriptor.as_slice())?;
    let bytes = written_value(alloc, t, v)?;
    let another = changed(alloc, dice, bytes.as_slice())?;
    Ok(is_exact_type(alloc, other.as_slice())? && is_exact_value(alloc, t, another.as_slice())?)
}

/// A type and a value of it come back, and others stay exact.
fn turn(alloc: Global, dice: &mut Dice) -> Result<bool, Failure> {
    let t = random_type(alloc, dice, 3)?;
    let v = random_value(alloc, dice, &t)?;
    Ok(comes_back(alloc, &t, &v)? && stays_exact(alloc, dice, &t, &v)?)
}

/// So many turns.
pub(crate) fn come_back(alloc: Global, parts: &Parts) -> Result<Answer, Failure> {
    let mut dice = Dice { last: 20 };
    for _turn in 0..number_in(parts.text(0)?)? {
        if !turn(alloc, &mut dice)? {
            return Ok(whether(false));
        }
    }
    Ok(whether(true))
}
