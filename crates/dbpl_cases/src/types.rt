//! The types of the scope.
use dbpl_base::{Boxed, List, Memory, Name, Shared, name_of};
use dbpl_judging::pair;
use dbpl_value::{DbType, Field, field_of};
use std::alloc::Global;

/// A type of the scope.
#[derive(Clone, Copy)]
pub(crate) enum Sample {
    Integer,
    Cardinal,
    Boolean,
    Char,
    /// `(red, green, blue)`
    Color,
    /// `(north, south)`
    Wind,
    /// `[0 .. 9]`
    Small,
    /// `[-5 .. 5]`
    Low,
    /// `['a' .. 'f']`
    Letter,
    /// `[red .. green]`
    Warm,
    /// `[TRUE .. TRUE]`
    Sure,
    /// `ARRAY [1 .. 3] OF CHAR`
    Three,
    /// `ARRAY [1 .. 4] OF CHAR`
    Four,
    /// `ARRAY Color OF CHAR`
    Marks,
    /// `ARRAY [1 .. 3] OF Letter`
    Letters,
    /// `ARRAY BOOLEAN OF CARDINAL`
    Flags,
    /// `ARRAY Warm OF INTEGER`
    Tints,
    /// `ARRAY Letter OF CARDINAL`
    Codes,
    /// `ARRAY [0 .. 1] OF Three`
    Grid,
    /// `ARRAY [-1 .. 1] OF Pair`
    Shifts,
    /// `RECORD x, y: CARDINAL END`
    Pair,
    /// `RECORD inner: Pair; name: Three; low: Low END`
    Nest,
    /// `RECORD END`
    Empty,
    /// `RELATION x OF Pair`
    Pairs,
    /// `RECORD x: CARDINAL; parts: Pairs END`
    Holder,
}

pub(crate) fn shared_type(alloc: Global, sample: Sample) -> Result<Shared<DbType>, Memory> {
    Shared::new(alloc, type_of(alloc, sample)?)
}

pub(crate) fn shared_name(alloc: Global, name: &str) -> Result<Shared<Name>, Memory> {
    Shared::new(alloc, name_of(alloc, name.as_bytes())?)
}

/// The type that a sample stands for.
fn type_of(alloc: Global, sample: Sample) -> Result<DbType, Memory> {
    match sample {
        Sample::Three | Sample::Four | Sample::Marks | Sample::Letters => characters(alloc, sample),
        Sample::Flags | Sample::Tints | Sample::Codes => counts(alloc, sample),
        Sample::Grid => array(alloc, range(alloc, DbType::Card, 0, 1), three(alloc)),
        Sample::Shifts => array(alloc, range(alloc, DbType::Int, -1, 1), plain_pair(alloc)),
        Sample::Pair => plain_pair(alloc),
        Sample::Nest => nest(alloc),
        Sample::Empty => Ok(DbType::Rec(List::new(alloc))),
        Sample::Pairs => pairs(alloc),
        Sample::Holder => holder(alloc),
        _ => ordinal(alloc, sample),
    }
}

fn ordinal(alloc: Global, sample: Sample) -> Result<DbType, Memory> {
    match sample {
        Sample::Integer => Ok(DbType::Int),
        Sample::Boolean => Ok(DbType::Bool),
        Sample::Char => Ok(DbType::Char),
        Sample::Color => colors(alloc),
        Sample::Wind => enumeration(alloc, &["north", "south"]),
        Sample::Small => range(alloc, DbType::Card, 0, 9),
        Sample::Low => range(alloc, DbType::Int, -5, 5),
        Sample::Letter => letters(alloc),
        Sample::Warm => warm(alloc),
        Sample::Sure => range(alloc, DbType::Bool, 1, 1),
        _ => Ok(DbType::Card),
    }
}

/// The arrays of characters.
fn characters(alloc: Global, sample: Sample) -> Result<DbType, Memory> {
    match sample {
        Sample::Four => array(alloc, range(alloc, DbType::Card, 1, 4), Ok(DbType::Char)),
        Sample::Marks => array(alloc, colors(alloc), Ok(DbType::Char)),
        Sample::Letters => array(alloc, range(alloc, DbType::Card, 1, 3), letters(alloc)),
        _ => three(alloc),
    }
}

/// The arrays of whole numbers.
fn counts(alloc: Global, sample: Sample) -> Result<DbType, Memory> {
    match sample {
        Sample::Tints => array(alloc, warm(alloc), Ok(DbType::Int)),
        Sample::Codes => array(alloc, letters(alloc), Ok(DbType::Card)),
        _ => array(alloc, Ok(DbType::Bool), Ok(DbType::Card)),
    }
}

fn colors(alloc: Global) -> Result<DbType, Memory> {
    enumeration(alloc, &["red", "green", "blue"])
}

fn warm(alloc: Global) -> Result<DbType, Memory> {
    let colors = colors(alloc)?;
    range(alloc, colors, 0, 1)
}

fn letters(alloc: Global) -> Result<DbType, Memory> {
    range(alloc, DbType::Char, 97, 102)
}

fn three(alloc: Global) -> Result<DbType, Memory> {
    array(alloc, range(alloc, DbType::Card, 1, 3), Ok(DbType::Char))
}

fn plain_pair(alloc: Global) -> Result<DbType, Memory> {
    let fields = with_field(alloc, List::new(alloc), "x", Ok(DbType::Card))?;
    let fields = with_field(alloc, fields, "y", Ok(DbType::Card))?;
    Ok(DbType::Rec(fields))
}

fn nest(alloc: Global) -> Result<DbType, Memory> {
    let fields = with_field(alloc, List::new(alloc), "inner", plain_pair(alloc))?;
    let fields = with_field(alloc, fields, "name", three(alloc))?;
    let fields = with_field(alloc, fields, "low", range(alloc, DbType::Int, -5, 5))?;
    Ok(DbType::Rec(fields))
}

fn pairs(alloc: Global) -> Result<DbType, Memory> {
    let record = Boxed::new(alloc, plain_pair(alloc)?)?;
    let (record, keys) = pair(record, names(alloc, &["x"]))?;
    Ok(DbType::Rel(keys, record))
}

fn holder(alloc: Global) -> Result<DbType, Memory> {
    let fields = with_field(alloc, List::new(alloc), "x", Ok(DbType::Card))?;
    let fields = with_field(alloc, fields, "parts", pairs(alloc))?;
    Ok(DbType::Rec(fields))
}

fn enumeration(alloc: Global, constants: &[&str]) -> Result<DbType, Memory> {
    Ok(DbType::Enum(names(alloc, constants)?))
}

fn range(alloc: Global, host: DbType, least: i64, greatest: i64) -> Result<DbType, Memory> {
    Ok(DbType::Sub(Boxed::new(alloc, host)?, least, greatest))
}

fn array(
    alloc: Global,
    index: Result<DbType, Memory>,
    element: Result<DbType, Memory>,
) -> Result<DbType, Memory> {
    let (index, element) = pair(index?, element)?;
    let (index, element) = pair(Boxed::new(alloc, index)?, Boxed::new(alloc, element))?;
    Ok(DbType::Arr(index, element))
}

fn names(alloc: Global, words: &[&str]) -> Result<List<Name>, Memory> {
    let mut names = List::new(alloc);
    for word in words {
        names.push(name_of(alloc, word.as_bytes())?)?;
    }
    Ok(names)
}

/// The fields with one more.
fn with_field(
    alloc: Global,
    fields: List<Field>,
    name: &str,
    t: Result<DbType, Memory>,
) -> Result<List<Field>, Memory> {
    let mut fields = fields;
    let (name, t) = pair(name_of(alloc, name.as_bytes())?, t)?;
    fields.push(field_of(name, t))?;
    Ok(fields)
}
