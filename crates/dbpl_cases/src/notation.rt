//! How places, names, types and what is known of an expression are written in an answer.
use crate::answer::UNIT;
use dbpl_base::{Memory, Name, Place};
use dbpl_judging::{Facts, Kind};
use dbpl_value::{DbType, Field, Range};
use std::fmt::Write;

/// A column where the place is in the line of an expression, else the whole place.
pub(crate) fn show_place(out: &mut String, place: Place) -> Result<(), Memory> {
    if place.unit == UNIT && place.line == 1 {
        write!(out, "{}", place.col)?;
    } else {
        write!(out, "{}:{}:{}", place.unit, place.line, place.col)?;
    }
    Ok(())
}

/// The bytes of a name, each as a character.
pub(crate) fn show_name(out: &mut String, name: &Name) -> Result<(), Memory> {
    for byte in name.as_bytes() {
        out.push(char::from(*byte))?;
    }
    Ok(())
}

pub(crate) fn show_range(out: &mut String, range: Range) -> Result<(), Memory> {
    write!(out, "{}..{}", range.least, range.greatest)?;
    Ok(())
}

/// The type, and the number where it is a constant.
pub(crate) fn show_facts(out: &mut String, facts: &Facts) -> Result<(), Memory> {
    match &facts.kind {
        Kind::Whole => out.push_str("whole")?,
        Kind::Text(length, _) => write!(out, "string {length}")?,
        Kind::Of(t) => show_type(out, t.get())?,
    }
    if let Some(n) = facts.number {
        write!(out, " {n}")?;
    }
    Ok(())
}

/// A type, as it might stand in a program. Before the bounds of a subrange stands its host.
#[cycle(shown_types)]
pub(crate) fn show_type(out: &mut String, t: &DbType) -> Result<(), Memory> {
    match t {
        DbType::Int => out.push_str("INTEGER")?,
        DbType::Card => out.push_str("CARDINAL")?,
        DbType::Bool => out.push_str("BOOLEAN")?,
        DbType::Char => out.push_str("CHAR")?,
        DbType::Enum(names) => show_names(out, names.as_slice())?,
        DbType::Sub(host, least, greatest) => {
            show_type(out, host.get())?;
            write!(out, "[{least}..{greatest}]")?;
        }
        DbType::Arr(index, element) => {
            out.push_str("ARRAY ")?;
            show_type(out, index.get())?;
            out.push_str(" OF ")?;
            show_type(out, element.get())?;
        }
        DbType::Rec(fields) => show_fields(out, fields.as_slice())?,
        DbType::Rel(keys, record) => {
            out.push_str("RELATION ")?;
            show_names(out, keys.as_slice())?;
            out.push_str(" OF ")?;
            show_type(out, record.get())?;
        }
    }
    Ok(())
}

#[cycle(shown_types)]
fn show_fields(out: &mut String, fields: &[Field]) -> Result<(), Memory> {
    out.push_str("RECORD")?;
    for field in fields {
        out.push_str(" ")?;
        show_name(out, &field.name)?;
        out.push_str(": ")?;
        show_type(out, &field.kind)?;
    }
    out.push_str(" END")?;
    Ok(())
}

fn show_names(out: &mut String, names: &[Name]) -> Result<(), Memory> {
    out.push_str("(")?;
    for name in names {
        show_name(out, name)?;
        out.push_str(" ")?;
    }
    out.push_str(")")?;
    Ok(())
}
