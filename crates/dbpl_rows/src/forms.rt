//! Questions about texts: the units that they spell, and the program over a store that two of them are.
use crate::answer::Answer;
use crate::failure::Failure;
use crate::parts::Parts;
use dbpl_base::limits::TEXT_BYTES;
use dbpl_codec::write_type;
use dbpl_front::{FrontErr, unit_in};
use dbpl_stored_form::read_stored;
use dbpl_stored_program::{Action, Insertion, StoredProgram};
use std::alloc::Global;
use std::fmt::Write;

fn refused(refusal: FrontErr) -> Result<Answer, Failure> {
    match refusal {
        FrontErr::Refused(refusal) => Ok(Answer::Refused(refusal)),
        FrontErr::Memory => Err(Failure::Memory),
    }
}

/// Whether the text spells a unit, or the rule that it breaks.
pub(crate) fn is_unit(alloc: Global, parts: &Parts) -> Result<Answer, Failure> {
    let text = parts.get(0)?;
    if text.len() > TEXT_BYTES as usize {
        return Err(Failure::Unreadable);
    }
    match unit_in(alloc, 0, text) {
        Ok(_) => Ok(Answer::Word("ok")),
        Err(refusal) => refused(refusal),
    }
}

/// The program that the texts of a database module and a program are.
fn program_in(alloc: Global, parts: &Parts) -> Result<Result<StoredProgram, FrontErr>, Failure> {
    let schema = parts.get(0)?;
    let program = parts.get(1)?;
    if schema.len() > TEXT_BYTES as usize || program.len() > TEXT_BYTES as usize {
        return Err(Failure::Unreadable);
    }
    Ok(read_stored(alloc, schema, program))
}

/// Whether two texts are such a program, or the rule that they break.
pub(crate) fn is_form(alloc: Global, parts: &Parts) -> Result<Answer, Failure> {
    match program_in(alloc, parts)? {
        Ok(_) => Ok(Answer::Word("ok")),
        Err(refusal) => refused(refusal),
    }
}

/// The relation variable of the program: its name, and its descriptor.
pub(crate) fn relation(alloc: Global, parts: &Parts) -> Result<Answer, Failure> {
    match program_in(alloc, parts)? {
        Ok(program) => {
            let mut bytes = Vec::from_slice(alloc, program.relation.name.as_bytes())?;
            write_type(&program.relation.kind, &mut bytes)?;
            Ok(Answer::Bytes(bytes))
        }
        Err(refusal) => refused(refusal),
    }
}

/// The insertions of the program, each with the places of its operator and of its set.
pub(crate) fn insertions(alloc: Global, parts: &Parts) -> Result<Answer, Failure> {
    match program_in(alloc, parts)? {
        Ok(program) => {
            let mut text = String::new(alloc);
            for insertion in program.insertions.as_slice() {
                append_insertion(insertion, &mut text)?;
            }
            Ok(Answer::Bytes(text.into_bytes()))
        }
        Err(refusal) => refused(refusal),
    }
}

fn append_insertion(insertion: &Insertion, text: &mut String) -> Result<(), Failure> {
    let (place, set_place) = (insertion.place, insertion.set_place);
    write!(text, "{}:{}", place.unit, place.line)?;
    write!(text, ":{} {}", place.col, set_place.unit)?;
    write!(text, ":{}:{} ", set_place.line, set_place.col)?;
    for row in insertion.rows.as_slice() {
        write!(text, "{:?}", row.as_slice())?;
    }
    write!(text, "; ")?;
    Ok(())
}

/// The actions of the program's body.
pub(crate) fn body(alloc: Global, parts: &Parts) -> Result<Answer, Failure> {
    match program_in(alloc, parts)? {
        Ok(program) => {
            let mut bytes = Vec::new(alloc);
            for action in program.body.as_slice() {
                append_action(action, &mut bytes)?;
            }
            Ok(Answer::Bytes(bytes))
        }
        Err(refusal) => refused(refusal),
    }
}

fn append_action(action: &Action, bytes: &mut Vec<u8>) -> Result<(), Failure> {
    match action {
        Action::Transact => bytes.extend_from_slice(b"transact; ")?,
        Action::WriteLn => bytes.extend_from_slice(b"line; ")?,
        Action::WriteString(text) => {
            bytes.extend_from_slice(b"write ")?;
            bytes.extend_from_slice(text.as_bytes())?;
            bytes.extend_from_slice(b"; ")?;
        }
    }
    Ok(())
}
