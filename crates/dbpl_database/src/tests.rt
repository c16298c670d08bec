//! Worked spellings of databases, and bytes that are the spelling of nothing.
use crate::{add_empty, read_database, write_database};
use dbpl_base::Memory;
use dbpl_codec::ReadErr;
use dbpl_value::{Field, field_of};
use std::alloc::Global;

/// RELATION n OF RECORD n: CHAR END, empty, by the name C.s
const LETTERS: &[u8] =
    b"\x03\0\0\0C.s\x15\0\0\0\x09\x01\0\0\0\x01\0\0\0n\x08\x01\0\0\0\x01\0\0\0n\x04\x04\0\0\0\0\0\0\0";

/// RELATION pos OF RECORD pos, qty: CARDINAL END with the record (1, 5), by the name D.r
const SUBS: &[u8] =
    b"\x03\0\0\0D.r\x21\0\0\0\x09\x01\0\0\0\x03\0\0\0pos\x08\x02\0\0\0\x03\0\0\0pos\x02\x03\0\0\0qty\x02\x0c\0\0\0\x01\0\0\0\x01\0\0\0\x05\0\0\0";

/// The spelling of a database of so many variables.
fn spelling(alloc: Global, count: u8, variables: [&[u8]; 2]) -> Result<Vec<u8>, Memory> {
    let mut bytes = Vec::from_slice(alloc, &[count, 0, 0, 0])?;
    for variable in variables {
        bytes.extend_from_slice(variable)?;
    }
    Ok(bytes)
}

/// The last relation variable of a database, without its relation.
fn last_field(alloc: Global, bytes: &[u8]) -> Result<Field, ReadErr> {
    let mut database = read_database(alloc, bytes)?;
    match database.pop() {
        Some(bound) => Ok(field_of(bound.name, bound.kind)),
        None => Err(ReadErr::Malformed),
    }
}

/// The spelling of the first database with the last relation variable of the second one, empty.
fn with_added(alloc: Global, bytes: &[u8], other: &[u8]) -> Result<Vec<u8>, ReadErr> {
    let mut database = read_database(alloc, bytes)?;
    let field = last_field(alloc, other)?;
    let _ = add_empty(alloc, &mut database, &field)?;
    Ok(write_database(alloc, database.as_slice())?)
}

#[test]
fn a_lesser_name_is_added_before(rt: HostRuntime) -> Result<(), ReadErr> {
    let alloc = rt.alloc();
    let subs = spelling(alloc, 1, [SUBS, b""])?;
    let letters = spelling(alloc, 1, [LETTERS, b""])?;
    let want = spelling(alloc, 2, [LETTERS, SUBS])?;
    let added = with_added(alloc, subs.as_slice(), letters.as_slice())?;
    assert_eq!(rt; added.len(), 104);
    assert!(rt; added.as_slice() == want.as_slice());
    Ok(())
}

/// Whether the bytes are read and written again the same; nothing where they spell no database.
fn again(alloc: Global, bytes: &[u8]) -> Result<bool, ReadErr> {
    let database = read_database(alloc, bytes)?;
    let written = write_database(alloc, database.as_slice())?;
    Ok(written.as_slice() == bytes)
}

#[test]
fn spellings_of_databases(rt: HostRuntime) -> Result<(), Memory> {
    let alloc = rt.alloc();
    for (count, variables, want) in [
        (0, [b"".as_slice(), b""], Ok(true)),
        (1, [SUBS, b""], Ok(true)),
        (2, [LETTERS, SUBS], Ok(true)),
        // Falling names, one name twice, a count too small and too great, and a byte left over.
        (2, [SUBS, LETTERS], Err(ReadErr::Malformed)),
        (2, [SUBS, SUBS], Err(ReadErr::Malformed)),
        (1, [LETTERS, SUBS], Err(ReadErr::Malformed)),
        (3, [LETTERS, SUBS], Err(ReadErr::Malformed)),
        (1, [SUBS, b"\0"], Err(ReadErr::Malformed)),
    ] {
        let bytes = spelling(alloc, count, variables)?;
        assert_eq!(rt; again(alloc, bytes.as_slice()), want);
    }
    Ok(())
}

/// What is read of the spelling of the second variable with another byte there.
fn with_byte(alloc: Global, at: usize, byte: u8) -> Result<bool, ReadErr> {
    let mut bytes = spelling(alloc, 1, [SUBS, b""])?;
    if let Some(place) = bytes.get_mut(at) {
        *place = byte;
    }
    again(alloc, bytes.as_slice())
}

#[test]
fn another_byte(rt: HostRuntime) -> Result<(), Memory> {
    for (at, byte, want) in [
        // Another name, and another number: other databases.
        (8, b'E', Ok(true)),
        (63, 9, Ok(true)),
        // No full stop, a digit first, a longer name, a key that is no field, another kind, and a longer relation.
        (9, b'r', Err(ReadErr::Malformed)),
        (10, b'1', Err(ReadErr::Malformed)),
        (4, 4, Err(ReadErr::Malformed)),
        (24, b'q', Err(ReadErr::Malformed)),
        (15, 8, Err(ReadErr::Malformed)),
        (48, 11, Err(ReadErr::Malformed)),
    ] {
        assert_eq!(rt; with_byte(rt.alloc(), at, byte), want);
    }
    Ok(())
}
