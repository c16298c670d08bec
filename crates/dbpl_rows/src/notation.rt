//! The notation in which rows name bytes. A part is a row of items with blanks between them: `0a` is a byte, `` `pos` ``
//! are the bytes of a text, and `#5` is a number as a word of four bytes, the least first. `*3[..]` is what stands in
//! the brackets, three times; in there `#@` is the number of the turn as a word, from 0 on, and `@` the same in four
//! digits. Brackets don't stand in brackets, nor `]` in a text there.
use crate::failure::Failure;
use std::alloc::Global;

#[derive(Clone, Copy)]
enum Item<'a> {
    Byte(u8),
    Text(&'a str),
    Number(u32),
    TurnNumber,
    TurnDigits,
    Times(u32, &'a str),
}

/// The bytes that a part names.
pub(crate) fn bytes_of(alloc: Global, part: &str) -> Result<Vec<u8>, Failure> {
    let mut bytes = Vec::new(alloc);
    let mut rest = part.trim();
    for _item in 0..part.len() {
        if rest.is_empty() {
            break;
        }
        let (item, behind) = first_item(rest)?;
        match item {
            Item::Times(count, body) => repeat(alloc, count, body, &mut bytes)?,
            _ => append(alloc, item, 0, &mut bytes)?,
        }
        rest = behind.trim_start();
    }
    Ok(bytes)
}

/// Appends so many turns of a body.
fn repeat(alloc: Global, count: u32, body: &str, bytes: &mut Vec<u8>) -> Result<(), Failure> {
    if body.contains('@') {
        for turn in 0..count {
            append_turn(alloc, body, turn, bytes)?;
        }
        return Ok(());
    }
    let mut once = Vec::new(alloc);
    append_turn(alloc, body, 0, &mut once)?;
    for _turn in 0..count {
        bytes.extend_from_slice(once.as_slice())?;
    }
    Ok(())
}

/// Appends one turn of a body.
fn append_turn(alloc: Global, body: &str, turn: u32, bytes: &mut Vec<u8>) -> Result<(), Failure> {
    let mut rest = body.trim();
    for _item in 0..body.len() {
        if rest.is_empty() {
            break;
        }
        let (item, behind) = first_item(rest)?;
        append(alloc, item, turn, bytes)?;
        rest = behind.trim_start();
    }
    Ok(())
}

fn append(alloc: Global, item: Item, turn: u32, bytes: &mut Vec<u8>) -> Result<(), Failure> {
    match item {
        Item::Byte(byte) => bytes.push(byte)?,
        Item::Text(text) => bytes.extend_from_slice(text.as_bytes())?,
        Item::Number(number) => bytes.extend_from_slice(&number.to_le_bytes())?,
        Item::TurnNumber => bytes.extend_from_slice(&turn.to_le_bytes())?,
        Item::TurnDigits => {
            let digits = format!(in alloc; "{turn:04}")?;
            bytes.extend_from_slice(digits.as_bytes())?;
        }
        Item::Times(_, _) => return Err(Failure::Unreadable),
    }
    Ok(())
}

/// The first item, and what stands behind it.
fn first_item(rest: &str) -> Result<(Item<'_>, &str), Failure> {
    if let Some(behind) = rest.strip_prefix('`') {
        let (text, behind) = split_at(behind, '`')?;
        return Ok((Item::Text(text), behind));
    }
    if let Some(behind) = rest.strip_prefix('*') {
        return times(behind);
    }
    let (word, behind) = rest.split_once(' ').unwrap_or((rest, ""));
    Ok((word_item(word)?, behind))
}

fn split_at(rest: &str, mark: char) -> Result<(&str, &str), Failure> {
    rest.split_once(mark).ok_or(Failure::Unreadable)
}

fn times(rest: &str) -> Result<(Item<'_>, &str), Failure> {
    let (count, behind) = split_at(rest, '[')?;
    let (body, behind) = split_at(behind, ']')?;
    Ok((Item::Times(number_in(count)?, body), behind))
}

fn word_item(word: &str) -> Result<Item<'static>, Failure> {
    if word == "#@" {
        return Ok(Item::TurnNumber);
    }
    if word == "@" {
        return Ok(Item::TurnDigits);
    }
    if let Some(digits) = word.strip_prefix('#') {
        return Ok(Item::Number(number_in(digits)?));
    }
    match u8::from_str_radix(word, 16) {
        Ok(byte) => Ok(Item::Byte(byte)),
        Err(_) => Err(Failure::Unreadable),
    }
}

pub(crate) fn number_in(digits: &str) -> Result<u32, Failure> {
    match digits.parse::<u32>() {
        Ok(number) => Ok(number),
        Err(_) => Err(Failure::Unreadable),
    }
}
