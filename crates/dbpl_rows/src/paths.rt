//! Questions about paths. A part names a path by words with blanks between them: `f0` is the step to the first field,
//! `i2` that to the third element, and `k7,8` that to the record with this key.
use crate::answer::{Answer, whether};
use crate::failure::Failure;
use crate::notation::number_in;
use crate::parts::Parts;
use crate::types::type_in;
use crate::values::{spelt, value_in};
use dbpl_base::List;
use dbpl_value::{PathErr, Step, Value, at_path, copy, equal, number_of, put_path};
use std::alloc::Global;

fn path_in(alloc: Global, parts: &Parts, at: usize) -> Result<List<Step>, Failure> {
    let mut path = List::new(alloc);
    for word in parts.text(at)?.split(' ') {
        path.push(step(alloc, word)?)?;
    }
    Ok(path)
}

fn step(alloc: Global, word: &str) -> Result<Step, Failure> {
    if let Some(digits) = word.strip_prefix('f') {
        return Ok(Step::Field(number_in(digits)?));
    }
    if let Some(digits) = word.strip_prefix('i') {
        return Ok(Step::Index(number_in(digits)?));
    }
    let Some(numbers) = word.strip_prefix('k') else {
        return Err(Failure::Unreadable);
    };
    let mut key = List::new(alloc);
    for digits in numbers.split(',') {
        key.push(Value::Num(i64::from(number_in(digits)?)))?;
    }
    Ok(Step::Key(key))
}

fn refused(refusal: PathErr) -> Answer {
    match refusal {
        PathErr::Index(step) => Answer::At("index", step),
        PathErr::NoElement(step) => Answer::At("no element", step),
    }
}

/// The number at the end of a path into a value.
pub(crate) fn at(alloc: Global, parts: &Parts) -> Result<Answer, Failure> {
    let t = type_in(alloc, parts, 0)?;
    let v = value_in(alloc, &t, parts, 1)?;
    let path = path_in(alloc, parts, 2)?;
    match at_path(&t, &v, path.as_slice()) {
        Ok(part) => Ok(Answer::At("number", number_of(part).unsigned_abs())),
        Err(refusal) => Ok(refused(refusal)),
    }
}

/// The value with another part at the end of a path. Where the path leads nowhere the value stays as it is.
pub(crate) fn put(alloc: Global, parts: &Parts) -> Result<Answer, Failure> {
    let t = type_in(alloc, parts, 0)?;
    let mut v = value_in(alloc, &t, parts, 1)?;
    let before = copy(alloc, &v)?;
    let path = path_in(alloc, parts, 2)?;
    let part = type_in(alloc, parts, 3)?;
    let new = value_in(alloc, &part, parts, 4)?;
    match put_path(&t, &mut v, path.as_slice(), new) {
        Ok(()) => spelt(alloc, &t, &v),
        Err(refusal) if equal(&v, &before) => Ok(refused(refusal)),
        Err(_) => Ok(whether(false)),
    }
}
