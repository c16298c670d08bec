// The words of the command, as bytes: a word needn't be UTF-8.
use dbpl_base::{List, Memory, Name};
use std::alloc::Global;
use std::env::{Env, FillError};

/// The words behind the program's name.
pub fn command_words(alloc: Global, rt: &impl Env) -> Result<List<Name>, Memory> {
    let mut words = List::new(alloc);
    for position in 1..usize::MAX {
        match word_at(alloc, rt, position)? {
            Some(word) => words.push(word)?,
            None => break,
        }
    }
    Ok(words)
}

/// The word at this position, or nothing behind the last one.
fn word_at(alloc: Global, rt: &impl Env, position: usize) -> Result<Option<Name>, Memory> {
    for doubled in 8u32..63 {
        let mut word = vec![in alloc; 0; 1usize << doubled]?;
        match rt.arg(position, word.as_mut_slice()) {
            Ok(count) => {
                word.truncate(count);
                return Ok(Some(Name::from_vec(word)));
            }
            Err(FillError::NotPresent) => return Ok(None),
            Err(FillError::TooLong) => {}
        }
    }
    Err(Memory)
}
