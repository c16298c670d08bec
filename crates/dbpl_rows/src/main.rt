//! Asks the crates questions, each of which is a line of the input: the kind of the question, a tabulator, the wanted
//! answer, a tabulator, and what is asked about, in the notation of `notation.rt`. Lines without two tabulators are
//! headings. Memory is ample, so a call that gives up at some size is answered otherwise there. Prints each line that is
//! answered otherwise, and in the end how many there were.
#![tactic(auto)]

mod answer;
mod commands;
mod failure;
mod forms;
mod keys;
mod notation;
mod parts;
mod paths;
mod questions;
mod random;
mod relations;
mod stores;
mod types;
mod values;

use answer::is_wanted;
use questions::answer_to;
use std::alloc::Global;
use std::io;

fn main(rt: HostRuntime) -> io::Result<()> {
    let alloc = rt.alloc();
    let mut tried = 0u64;
    let mut differing = 0u64;
    for line in rt.lines(alloc) {
        let line = line?;
        let Some((kind, wanted, input)) = row_in(line.as_str()) else {
            continue;
        };
        tried = tried.saturating_add(1);
        if !is_answered(alloc, kind, wanted, input) {
            differing = differing.saturating_add(1);
            println!(rt; "{kind} is not {wanted}: {input}")?;
        }
    }
    println!(rt; "{tried} rows, {differing} answered otherwise")
}

/// The kind of a row, the wanted answer, and what is asked about.
fn row_in(line: &str) -> Option<(&str, &str, &str)> {
    let (kind, behind) = line.split_once('\t')?;
    let (wanted, input) = behind.split_once('\t')?;
    Some((kind, wanted, input))
}

/// Whether the row has the wanted answer.
fn is_answered(alloc: Global, kind: &str, wanted: &str, input: &str) -> bool {
    let answer = answer_to(alloc, kind, input);
    match is_wanted(alloc, &answer, wanted) {
        Ok(is) => is,
        Err(_) => false,
    }
}
