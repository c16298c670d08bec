//! Tries expressions on the rules. Each line of the input is an answer, a tabulator and an expression, which is judged
//! over the scope of `declarations.rt`; lines without a tabulator are headings. The answer is the rule that the
//! expression breaks first and the column; `silent` where it breaks none and a name in it was refused; or `ok` and, as
//! far as the line says, what is known of it (its type and number, then its place) and its resolved form. Prints each
//! line that is answered otherwise, and in the end how many there were.
#![tactic(auto)]

mod answer;
mod declarations;
mod modules;
mod notation;
mod routines;
mod shown;
mod types;

use answer::answer_to;
use std::alloc::Global;
use std::io;

fn main(rt: HostRuntime) -> io::Result<()> {
    let alloc = rt.alloc();
    let mut tried = 0u64;
    let mut differing = 0u64;
    for line in rt.lines(alloc) {
        let line = line?;
        let Some((expected, text)) = line.split_once('\t') else {
            continue;
        };
        tried = tried.saturating_add(1);
        let answer = answered(alloc, text)?;
        if !begins_with(answer.as_str(), expected) {
            differing = differing.saturating_add(1);
            println!(rt; "{answer} in place of {expected}: {text}")?;
        }
    }
    println!(rt; "{tried} expressions, {differing} answered otherwise")
}

/// The answer to an expression, or that memory was wanting.
fn answered(alloc: Global, text: &str) -> io::Result<String> {
    match answer_to(alloc, text) {
        Ok(answer) => Ok(answer),
        Err(_) => Ok(String::from_str(alloc, "out of memory")?),
    }
}

/// Whether the answer is the expected one, or goes on behind it with a word more.
fn begins_with(answer: &str, expected: &str) -> bool {
    match answer.strip_prefix(expected) {
        Some(rest) => rest.is_empty() || rest.starts_with(' ') || rest.starts_with(','),
        None => false,
    }
}
