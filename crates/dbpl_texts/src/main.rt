//! Tries texts on the scanner, the parser and the copies of trees. Each line of the input is an answer, a tabulator and
//! a text; lines without a tabulator are headings. The answer is `ok`, or a rule and the column at which the text breaks
//! it. Before it may stand what phrase the text begins with, as `expr`; then `ok` has the column at which the text goes
//! on behind the phrase. Prints each line that is answered otherwise, and in the end how many there were.
#![tactic(auto)]

mod answer;
mod kind;

use answer::{Answer, answer_to};
use kind::asked;
use std::alloc::Global;
use std::io;

fn main(rt: HostRuntime) -> io::Result<()> {
    let alloc = rt.alloc();
    let mut tried = 0u64;
    let mut differing = 0u64;
    for line in rt.lines(alloc) {
        let line = line?;
        let Some((expected, text)) = line.split_once('\t') else {
            continue;
        };
        tried = tried.saturating_add(1);
        let (kind, wanted) = asked(expected);
        let answer = answer_to(alloc, kind, text);
        if !is_expected(alloc, &answer, wanted)? {
            differing = differing.saturating_add(1);
            println!(rt; "{answer} in place of {expected}: {text}")?;
        }
    }
    println!(rt; "{tried} texts, {differing} answered otherwise")
}

/// Whether the answer reads so.
fn is_expected(alloc: Global, answer: &Answer, expected: &str) -> io::Result<bool> {
    let answer = format!(in alloc; "{answer}")?;
    Ok(answer.as_str() == expected)
}
