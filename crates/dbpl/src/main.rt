//! The program: it hands the words of its command, the files and the streams to the top call, and ends with the code
//! of the status that this answers with.
#![tactic(auto)]

mod ending;
mod streams;
mod words;

use dbpl_base::Status;
use dbpl_words::note_report;
use dbpl_world::{FileShelf, RealWorld};
use ending::code_after;
use std::marker::Brand;
use std::process::ExitCode;
use std::sync::ledger::Blank;
use streams::keep_streams_open;
use words::command_words;

fn main(rt: HostRuntime) -> ExitCode {
    match keep_streams_open(&rt) {
        Ok(_stand_ins) => ExitCode::from(ended(rt)),
        Err(_) => ExitCode::from(Status::OutFault.code()),
    }
}

/// Does the command, and gives the code with which the program ends. All standard streams are open.
fn ended(rt: HostRuntime) -> u8 {
    let alloc = rt.alloc();
    let mut shelf = FileShelf::new(rt);
    let mut world = RealWorld::new(rt, rt.stdin(), rt.stdout(), rt.stderr());
    match command_words(alloc, &rt) {
        Ok(words) => code_after::<Brand, _, _>(
            alloc,
            words.as_slice(),
            &mut shelf,
            &mut world,
            Blank::new(1),
        ),
        Err(_) => {
            let _ = note_report(&Status::Memory, &mut world);
            Status::Memory.code()
        }
    }
}
