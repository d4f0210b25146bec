//! The program of `ic_desk`, with the tables of all functions.
#![tactic(auto)]

use ic_functions::all_tables;
use ic_lines::{StdSink, StdSource};
use ic_run::{desk, moment, words_given};
use std::process::ExitCode;

/// The status where memory runs out.
const NO_MEMORY: u8 = 6;

fn main(rt: HostRuntime) -> ExitCode {
    ExitCode::from(status(&rt))
}

/// Runs `desk` over the standard streams with the words that the program was given.
fn status(rt: &HostRuntime) -> u8 {
    let alloc = rt.alloc();
    let words = match words_given(rt) {
        Ok(words) => words,
        Err(status) => return status,
    };
    let Ok(tables) = all_tables(alloc) else {
        return NO_MEMORY;
    };
    let mut source = StdSource::new(rt.stdin());
    let mut sink = StdSink::new(rt.stdout());
    desk(
        alloc,
        words.as_slice(),
        &tables,
        moment(rt),
        &mut source,
        &mut sink,
    )
}
