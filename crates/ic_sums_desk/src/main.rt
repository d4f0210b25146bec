//! The program: the values of the formulas in the book that command lines leave. `sums_desk` of `ic_sums` says what it
//! does with its words.
#![tactic(auto)]

use ic_lines::{StdSink, StdSource};
use ic_run::{moment, words_given};
use ic_sums::sums_desk;
use ic_tables::sample_tables;
use std::process::ExitCode;

/// The status where memory runs out.
const NO_MEMORY: u8 = 6;

fn main(rt: HostRuntime) -> ExitCode {
    ExitCode::from(status(&rt))
}

/// Runs `sums_desk` over the standard streams with the words that the program was given.
fn status(rt: &HostRuntime) -> u8 {
    let alloc = rt.alloc();
    let words = match words_given(rt) {
        Ok(words) => words,
        Err(status) => return status,
    };
    let Ok(tables) = sample_tables(alloc) else {
        return NO_MEMORY;
    };
    let mut source = StdSource::new(rt.stdin());
    let mut sink = StdSink::new(rt.stdout());
    sums_desk(
        alloc,
        words.as_slice(),
        &tables,
        moment(rt),
        &mut source,
        &mut sink,
    )
}
