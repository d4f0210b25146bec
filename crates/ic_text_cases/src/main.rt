//! Answers the calls of the crates that know no book, a row each, as `ic_rows` says. `stdin` holds the rows and `stdout`
//! their answers. No contract speaks of this program: its rows are the cases of the crates that it calls.
#![tactic(auto)]

mod broken;
mod errors;
mod formulas;
mod lookups;
mod references;
mod scenes;
mod streams;
mod texts;
mod values;

use ic_lines::{StdSink, StdSource};
use ic_rows::{Calls, Row, answer_rows};
use ic_tables::sample_tables;
use std::process::ExitCode;

/// The calls that need no book.
#[derive(Drop)]
struct WithoutBook {}

impl Calls for WithoutBook {
    fn call(&mut self, row: &mut Row<'_>) {
        texts::call(row);
        references::call(row);
        lookups::call(row);
        formulas::call(row);
        values::call(row);
        errors::call(row);
        broken::call(row);
        streams::call(row);
    }
}

fn main(rt: HostRuntime) -> ExitCode {
    let Ok(tables) = sample_tables(rt.alloc()) else {
        return ExitCode::from(2);
    };
    let mut source = StdSource::new(rt.reader());
    let mut sink = StdSink::new(rt.stdout());
    match answer_rows(
        rt.alloc(),
        &tables,
        &mut WithoutBook {},
        &mut source,
        &mut sink,
    ) {
        Ok(()) => ExitCode::from(0),
        Err(_) => ExitCode::from(1),
    }
}
