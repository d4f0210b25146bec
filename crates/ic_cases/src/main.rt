//! Answers the calls of a book and of the crates above it, a row each, as `ic_rows` says. What knows no book is answered by
//! `ic_text_cases`. `new_empty` begins a book, and `line` answers a command line on it. What no command line reaches has a
//! call of its own. `stdin` holds the rows and `stdout` their answers. No contract speaks of this program: its rows are the
//! cases of the crates that it calls.
#![tactic(auto)]

mod books;
mod dumps;
mod errors;
mod handed_in;
mod imports;
mod names;
mod pools;
mod raw;
mod runs;
mod workbooks;

use books::Books;
use ic_lines::{StdSink, StdSource};
use ic_rows::{Calls, Row, answer_rows};
use ic_tables::sample_tables;
use std::process::ExitCode;

impl Calls for Books<'_> {
    fn call(&mut self, row: &mut Row<'_>) {
        errors::call(row);
        runs::call(row, self);
        dumps::call(row);
        imports::call(row, self);
        books::call(row, self);
        pools::call(row, self);
        names::call(row, self);
    }
}

fn main(rt: HostRuntime) -> ExitCode {
    let Ok(tables) = sample_tables(rt.alloc()) else {
        return ExitCode::from(2);
    };
    let mut books = Books::new(&tables);
    let mut source = StdSource::new(rt.reader());
    let mut sink = StdSink::new(rt.stdout());
    match answer_rows(rt.alloc(), &tables, &mut books, &mut source, &mut sink) {
        Ok(()) => ExitCode::from(0),
        Err(_) => ExitCode::from(1),
    }
}
