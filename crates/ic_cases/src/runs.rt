//! Whole runs over bytes in memory: those of the programs, by their words, and that of the book.
use crate::books::Books;
use crate::raw::{bytes_in, put_text};
use ic_audit::audit_desk;
use ic_book::Model;
use ic_dump::dump_desk;
use ic_import::import_desk;
use ic_lines::{MemorySink, MemorySource, RunError, Sink, Source, SteadySink, SteadySource};
use ic_rows::Row;
use ic_run::{desk, run};
use ic_share::{share, share_desk};
use jiff::Timestamp;

/// `desk`, the program's words with `|` between two, the input, the most bytes of a read, the number of the read that
/// fails, the room of the sink, and the number of the write that fails, 0 for none: the status, and what was written.
/// `audit`, `dump`, `share` and `import`, likewise of `audit_desk`, `dump_desk`, `share_desk` and `import_desk`.
/// `run`, the same without words, on the book of the last `new_empty`: `ok` and the number of lines or the error, and
/// what was written. `shared`, likewise of `share`. `steady`, the input and the room of the sink: a run on that book over a
/// source and a sink that fail at no read and no write. The input of `share`, `import` and `shared` is bytes as `raw` says
/// them.
pub fn call(row: &mut Row<'_>, books: &mut Books<'_>) {
    match row.name {
        "desk" | "audit" | "dump" | "share" | "import" => {
            let words = words_in(row, row.word(1));
            row.skip(2);
            with_input(row, books, words.as_slice());
        }
        "run" | "shared" => {
            row.skip(1);
            with_input(row, books, &[]);
        }
        "steady" => put_steady(row, books),
        _ => {}
    }
}

/// The program's words.
fn words_in(row: &mut Row<'_>, text: &str) -> Vec<String> {
    let mut words = Vec::new(row.alloc);
    if !text.is_empty() {
        for word in text.split('|') {
            let word = row.string(word);
            row.done(words.push(word).is_ok());
        }
    }
    words
}

/// The input stands at the front of the row: a text, or bytes.
fn with_input(row: &mut Row<'_>, books: &mut Books<'_>, words: &[String]) {
    let text = row.word(0);
    match row.name {
        "share" | "import" | "shared" => {
            let bytes = bytes_in(row, text);
            with_source(row, books, words, bytes.as_slice());
        }
        _ => with_source(row, books, words, text.as_bytes()),
    }
}

/// Behind the input stands what the source does, and then the sink.
fn with_source(row: &mut Row<'_>, books: &mut Books<'_>, words: &[String], input: &[u8]) {
    let (chunk, read) = (row.size(1), u64::from(row.index(2)));
    match MemorySource::new(row.alloc, input, chunk.max(1), &[read]) {
        Ok(mut source) => with_sink(row, books, words, &mut source),
        Err(_) => row.bad(),
    }
}

fn with_sink(
    row: &mut Row<'_>,
    books: &mut Books<'_>,
    words: &[String],
    source: &mut MemorySource,
) {
    let (room, write) = (row.size(3), u64::from(row.index(4)));
    match MemorySink::new(row.alloc, room, &[write]) {
        Ok(mut sink) => {
            put_answered(row, books, words, source, &mut sink);
            put_written(row, sink.bytes());
        }
        Err(_) => row.bad(),
    }
}

/// A tab, and what was written.
fn put_written(row: &mut Row<'_>, bytes: &[u8]) {
    row.tab();
    match str::from_utf8(bytes) {
        Ok(text) => put_text(row, text),
        Err(_) => row.bad(),
    }
}

fn put_steady(row: &mut Row<'_>, books: &mut Books<'_>) {
    let mut source = SteadySource::new(row.word(1).as_bytes());
    match SteadySink::new(row.alloc, row.size(2)) {
        Ok(mut sink) => {
            match &mut books.book {
                Some(model) => put_on_book(row, model, &mut source, &mut sink),
                None => row.bad(),
            }
            put_written(row, sink.bytes());
        }
        Err(_) => row.bad(),
    }
}

/// What the call answers.
fn put_answered(
    row: &mut Row<'_>,
    books: &mut Books<'_>,
    words: &[String],
    source: &mut MemorySource,
    sink: &mut MemorySink,
) {
    let (alloc, tables, moment) = (row.alloc, row.tables, Timestamp::UNIX_EPOCH);
    match row.name {
        "desk" => put_status(row, desk(alloc, words, tables, moment, source, sink)),
        "audit" => put_status(row, audit_desk(alloc, words, tables, moment, source, sink)),
        "dump" => put_status(row, dump_desk(alloc, words, tables, moment, source, sink)),
        "share" => put_status(row, share_desk(alloc, words, tables, moment, source, sink)),
        "import" => put_status(row, import_desk(alloc, words, tables, moment, source, sink)),
        _ => match &mut books.book {
            Some(model) => put_on_book(row, model, source, sink),
            None => row.bad(),
        },
    }
}

fn put_status(row: &mut Row<'_>, status: u8) {
    row.put_number(i128::from(status));
}

/// What `run` or `share` answers on a book.
fn put_on_book<S: Source, K: Sink>(
    row: &mut Row<'_>,
    model: &mut Model<'_>,
    source: &mut S,
    sink: &mut K,
) {
    let answer = match row.name {
        "shared" => share(row.alloc, model, source, sink),
        _ => run(row.alloc, model, source, sink),
    };
    put_counted(row, answer);
}

fn put_counted(row: &mut Row<'_>, answer: Result<u64, RunError>) {
    match answer {
        Ok(count) => {
            row.put("ok\t");
            row.put_number(i128::from(count));
        }
        Err(e) => {
            row.put("error\t");
            row.put_made(e.to_string(row.alloc));
        }
    }
}
