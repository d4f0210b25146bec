//! Dumps that are run again.
use crate::raw::put_text;
use ic_dump::dump_desk;
use ic_lines::{SteadySink, SteadySource};
use ic_rows::Row;
use ic_run::desk;
use jiff::Timestamp;

/// The bytes that a sink has room for.
const ROOM: usize = 1 << 20;

/// `dumped`, command lines, and others that ask: the status of `dump_desk` over the first, how many of the lines that it writes a
/// new book doesn't accept, and its replies to the others after them.
pub fn call(row: &mut Row<'_>) {
    if row.name == "dumped" {
        put_dumped(row);
    }
}

fn put_dumped(row: &mut Row<'_>) {
    let mut lines = dump_of(row, row.word(1));
    let count = lines.as_str().split('\n').count().saturating_sub(1);
    row.done(lines.push_str(row.word(2)).is_ok());
    let replies = replies_to(row, lines.as_str());
    put_replies(row, count, replies.as_str());
}

/// What `dump_desk` writes over these lines; its status is put.
fn dump_of(row: &mut Row<'_>, lines: &str) -> String {
    let mut source = SteadySource::new(lines.as_bytes());
    match SteadySink::new(row.alloc, ROOM) {
        Ok(mut sink) => {
            let (alloc, tables, moment) = (row.alloc, row.tables, Timestamp::UNIX_EPOCH);
            let status = dump_desk(alloc, &[], tables, moment, &mut source, &mut sink);
            row.put_number(i128::from(status));
            text_of(row, sink.bytes())
        }
        Err(_) => nothing(row),
    }
}

/// The replies of a new book to these lines.
fn replies_to(row: &mut Row<'_>, lines: &str) -> String {
    let mut source = SteadySource::new(lines.as_bytes());
    match SteadySink::new(row.alloc, ROOM) {
        Ok(mut sink) => {
            let (alloc, tables, moment) = (row.alloc, row.tables, Timestamp::UNIX_EPOCH);
            let status = desk(alloc, &[], tables, moment, &mut source, &mut sink);
            row.done(status == 0);
            text_of(row, sink.bytes())
        }
        Err(_) => nothing(row),
    }
}

fn text_of(row: &mut Row<'_>, bytes: &[u8]) -> String {
    match str::from_utf8(bytes) {
        Ok(text) => row.string(text),
        Err(_) => nothing(row),
    }
}

fn nothing(row: &mut Row<'_>) -> String {
    row.bad();
    String::new(row.alloc)
}

/// How many of the first so many replies aren't `ok`, and the text of the others.
fn put_replies(row: &mut Row<'_>, count: usize, replies: &str) {
    let mut others = String::new(row.alloc);
    let mut refused: u64 = 0;
    for (index, reply) in replies.split('\n').enumerate() {
        if index >= count {
            let is_put = (index == count || others.push('\n').is_ok())
                && others.push_str(reply).is_ok();
            row.done(is_put);
        } else if reply != "ok" && !reply.starts_with("ok\t") {
            refused = refused.saturating_add(1);
        }
    }
    row.tab();
    row.put_number(i128::from(refused));
    row.tab();
    put_text(row, others.as_str());
}
