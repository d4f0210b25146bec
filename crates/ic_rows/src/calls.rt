//! Calls, and the loop that answers a row by them.
use crate::Row;
use ic_laws::Text;
use ic_lines::{Line, RunError, Sink, Source, read_lines, unescape, write_all};
use ic_tables::Tables;
use std::alloc::Global;

/// What answers rows.
pub trait Calls {
    /// Answers the call of a row, if it is one of these.
    fn call(&mut self, row: &mut Row<'_>);
}

/// Answers all lines of a source once they are read, as far as there is memory.
pub fn answer_rows<C: Calls, S: Source, K: Sink>(
    alloc: Global,
    tables: &Tables,
    calls: &mut C,
    source: &mut S,
    sink: &mut K,
) -> Result<(), RunError> {
    let lines = read_lines(alloc, source)?;
    let out = answers(alloc, tables, calls, lines.as_slice());
    write_all(sink, out.as_bytes())
}

/// The answers to all lines, as far as there is memory.
fn answers<C: Calls>(alloc: Global, tables: &Tables, calls: &mut C, lines: &[Line]) -> String {
    let mut out = String::new(alloc);
    for line in lines {
        let text = line.text().as_str();
        if !answer(alloc, tables, calls, text, &mut out) || out.push('\n').is_err() {
            break;
        }
    }
    out
}

/// Appends the answer to a line, as far as there is memory.
fn answer<C: Calls>(
    alloc: Global,
    tables: &Tables,
    calls: &mut C,
    line: &str,
    out: &mut String,
) -> bool {
    if line.starts_with('#') {
        return out.push_str(line).is_ok();
    }
    let mut words = Vec::new(alloc);
    let mut all = true;
    for word in line.split('\t') {
        all = is_added(alloc, word, &mut words) && all;
    }
    let mut row = Row::new(alloc, tables, words.as_slice());
    if all {
        calls.call(&mut row);
    }
    out.push_str(row.answer()).is_ok()
}

/// Puts the next word of a line behind the others, if it is one.
fn is_added(alloc: Global, word: &str, words: &mut Vec<Text>) -> bool {
    match unescape(alloc, word) {
        Ok(Some(text)) => words.push(text).is_ok(),
        _ => false,
    }
}
