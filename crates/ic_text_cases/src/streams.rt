//! Readers and writers of std that fail, as sources and sinks.
use ic_lines::{Line, LineReader, RunError, StdSink, StdSource, write_all};
use ic_rows::Row;
use std::io::{self, Read, Write};

/// A reader that gives three bytes, fails, and gives them again; and a writer that takes all, then nothing, and then fails.
#[derive(Drop)]
struct Faulty {
    calls: u64,
}

impl Read for Faulty {
    fn read(&mut self, buf: &mut [u8]) -> io::Result<usize> {
        self.calls = self.calls.saturating_add(1);
        if self.calls == 2 {
            return Err(io::Error::from(io::ErrorKind::WouldBlock));
        }
        let taken = buf.len().min(3);
        buf[..taken].copy_from_slice(&b"a\nb"[..taken]);
        Ok(taken)
    }
}

impl Write for Faulty {
    fn write(&mut self, buf: &[u8]) -> io::Result<usize> {
        self.calls = self.calls.saturating_add(1);
        match self.calls {
            1 => Ok(buf.len()),
            2 => Ok(0),
            _ => Err(io::Error::from(io::ErrorKind::WouldBlock)),
        }
    }

    fn flush(&mut self) -> io::Result<()> {
        Ok(())
    }
}

/// `std_source`: what three calls of `next_line` answer over a reader that gives `a`, a line feed and `b`, fails at its second
/// call, and gives the same again; each a line or an error. `std_sink`: what three writes answer over a writer that takes
/// all, then nothing, and then fails.
pub fn call(row: &mut Row<'_>) {
    match row.name {
        "std_source" => put_lines(row),
        "std_sink" => put_writes(row),
        _ => {}
    }
}

fn put_lines(row: &mut Row<'_>) {
    let mut source = StdSource::new(Faulty { calls: 0 });
    let mut reader = LineReader::new(row.alloc);
    for _ in 0..3 {
        put_line(row, reader.next_line(&mut source));
    }
}

/// A line, `none` at the end, or an error, and a tab.
fn put_line(row: &mut Row<'_>, line: Result<Option<Line>, RunError>) {
    match line {
        Ok(Some(line)) => row.put_text(line.text().as_str()),
        Ok(None) => row.none(),
        Err(e) => row.put_made(e.to_string(row.alloc)),
    }
    row.tab();
}

fn put_writes(row: &mut Row<'_>) {
    let mut sink = StdSink::new(Faulty { calls: 0 });
    for _ in 0..3 {
        match write_all(&mut sink, b"ok\n") {
            Ok(()) => row.put("ok"),
            Err(e) => row.put_made(e.to_string(row.alloc)),
        }
        row.tab();
    }
}
