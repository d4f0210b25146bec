ghost use Rattle.std.specs.Prelude.{◌≡◌, None, false};

use crate::{Failed, Sink, Source};
use std::io::{Read, Write};

/// A reader of std as a source. It tells no bytes.
#[derive(Drop)]
pub struct StdSource<R> {
    inner: R,
    faults: u64,
    ended: bool,
}

impl<R: Read> StdSource<R> {
    /// A source over this reader, with no fault yet, whose end no read has shown.
    pub fn new(inner: R) -> StdSource<R>
        ensures faults { ⟦<StdSource<R> as Source>⟧.faults result ≡ 0 }
        ensures ended { ⟦<StdSource<R> as Source>⟧.ended result ≡ false }
    {
        StdSource {
            inner,
            faults: 0,
            ended: false,
        }
    }
}

impl<R: Read> Source for StdSource<R> {
    ghost left = { λ _. None };

    ghost faults = { λ s. s.faults };

    ghost ended = { λ s. s.ended };

    fn read(&mut self, buf: &mut [u8]) -> Result<usize, Failed> {
        let Ok(taken) = self.inner.read(buf) else {
            self.faults = self.faults.saturating_add(1);
            return Err(Failed);
        };
        if taken == 0 && !buf.is_empty() {
            self.ended = true;
        }
        Ok(taken)
    }
}

/// A writer of std as a sink. It tells no bytes, and doesn't flush: std's standard output keeps none back.
#[derive(Drop)]
pub struct StdSink<W> {
    inner: W,
    faults: u64,
}

impl<W: Write> StdSink<W> {
    /// A sink over this writer, with no fault yet.
    pub fn new(inner: W) -> StdSink<W>
        ensures { ⟦<StdSink<W> as Sink>⟧.faults result ≡ 0 }
    {
        StdSink { inner, faults: 0 }
    }
}

impl<W: Write> Sink for StdSink<W> {
    ghost written = { λ _. None };

    ghost faults = { λ s. s.faults };

    fn write(&mut self, piece: &[u8]) -> Result<usize, Failed> {
        let Ok(taken) = self.inner.write(piece) else {
            self.faults = self.faults.saturating_add(1);
            return Err(Failed);
        };
        if taken == 0 && !piece.is_empty() {
            self.faults = self.faults.saturating_add(1);
        }
        Ok(taken)
    }
}
