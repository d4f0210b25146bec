ghost use Rattle.std.specs.Prelude.{◌≡◌, ◌+◌, ◌++◌, ◌≤◌, Some, drop, length, take, vec_len, IfOk, OnOk, OnErr, [], ◌<◌, ◌⊎◌, false};
ghost use Rattle.ic_lines.specs.Bytes.{MovesRead, MovesWritten, HasFault, ShowsEnd};
ghost use Rattle.ic_lines.specs.Memory.{after_read, after_write};

use crate::{Failed, Sink, Source};
use ic_laws::OutOfMemory;
use std::alloc::Global;
use std::marker::Model;

/// A source over bytes in memory. It gives at most `chunk` bytes a read, and fails at the calls that it was told.
pub struct MemorySource {
    bytes: Vec<u8>,
    at: usize,
    chunk: usize,
    calls: u64,
    failing: Vec<u64>,
    faults: u64,
    ended: bool,
}

impl Drop for MemorySource {
    fn drop(self) {
        let Self {
            bytes,
            at: _,
            chunk: _,
            calls: _,
            failing,
            faults: _,
            ended: _,
        } = self;
        drop(bytes);
        drop(failing);
    }
}

impl Model for MemorySource {
    ghost use Rattle.std.specs.Prelude.{◌≤◌, drop, vec_len};
    ghost use Rattle.ic_lines.specs.Memory.{SourceState};

    ghost Value = { SourceState };

    ghost view = { λ s. record { left = drop s.at s.bytes.items; chunk = s.chunk; calls = s.calls; failing = s.failing.items; faults = s.faults; ended = s.ended } };

    ghost invariant = { λ s. (s.at ≤ vec_len s.bytes) × (1 ≤ s.chunk) };
}

impl MemorySource {
    /// A source that has these bytes left and was never read. It fails exactly at the calls that `failing` numbers,
    /// from 1 on.
    pub fn new(
        alloc: Global,
        bytes: &[u8],
        chunk: usize,
        failing: &[u64],
    ) -> Result<MemorySource, OutOfMemory>
        requires { 1 ≤ chunk }
        ensures { IfOk result (λ s. s ≡ record {
          left = bytes.now;
          chunk = chunk;
          calls = 0;
          failing
              = failing.now;
          faults = 0;
          ended = false;
        }) }
    {
        Ok(MemorySource {
            bytes: Vec::from_slice(alloc, bytes)?,
            at: 0,
            chunk,
            calls: 0,
            failing: Vec::from_slice(alloc, failing)?,
            faults: 0,
            ended: false,
        })
    }
}

impl Source for MemorySource {
    ghost left = { λ s. Some s.left };

    ghost faults = { λ s. s.faults };

    ghost ended = { λ s. s.ended };

    fn read(&mut self, buf: &mut [u8]) -> Result<usize, Failed>
        ensures within { IfOk result (λ n. n ≤ length buf.new) }
        ensures moved { MovesRead (Some self.old.left) (Some self.new.left) result buf.new }
        ensures counted { self.old.faults ≤ self.new.faults }
        ensures cause { OnErr result (HasFault self.old.faults self.new.faults) }
        ensures quiet { OnOk result (self.new.faults ≡ self.old.faults) }
        ensures end { ShowsEnd self.old.ended self.new.ended result (length buf.new) }
        ensures exact { (result, self.new) ≡ after_read self.old (length buf.new) }
    {
        self.calls = self.calls.saturating_add(1);
        if self.failing.contains(&self.calls) {
            self.faults = self.faults.saturating_add(1);
            return Err(Failed);
        }
        let rest = &self.bytes[self.at..];
        let taken = self.chunk.min(buf.len()).min(rest.len());
        buf[..taken].copy_from_slice(&rest[..taken]);
        self.at += taken;
        if taken == 0 && !buf.is_empty() {
            self.ended = true;
        }
        Ok(taken)
    }
}

/// A sink into memory of a fixed size. It fails at the calls that it was told, and takes nothing once it is full.
pub struct MemorySink {
    buffer: Vec<u8>,
    used: usize,
    calls: u64,
    failing: Vec<u64>,
    faults: u64,
}

impl Drop for MemorySink {
    fn drop(self) {
        let Self {
            buffer,
            used: _,
            calls: _,
            failing,
            faults: _,
        } = self;
        drop(buffer);
        drop(failing);
    }
}

impl Model for MemorySink {
    ghost use Rattle.std.specs.Prelude.{◌≤◌, take, vec_len};
    ghost use Rattle.ic_lines.specs.Memory.{SinkState};

    ghost Value = { SinkState };

    ghost view = { λ s. record { written = take s.used s.buffer.items; size = vec_len s.buffer; calls = s.calls; failing = s.failing.items; faults = s.faults } };

    ghost invariant = { λ s. s.used ≤ vec_len s.buffer };
}

impl MemorySink {
    /// A sink with room for `size` bytes, all of them taken now. It fails exactly at the calls that `failing`
    /// numbers, from 1 on.
    pub fn new(alloc: Global, size: usize, failing: &[u64]) -> Result<MemorySink, OutOfMemory>
        ensures { IfOk result (λ s. s ≡ record {
          written = [];
          size = size;
          calls = 0;
          failing
              = failing.now;
          faults = 0;
        }) }
    {
        Ok(MemorySink {
            buffer: vec![in alloc; 0; size]?,
            used: 0,
            calls: 0,
            failing: Vec::from_slice(alloc, failing)?,
            faults: 0,
        })
    }

    /// What was written.
    pub fn bytes(&self) -> &[u8]
        ensures { result.now ≡ self.now.written }
    {
        &self.buffer[..self.used]
    }
}

impl Sink for MemorySink {
    ghost written = { λ s. Some s.written };

    ghost faults = { λ s. s.faults };

    fn write(&mut self, piece: &[u8]) -> Result<usize, Failed>
        ensures within { IfOk result (λ n. n ≤ length piece.now) }
        ensures moved { MovesWritten (Some self.old.written) (Some self.new.written) result
            piece.now }
        ensures counted { self.old.faults ≤ self.new.faults }
        ensures cause { OnErr result (HasFault self.old.faults self.new.faults) }
        ensures stuck { IfOk result (λ n. n ≡ 0 → 0 < length piece.now
            → HasFault self.old.faults self.new.faults) }
        ensures quiet { IfOk result (λ n. (0 < n) ⊎ (length piece.now ≡ 0) → self.new.faults
            ≡ self.old.faults) }
        ensures exact { (result, self.new) ≡ after_write self.old piece.now }
    {
        self.calls = self.calls.saturating_add(1);
        if self.failing.contains(&self.calls) {
            self.faults = self.faults.saturating_add(1);
            return Err(Failed);
        }
        let taken = piece.len().min(self.buffer.len() - self.used);
        put(&mut self.buffer, self.used, &piece[..taken]);
        self.used += taken;
        if taken == 0 && !piece.is_empty() {
            self.faults = self.faults.saturating_add(1);
        }
        Ok(taken)
    }
}

// Writes a piece over the bytes from `at` on.
pub(crate) fn put(buffer: &mut Vec<u8>, at: usize, piece: &[u8])
    requires { at + length piece.now ≤ vec_len buffer.old }
    ensures items { buffer.new.items ≡ take at buffer.old.items ++ piece.now
        ++ drop (at + length piece.now) buffer.old.items }
    ensures len { vec_len buffer.new ≡ vec_len buffer.old }
{
    buffer[at..at + piece.len()].copy_from_slice(piece);
}
