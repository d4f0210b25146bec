ghost use Rattle.std.specs.Prelude.{◌≡◌, ◌<◌, ◌≤◌, ◌⊎◌, Some, [], false, length, IfOk, IsOk, OnOk, OnErr};
ghost use Rattle.ic_lines.specs.Bytes.{MovesRead, MovesWritten, HasFault, ShowsEnd};
ghost use Rattle.ic_lines.specs.Steady.{SteadySourceState, after_steady_read, after_steady_write, no_faults};

use crate::memory::put;
use crate::{Failed, Sink, Source};
use ic_laws::OutOfMemory;
use std::alloc::Global;
use std::marker::Model;

/// A source over borrowed bytes, no read of which fails: what is read over it never meets a fault.
#[derive(Drop)]
pub struct SteadySource<'a> {
    rest: &'a [u8],
    ended: bool,
}

impl<'a> Model for SteadySource<'a> {
    ghost use Rattle.ic_lines.specs.Steady.{SteadySourceState};

    ghost Value = { SteadySourceState };

    ghost view = { λ s. record { left = s.rest.now; ended = s.ended } };
}

impl<'a> SteadySource<'a> {
    /// A source that has these bytes left and was never read. Its count of faults stays as it is for good.
    pub fn new(bytes: &'a [u8]) -> SteadySource<'a>
        ensures made { result ≡ record { left = bytes.now; ended = false } }
        ensures steady { (before now : SteadySourceState)
            → ¬ HasFault (⟦<SteadySource<'a> as Source>⟧.faults before)
            (⟦<SteadySource<'a> as Source>⟧.faults now) }
    {
        SteadySource {
            rest: bytes,
            ended: false,
        }
    }
}

impl<'a> Source for SteadySource<'a> {
    ghost left = { λ s. Some s.left };

    ghost faults = { no_faults };

    ghost ended = { λ s. s.ended };

    fn read(&mut self, buf: &mut [u8]) -> Result<usize, Failed>
        ensures within { IfOk result (λ n. n ≤ length buf.new) }
        ensures moved { MovesRead (Some self.old.left) (Some self.new.left) result buf.new }
        ensures counted { no_faults self.old ≤ no_faults self.new }
        ensures cause { OnErr result (HasFault (no_faults self.old) (no_faults self.new)) }
        ensures quiet { OnOk result (no_faults self.new ≡ no_faults self.old) }
        ensures end { ShowsEnd self.old.ended self.new.ended result (length buf.new) }
        ensures never_fails { IsOk result }
        ensures exact { (result, self.new) ≡ after_steady_read self.old (length buf.new) }
    {
        let rest = self.rest;
        let taken = buf.len().min(rest.len());
        buf[..taken].copy_from_slice(&rest[..taken]);
        self.rest = &rest[taken..];
        if taken == 0 && !buf.is_empty() {
            self.ended = true;
        }
        Ok(taken)
    }
}

/// A sink into memory of a fixed size, no write to which fails. Once it is full it takes nothing, and that alone
/// counts a fault.
#[derive(Drop)]
pub struct SteadySink {
    buffer: Vec<u8>,
    used: usize,
    faults: u64,
}

impl Model for SteadySink {
    ghost use Rattle.std.specs.Prelude.{◌≡◌, ◌<◌, ◌≤◌, take, vec_len};
    ghost use Rattle.ic_lines.specs.Steady.{SteadySinkState};

    ghost Value = { SteadySinkState };

    ghost view = { λ s. record { written = take s.used s.buffer.items; size = vec_len s.buffer; faults = s.faults } };

    ghost invariant = { λ s. (s.used ≤ vec_len s.buffer) × (0 < s.faults → s.used ≡ vec_len s.buffer) };
}

impl SteadySink {
    /// A sink with room for `size` bytes, all of them taken now.
    pub fn new(alloc: Global, size: usize) -> Result<SteadySink, OutOfMemory>
        ensures { IfOk result (λ s. s ≡ record { written = []; size = size; faults = 0 }) }
    {
        Ok(SteadySink {
            buffer: vec![in alloc; 0; size]?,
            used: 0,
            faults: 0,
        })
    }

    /// What was written. A fault was counted only where it fills the room.
    pub fn bytes(&self) -> &[u8]
        ensures written { result.now ≡ self.now.written }
        ensures fits { length self.now.written ≤ self.now.size }
        ensures full { 0 < self.now.faults → length self.now.written ≡ self.now.size }
    {
        &self.buffer[..self.used]
    }
}

impl Sink for SteadySink {
    ghost written = { λ s. Some s.written };

    ghost faults = { λ s. s.faults };

    fn write(&mut self, piece: &[u8]) -> Result<usize, Failed>
        ensures within { IfOk result (λ n. n ≤ length piece.now) }
        ensures moved { MovesWritten (Some self.old.written) (Some self.new.written) result
            piece.now }
        ensures counted { self.old.faults ≤ self.new.faults }
        ensures cause { OnErr result (HasFault self.old.faults self.new.faults) }
        ensures stuck { IfOk result (λ n. n ≡ 0 → 0 < length piece.now
            → HasFault self.old.faults self.new.faults) }
        ensures quiet { IfOk result (λ n. (0 < n) ⊎ (length piece.now ≡ 0) → self.new.faults
            ≡ self.old.faults) }
        ensures never_fails { IsOk result }
        ensures exact { (result, self.new) ≡ after_steady_write self.old piece.now }
    {
        let taken = piece.len().min(self.buffer.len() - self.used);
        put(&mut self.buffer, self.used, &piece[..taken]);
        self.used += taken;
        if taken == 0 && !piece.is_empty() {
            self.faults = self.faults.saturating_add(1);
        }
        Ok(taken)
    }
}
